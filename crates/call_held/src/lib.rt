// Withdrawals and enquiries: document 01, "Where each refusal is checked", `withdraw` and `enquire`. Both go by the place of a name.
#![tactic(auto)]

ghost use Rattle.std.specs.Prelude.{◌≡◌, ◌<◌, IfOk};
ghost use Rattle.std.specs.Result.{result_unwrap_or};
ghost use Rattle.spec_model.specs.Answers.{answered};
ghost use Rattle.spec_model.specs.Entries.{free_entry};
ghost use Rattle.spec_model.specs.Numbers.{held_number};
ghost use Rattle.spec_model.specs.Tables.{places, no_place, put_in};
ghost use Rattle.spec_rules.specs.Calls.{held_answer, withdrawn};
ghost use Rattle.spec_rules.specs.Reading.{enquired};
ghost use Rattle.spec_rules.specs.WellFormed.{WellFormed};

use spec_model::{Entry, HeldRefusal, Name, Table};

// ---- a withdrawal
// The place that becomes free. Refused, there is none.
pub fn release(t: Table, name: Name) -> Result<usize, HeldRefusal>
    requires { WellFormed t }
    ensures is { (answered held_number result ≡ held_answer t name)
        × (put_in t (result_unwrap_or result no_place) free_entry ≡ withdrawn t name) }
    ensures place { IfOk result (λ p. p < places) }
{
    let place = table_places::place_of(&t.entries, name);
    place.ok_or(HeldRefusal::NotHeld)
}

// Refused, the table stays as it is.
pub fn withdraw(t: Table, name: Name) -> Result<Table, HeldRefusal>
    requires { WellFormed t }
    ensures { (answered held_number result ≡ held_answer t name) × (result_unwrap_or result t ≡ withdrawn t name) }
{
    let place = release(t, name)?;
    let free = spec_model::free_entry();
    Ok(table_places::put_in(t, place, free))
}

// ---- an enquiry
pub fn enquire(t: Table, name: Name) -> Result<Entry, HeldRefusal>
    requires { WellFormed t }
    ensures { (answered held_number result ≡ held_answer t name) × (result_unwrap_or result free_entry ≡ enquired t name) }
{
    match table_places::place_of(&t.entries, name) {
        Some(place) => Ok(t.entries[place]),
        None => Err(HeldRefusal::NotHeld),
    }
}
