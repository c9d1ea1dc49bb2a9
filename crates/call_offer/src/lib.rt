// Offers: document 01, "Where each refusal is checked", `offer`. An offer is decided on a table that is only read: a caller that changes
// its table in its place puts the entry there itself, and the call by value gives back the table after it.
#![tactic(auto)]

ghost use Rattle.std.specs.Prelude.{◌≡◌, ◌<◌, IfOk};
ghost use Rattle.std.specs.Result.{result_unwrap_or};
ghost use Rattle.spec_model.specs.Answers.{answered, offer_number};
ghost use Rattle.spec_model.specs.Entries.{free_entry};
ghost use Rattle.spec_model.specs.Tables.{places, no_place, put_in};
ghost use Rattle.spec_model.specs.declared.Request.{Request};
ghost use Rattle.spec_rules.specs.Calls.{offer_answer, offered};
ghost use Rattle.spec_rules.specs.WellFormed.{WellFormed};

mod checks; // checks.rt: an offer's checks but for looking ahead, and the entry that it becomes

use spec_model::{Entry, Name, OfferRefusal, Request, Table};

// What an accepted offer puts in the table: its entry, at a place.
#[derive(Clone, Copy)]
pub struct Placed {
    pub place: usize,
    pub entry: Entry,
}

// The table is read and not changed: the caller puts the entry in its own. A copy with the entry is made only for looking ahead. Without a
// header the header test adds nothing to the rest of looking ahead, and is not made.
pub fn decide(t: Table, q: Request) -> Result<Placed, OfferRefusal>
    requires { WellFormed t }
    ensures is { let p = result_unwrap_or result (record { place = no_place; entry = free_entry }) in
        (answered offer_number result ≡ offer_answer t q) × (put_in t p.place p.entry ≡ offered t q) }
    ensures place { IfOk result (λ p. p.place < places) }
{
    let name = q.name;
    if !name.in_range() {
        return Err(OfferRefusal::StreamOutside);
    }
    let s = table_survey::survey_for(t, name);
    let frame = t.frame;
    let place = checks::free_place(frame, s, q)?;
    let entry = checks::entry_of(q);
    if 0 < frame.header.0 {
        if !header_test::minimums_pass(t, s.used, place, entry) {
            return Err(OfferRefusal::NoTime);
        }
    }
    if table_survey::fits_with(s.needed, entry, frame) {
        return Ok(Placed { place, entry });
    }
    if !ahead_loop::keeps_up_ahead(t, s.used, place, entry) {
        return Err(OfferRefusal::NoTime);
    }
    Ok(Placed { place, entry })
}

// Refused, the table stays as it is.
pub fn offer(
    t: Table,
    name: Name,
    kind: u32,
    period: u32,
    min: u32,
    max: u32,
    life: u32,
) -> Result<Table, OfferRefusal>
    requires { WellFormed t }
    ensures { let q : Request = record { name = name; kind = kind; period = period; min = min; max = max; life = life } in
        (answered offer_number result ≡ offer_answer t q) × (result_unwrap_or result t ≡ offered t q) }
{
    let q = Request {
        name,
        kind,
        period,
        min,
        max,
        life,
    };
    let placed = decide(t, q)?;
    let entry = placed.entry;
    Ok(table_places::put_in(t, placed.place, entry))
}
