// A row that is a withdrawal: the call on the table, where there is one, and the row of its answer in lent memory.
#![tactic(auto)]

ghost use Rattle.std.specs.Prelude.{◌≡◌, ◌+◌, ◌≤◌, length};
ghost use Rattle.spec_shelf.specs.declared.Command.TheVariants.{Withdraw};
ghost use Rattle.spec_shelf.specs.Meaning.{state_after, rows_for};
ghost use Rattle.spec_shelf.specs.Room.{answer_most, Ready};
ghost use Rattle.spec_rules.specs.Calls.{held_answer, withdrawn};
ghost use Rattle.spec_rules.specs.WellFormed.{WellFormed};
ghost use Rattle.spec_shelf.specs.Printed.{written};

use call_answers::Refusal;
use spec_model::{Name, Table};

// The table stays where it lies, and the place of the stream becomes free.
fn withdraw_from(t: &mut Table, n: Name) -> u32
    requires { WellFormed t.old }
    ensures { (result ≡ held_answer t.old n) × (t.new ≡ withdrawn t.old n) }
{
    match call_held::release(*t, n) {
        Ok(place) => {
            t.entries[place] = spec_model::free_entry();
            call_answers::DONE
        }
        Err(refusal) => refusal.number(),
    }
}

pub fn answer_withdraw(table: &mut Option<Table>, n: Name, out: &mut [u8], at: usize) -> usize
    requires ready { Ready table.old }
    requires room { at + answer_most ≤ length out.old }
    ensures state { table.new ≡ state_after table.old (Withdraw n) }
    ensures rows { let bs = rows_for table.old (Withdraw n) in
        (result ≡ at + length bs) × (out.new ≡ written out.old at bs) }
{
    let number = match table {
        Some(t) => withdraw_from(t, n),
        None => call_answers::NO_TABLE,
    };
    row_print::stream_row(out, at, b"withdraw", n, number)
}
