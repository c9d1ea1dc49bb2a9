// A row that is an opening: the call, which makes a table where it succeeds, and the row of its answer in lent memory.
#![tactic(auto)]

ghost use Rattle.std.specs.Prelude.{◌≡◌, ◌+◌, ◌≤◌, length};
ghost use Rattle.spec_shelf.specs.declared.Command.TheVariants.{Open};
ghost use Rattle.spec_shelf.specs.Meaning.{state_after, rows_for};
ghost use Rattle.spec_shelf.specs.Room.{answer_most};
ghost use Rattle.spec_shelf.specs.Printed.{written};

use spec_model::{Setting, Table};

#[tactic(auto, unfolding(spec_shelf::specs::Meaning::state_after, spec_shelf::specs::Meaning::rows_for))]
pub fn answer_open(table: &mut Option<Table>, s: Setting, out: &mut [u8], at: usize) -> usize
    requires { at + answer_most ≤ length out.old }
    ensures state { table.new ≡ state_after table.old (Open s) }
    ensures rows { let bs = rows_for table.old (Open s) in
        (result ≡ at + length bs) × (out.new ≡ written out.old at bs) }
{
    let opening = call_open::open(s);
    if let Ok(opened) = opening {
        *table = Some(opened);
    }
    let number = call_answers::answer_number(&opening);
    row_print::plain_row(out, at, b"open", number)
}
