// A row that is an offer: the call on the table, where there is one, and the row of its answer in lent memory.
#![tactic(auto)]

ghost use Rattle.std.specs.Prelude.{◌≡◌, ◌+◌, ◌≤◌, length};
ghost use Rattle.spec_shelf.specs.declared.Command.TheVariants.{Offer};
ghost use Rattle.spec_shelf.specs.Meaning.{state_after, rows_for};
ghost use Rattle.spec_shelf.specs.Room.{answer_most, Ready};
ghost use Rattle.spec_rules.specs.Calls.{offer_answer, offered};
ghost use Rattle.spec_rules.specs.WellFormed.{WellFormed};
ghost use Rattle.spec_shelf.specs.Printed.{written};

use spec_model::{Request, Table};

// The table stays where it lies, and one entry of it changes.
fn offer_to(t: &mut Table, q: Request) -> u32
    requires { WellFormed t.old }
    ensures { (result ≡ offer_answer t.old q) × (t.new ≡ offered t.old q) }
{
    let decision = call_offer::decide(*t, q);
    if let Ok(placed) = decision {
        t.entries[placed.place] = placed.entry;
    }
    call_answers::answer_number(&decision)
}

pub fn answer_offer(table: &mut Option<Table>, q: Request, out: &mut [u8], at: usize) -> usize
    requires ready { Ready table.old }
    requires room { at + answer_most ≤ length out.old }
    ensures state { table.new ≡ state_after table.old (Offer q) }
    ensures rows { let bs = rows_for table.old (Offer q) in
        (result ≡ at + length bs) × (out.new ≡ written out.old at bs) }
{
    let number = match table {
        Some(t) => offer_to(t, q),
        None => call_answers::NO_TABLE,
    };
    row_print::stream_row(out, at, b"offer", q.name, number)
}
