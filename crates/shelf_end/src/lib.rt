// The end of the input: the last row may lack its CR LF, and is served as if it had them.
#![tactic(auto)]

ghost use Rattle.std.specs.Prelude.{◌≡◌, ◌+◌, ◌≤◌, length};
ghost use Rattle.spec_shelf.specs.Printed.{written};
ghost use Rattle.spec_rules.specs.Records.{plan_words};
ghost use Rattle.spec_shelf.specs.Room.{answer_most, Ready};
ghost use Rattle.shelf_state.specs.Cutting.{last_rows, last_plan};

use shelf_state::Shelf;

// At the end of the input: the answer to the last row, where that has a byte and no CR LF.
pub fn finish(s: Shelf, plan: &mut [u32], out: &mut [u8], at: usize) -> usize
    requires ready { Ready s.state }
    requires plan_words_in_bounds { plan_words ≤ length plan.old }
    requires answer_most_in_bounds { at + answer_most ≤ length out.old }
    ensures { let rows = last_rows s in
        (result ≡ at + length rows) × ((out.new ≡ written out.old at rows)
        × (plan.new ≡ last_plan s plan.old)) }
{
    let line = row_cut::unheld(s.reader);
    if line.len == 0 {
        return at;
    }
    shelf_rows::serve_rows(s, b"\r\n", plan, out, at).at
}
