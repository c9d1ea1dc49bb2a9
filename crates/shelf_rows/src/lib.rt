// Rows of text in, rows of text out: each row that is read is a call of the planner, whose answer is printed. What stands between two
// rows, and between two chunks of the input, is a struct by value, see crate shelf_state.
#![tactic(auto)]

ghost use Rattle.std.specs.Prelude.{◌≡◌, ◌+◌, ◌≤◌, length, take};
ghost use Rattle.spec_rules.specs.Records.{plan_words};
ghost use Rattle.spec_shelf.specs.Meaning.{state_after, plan_after, rows_for};
ghost use Rattle.spec_shelf.specs.Room.{answer_most, Ready};
ghost use Rattle.spec_shelf.specs.Printed.{written};
ghost use Rattle.shelf_state.specs.Cutting.{command_in};
ghost use Rattle.shelf_state.specs.Whole.{chunk_rows, chunk_plan, shelf_after};

use row_cut::Line;
use shelf_state::{Served, Shelf};
use spec_model::Table;
use spec_shelf::Command;
use spec_text::ROW_MOST;

#[tactic(auto, unfolding(shelf_state::specs::Cutting::command_in))]
fn command_in(line: Line) -> Command
    ensures { result ≡ command_in line }
{
    if ROW_MOST < line.len {
        return Command::OtherForm;
    }
    row_command::command_of(&line.bytes[..line.len])
}

// A row's call, and the rows of its answer.
#[tactic(auto, unfolding(spec_shelf::specs::Meaning::state_after, spec_shelf::specs::Meaning::plan_after, spec_shelf::specs::Meaning::rows_for))]
fn answer(
    command: Command,
    table: &mut Option<Table>,
    plan: &mut [u32],
    out: &mut [u8],
    at: usize,
) -> usize
    requires ready { Ready table.old }
    requires plan_words_in_bounds { plan_words ≤ length plan.old }
    requires room { at + answer_most ≤ length out.old }
    ensures state { table.new ≡ state_after table.old command }
    ensures rows { let bs = rows_for table.old command in
        (result ≡ at + length bs) × (out.new ≡ written out.old at bs) }
    ensures memory { plan.new ≡ plan_after table.old command plan.old }
{
    match command {
        Command::Open(s) => shelf_open::answer_open(table, s, out, at),
        Command::Offer(q) => shelf_offer::answer_offer(table, q, out, at),
        Command::Withdraw(n) => shelf_withdraw::answer_withdraw(table, n, out, at),
        Command::Beacon => shelf_beacon::answer_beacon(table, plan, out, at),
        Command::OtherForm => row_print::plain_row(out, at, b"row", call_answers::OTHER_FORM),
    }
}

// Row after row, until the chunk is used up or another answer might not fit. The table stays in its place, and a call changes it there.
pub fn serve_rows(s: Shelf, chunk: &[u8], plan: &mut [u32], out: &mut [u8], at: usize) -> Served
    requires ready { Ready s.state }
    requires plan_words_in_bounds { plan_words ≤ length plan.old }
    requires answer_most_in_bounds { at + answer_most ≤ length out.old }
    ensures is { let p = take result.taken chunk.now in let rows = chunk_rows s p in
        (result.shelf ≡ shelf_after s p) × ((result.at ≡ at + length rows)
        × ((out.new ≡ written out.old at rows) × (plan.new ≡ chunk_plan s p plan.old))) }
    ensures formed { Ready result.shelf.state }
    ensures far { let n = length chunk.now in let room = length out.old in
        (result.taken ≤ n) × ((result.at ≤ room) × (result.at + answer_most ≤ room → result.taken ≡ n)) }
{
    let mut reader = s.reader;
    let mut table = s.state;
    let mut taken: usize = 0;
    let mut next = at;
    let last = out.len() - spec_shelf::ANSWER_MOST;
    while taken < chunk.len() && next <= last {
        let cut = row_cut::cut_row(reader, &chunk[taken..]);
        reader = cut.reader;
        taken += cut.taken;
        if let Some(line) = cut.row {
            next = answer(command_in(line), &mut table, plan, out, next);
        }
    }
    let shelf = Shelf {
        reader,
        state: table,
    };
    Served {
        shelf,
        taken,
        at: next,
    }
}
