// A row that is a beacon: the call on the table, where there is one, and the rows of its answer in lent memory.
#![tactic(auto)]

ghost use Rattle.std.specs.Prelude.{◌≡◌, ◌+◌, ◌≤◌, length};
ghost use Rattle.spec_rules.specs.Records.{plan_words};
ghost use Rattle.spec_shelf.specs.declared.Command.TheVariants.{Beacon};
ghost use Rattle.spec_shelf.specs.Meaning.{state_after, plan_after, rows_for};
ghost use Rattle.spec_shelf.specs.Room.{answer_most, Ready};
ghost use Rattle.spec_shelf.specs.Printed.{written};

use spec_model::Table;

// The plan is in lent memory, and each of its records has a row. Where no place is in use the table stays.
pub fn answer_beacon(
    table: &mut Option<Table>,
    plan: &mut [u32],
    out: &mut [u8],
    at: usize,
) -> usize
    requires ready { Ready table.old }
    requires plan_words_in_bounds { plan_words ≤ length plan.old }
    requires room { at + answer_most ≤ length out.old }
    ensures state { table.new ≡ state_after table.old Beacon }
    ensures rows { let bs = rows_for table.old Beacon in
        (result ≡ at + length bs) × (out.new ≡ written out.old at bs) }
    ensures memory { plan.new ≡ plan_after table.old Beacon plan.old }
{
    let Some(t) = table else {
        return row_print::plain_row(out, at, b"beacon", call_answers::NO_TABLE);
    };
    // The memory lent is long enough, so no beacon is refused.
    let p = call_beacon::plan_interval(*t, plan).unwrap();
    if 0 < p.used {
        *t = beacon_advance::advance(*t, p.used, p.shares);
    }
    let after_call = row_print::plain_row(out, at, b"beacon", call_answers::DONE);
    row_slots::slot_rows(out, after_call, plan, p.count)
}
