// The rows of a plan's records in lent memory, written as the rows of calls are.
#![tactic(auto)]

ghost use Rattle.std.specs.Prelude.{◌≡◌, ◌+◌, ◌*◌, ◌≤◌, length};
ghost use Rattle.spec_rules.specs.Records.{record_words};
ghost use Rattle.plan_record.specs.Recorded.{run_of};
ghost use Rattle.spec_shelf.specs.Bytes.{written};
ghost use Rattle.spec_shelf.specs.Printed.{slot_row_most, slot_row_of, slot_rows};

use plan_record::Record;

// A record.
fn slot_row(out: &mut [u8], at: usize, r: Record) -> usize
    requires { at + slot_row_most ≤ length out.old }
    ensures { let row = slot_row_of (run_of r) in
        (result ≡ at + length row) × (out.new ≡ written out.old at row) }
{
    let second = row_write::put_bytes(out, at, b"slot");
    let third = row_print::put_name(out, second, r.name);
    let fourth = row_write::put_field(out, third, r.job);
    let fifth = row_write::put_field(out, fourth, r.start.0);
    let last = row_write::put_field(out, fifth, r.length.0);
    row_write::put_bytes(out, last, b",\r\n")
}

// A row for each of a plan's first records.
pub fn slot_rows(out: &mut [u8], at: usize, plan: &[u32], count: usize) -> usize
    requires count_in_bounds { record_words * count ≤ length plan.now }
    requires count_in_bounds_2 { at + slot_row_most * count ≤ length out.old }
    ensures { let rows = slot_rows count plan.now in
        (result ≡ at + length rows) × (out.new ≡ written out.old at rows) }
{
    let mut end = at;
    for n in 0..count {
        let r = plan_record::read_record(plan, n);
        end = slot_row(out, end, r);
    }
    end
}
