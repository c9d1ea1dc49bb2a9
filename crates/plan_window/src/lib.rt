// A window over a plan: the records that start from one slot on to just before another, as a part of the plan lent. Document 01, "Reading,
// lending, printing". Nothing is asked of the plan or the count.
#![tactic(auto)]

ghost use Rattle.std.specs.Prelude.{◌≡◌, ◌+◌, ◌*◌, ◌-◌, ◌≤◌, length, take, drop};
ghost use Rattle.std.specs.Result.{result_unwrap_or};
ghost use Rattle.spec_model.specs.Answers.{answered, lent_words};
ghost use Rattle.spec_model.specs.Numbers.{window_number};
ghost use Rattle.spec_rules.specs.Records.{record_words};
ghost use Rattle.spec_rules.specs.Reading.{starts_of, rises, before, window_answer, window_part};
ghost use Rattle.plan_window.specs.Laws.{Passed};
ghost use Rattle.plan_window.specs.Ends.{bounds_of, no_records};

use spec_model::{Slots, WindowRefusal};

// Whether each record starts after the one before it.
fn starts_rise(plan: &[u32], count: usize) -> bool
    requires { record_words * count ≤ length plan.now }
    ensures { result ≡ rises (starts_of count plan.now) }
{
    for i in 1..count {
        let last = plan_record::start_of(plan, i - 1);
        let next = plan_record::start_of(plan, i);
        if next.0 <= last.0 {
            return false;
        }
    }
    true
}

// The number of the first record that starts at slot or later; the count where there is none. It is looked for behind those passed.
fn first_from(plan: &[u32], count: usize, passed: usize, slot: Slots) -> usize
    requires { (record_words * count ≤ length plan.now) × Passed count plan.now passed slot.0 }
    ensures { result ≡ before slot.0 (starts_of count plan.now) }
{
    for i in passed..count {
        let start = plan_record::start_of(plan, i);
        if slot.0 <= start.0 {
            return i;
        }
    }
    count
}

// The records that fit the plan are counted, since their words may be more than a number holds.
fn check(plan: &[u32], count: usize, from: Slots, until: Slots) -> Result<(), WindowRefusal>
    ensures { answered window_number result ≡ window_answer plan.now count from.0 until.0 }
{
    if plan.len() / spec_model::RECORD_WORDS < count {
        return Err(WindowRefusal::TooManyRecords);
    }
    if until.0 < from.0 {
        return Err(WindowRefusal::FromAfterUntil);
    }
    if starts_rise(plan, count) {
        return Ok(());
    }
    Err(WindowRefusal::StartsNotRising)
}

// Where the part begins and ends, counted in records.
#[derive(Clone, Copy)]
pub struct Bounds {
    pub first: usize,
    pub end: usize,
}

// What stands for a part that is refused.
pub const NO_RECORDS: Bounds = Bounds { first: 0, end: 0 };

// One pass finds both ends: no record before the first starts at until or later.
pub fn bounds_of(
    plan: &[u32],
    count: usize,
    from: Slots,
    until: Slots,
) -> Result<Bounds, WindowRefusal>
    ensures { (result_unwrap_or result no_records ≡ bounds_of plan.now count from.0 until.0)
        × (answered window_number result ≡ window_answer plan.now count from.0 until.0) }
{
    check(plan, count, from, until)?;
    let first = first_from(plan, count, 0, from);
    let end = first_from(plan, count, first, until);
    Ok(Bounds { first, end })
}

// The records from first to just before end.
fn records<'a>(plan: &'a [u32], first: usize, end: usize) -> &'a [u32]
    requires { (first ≤ end) × (record_words * end ≤ length plan.now) }
    ensures { result.now ≡ take (record_words * end - record_words * first) (drop (record_words * first) plan.now) }
{
    &plan[spec_model::RECORD_WORDS * first..spec_model::RECORD_WORDS * end]
}

// Refused, there is no part, which has no words.
pub fn window<'a>(
    plan: &'a [u32],
    count: usize,
    from: Slots,
    until: Slots,
) -> Result<&'a [u32], WindowRefusal>
    ensures { (lent_words result ≡ window_part plan.now count from.0 until.0)
        × (answered window_number result ≡ window_answer plan.now count from.0 until.0) }
{
    let b = bounds_of(plan, count, from, until)?;
    Ok(records(plan, b.first, b.end))
}
