// The header test of kind 1, document 02, No. 1: at each period end t of a kind 1 stream the jobs due by t have room in the slots from the
// header to t. A job's need is added up with those of all streams of as many parts: streams of m parts have the same period ends, and of i
// parts the same number of jobs due at each. So the cost goes by the different numbers of parts, of which there are 15, and not by streams
// times streams.
#![tactic(auto)]

ghost use Rattle.std.specs.Prelude.{◌≡◌, ◌+◌, ◌≤◌, ◌<◌};
ghost use Rattle.spec_model.specs.Entries.{asks};
ghost use Rattle.spec_model.specs.Tables.{places, held_of, put_in};
ghost use Rattle.spec_rules.specs.Header.{header_test};
ghost use Rattle.spec_rules.specs.WellFormed.{Tidy};
ghost use Rattle.table_queue.specs.Queues.{Used};
ghost use Rattle.header_test.specs.Due.{Summed, PartsIn, Tells, added, due_at, most_due, EndsFit, Passes};

use spec_model::{Entry, Frame, Kind, Slots, Table};

// An array by the number of parts, which is 2 to 16.
pub const PARTS_ROOM: usize = 17;

// ---- the test by sums
// What the jobs need that are due by end k of m. A stream of i parts has k i / m of them: t is k/m of the interval, its period 1/i. Most
// numbers of parts nobody has, and they cost no division.
fn due_at(sums: &[u64; 17], k: u32, m: u32) -> u64
    requires { Summed sums.now × ((k ≤ 16) × (1 ≤ m)) }
    ensures { (result ≡ due_at sums.now k m) × (result ≤ most_due) }
{
    let mut due: u64 = 0;
    for i in 2..PARTS_ROOM {
        let need = sums[i];
        if 0 < need {
            let jobs = k * (i as u32) / m;
            due += (jobs as u64) * need;
        }
    }
    due
}

// Whether there is room at each of the m period ends.
fn ends_fit(f: Frame, sums: &[u64; 17], m: u32) -> bool
    requires { Summed sums.now × ((1 ≤ m) × (m ≤ 16)) }
    ensures { Tells result (EndsFit f sums.now m) }
{
    let header = f.header.0 as u64;
    let period = (f.slots.0 / m) as u64;
    (1..m + 1).all(|k| due_at(sums, k, m) + header <= (k as u64) * period)
}

// Whether there is at the period ends of all streams. Where nobody has m parts, there are no such ends.
pub fn passes(f: Frame, sums: &[u64; 17]) -> bool
    requires { Summed sums.now }
    ensures { Tells result (Passes f sums.now) }
{
    (2..PARTS_ROOM).all(|m| sums[m] == 0 || ends_fit(f, sums, m as u32))
}

// ---- the sums
// One stream more, each job of which gets its minimum and so much more. Other kinds have no part in the test.
pub fn add_need(sums: &mut [u64; 17], e: Entry, extra: Slots)
    requires { Summed sums.old × PartsIn e }
    ensures { sums.new ≡ added (e.min.0 + extra.0) e sums.old }
{
    if let Some(Kind::Fraction) = e.kind() {
        let m = e.parts as usize;
        let need = (e.min.0 as u64) + (extra.0 as u64);
        sums[m] = sums[m] + need;
    }
}

// The test with the minimums of a table, with the entry at its place.
pub fn minimums_pass(t: Table, used: usize, place: usize, e: Entry) -> bool
    requires tidy { Tidy t × Used used t }
    requires place_lt_places { (place < places) × Tidy (put_in t place e) }
    ensures { result ≡ header_test t.frame asks (held_of (put_in t place e)) }
{
    let mut sums = [0u64; PARTS_ROOM];
    for i in 0..used {
        if i != place {
            let held = t.entries[i];
            add_need(&mut sums, held, Slots(0));
        }
    }
    add_need(&mut sums, e, Slots(0));
    passes(t.frame, &sums)
}
