// The jobs of an interval as rows, one row for each held entry in the tie order: at most sixteen jobs of one need. The plan of a table is
// written from them. Document 01, "One beacon", steps D and E.
#![tactic(auto)]

ghost use Rattle.std.specs.Prelude.{◌++◌, ◌≡◌, ◌*◌, ◌≤◌, length, drop};
ghost use Rattle.spec_rules.specs.Records.{record_words, plan_words, words_of};
ghost use Rattle.spec_rules.specs.Calls.{plan_of};
ghost use Rattle.spec_rules.specs.WellFormed.{Tidy};
ghost use Rattle.table_queue.specs.Queues.{largest32, Queued};
ghost use Rattle.beacon_share.specs.Shares.{shares_of};
ghost use Rattle.beacon_jobs.specs.Needs.{need_by, row_by};

use beacon_plan::JobRow;
use beacon_share::{Granted, Shares};
use spec_model::{Entry, Frame, Kind, Name, Slots, Table};
use table_queue::Queue;

// No jobs: what stands where no row is made yet.
const NO_ROW: JobRow = JobRow {
    name: Name { stream: 0 },
    length: Slots(0),
    count: 0,
    need: Slots(0),
};

// What each job of an entry needs, by what the entry gets.
fn need_of(e: Entry, g: Granted) -> Slots
    requires { need_by g e ≤ largest32 }
    ensures { result.0 ≡ need_by g e }
{
    match e.kind() {
        Some(Kind::Fraction) => Slots(e.min.0 + g.extra.0),
        _ => Slots(g.piece.0 + g.extra.0),
    }
}

// The jobs of an entry, by what it gets.
fn row_of(f: Frame, e: Entry, g: Granted) -> JobRow
    requires { need_by g e ≤ largest32 }
    ensures { result ≡ row_by f g e }
{
    JobRow {
        name: e.name,
        length: table_entry::job_length(f, e),
        count: table_entry::job_count(e),
        need: need_of(e, g),
    }
}

// The plan of the table's interval in the first words; every later word stays. The loop makes a row for each place of the order.
pub fn write_jobs(t: Table, q: Queue, s: Shares, plan: &mut [u32]) -> usize
    requires tidy { Tidy t × Queued t q }
    requires s_value { s ≡ shares_of t }
    requires plan_words_in_bounds { plan_words ≤ length plan.old }
    ensures { (result ≡ length (plan_of t)) × (plan.new ≡ words_of (plan_of t) ++ drop (record_words * result) plan.old) }
{
    let o = beacon_order::ordered(&q.claims[..q.used]);
    let frame = t.frame;
    let mut rows = [NO_ROW; spec_model::PLACES];
    let listed = &o.places[..o.count];
    for (k, place) in listed.iter().enumerate() {
        let i = *place;
        rows[k] = row_of(frame, t.entries[i], s.grants[i]);
    }
    beacon_plan::write_plan(frame, &rows[..listed.len()], plan)
}
