// What an even share of every interval takes of one interval: kind 1 what its jobs need, a piece the same slots in each interval up to its
// deadline. Where an interval has room for that, every entry is served in time, and no interval need be looked at.
#![tactic(auto)]

ghost use Rattle.std.specs.Prelude.{◌≡◌, ◌+◌, ◌*◌, ◌≤◌, length, max, sum_by, All};
ghost use Rattle.base_numbers.specs.Upward.{upward};
ghost use Rattle.spec_model.specs.Tables.{places};
ghost use Rattle.spec_rules.specs.Share.{load_of};
ghost use Rattle.law_ahead.specs.Even.{evenly};
ghost use Rattle.table_queue.specs.Queues.{largest32};
ghost use Rattle.ahead_even.specs.Need.{even_need};
ghost use Rattle.ahead_even.specs.Needs.{need_in};

use ahead_figures::Figures;
use spec_model::{Entry, Intervals, Kind, Slots};

// So many slots of each interval serve in time what is owed up to an end, and what each later period begins with.
fn evened(owed: Slots, left: Intervals, begin: Slots, period: Intervals) -> Slots
    ensures { result.0 ≡ max (upward owed.0 left.0) (upward begin.0 period.0) }
{
    let by_end = base_numbers::upward(owed.0, left.0);
    let later = base_numbers::upward(begin.0, period.0);
    Slots(by_end.max(later))
}

// So many slots of each interval serve a piece in time.
#[tactic(auto, unfolding(law_ahead::specs::Even::evenly))]
fn even_slots(e: Entry) -> Slots
    ensures { result.0 ≡ evenly e }
{
    match e.kind() {
        Some(Kind::Whole) => evened(e.owed, e.left, e.min, e.period),
        Some(Kind::Transfer) => Slots(base_numbers::upward(e.owed.0, e.left.0)),
        _ => Slots(0),
    }
}

// Its load, and what serves it in time.
pub fn need_of(e: Entry) -> u64
    ensures { (result ≡ even_need e) × (result ≤ load_of e + largest32) }
{
    let piece = even_slots(e);
    (piece.0 as u64) + table_entry::load_of(e)
}

// ---- by the figures of the places, as looking ahead keeps them
// Times count from where looking ahead began, and `at` is one, the time at hand.
fn need_in(f: Figures, at: Intervals) -> u64
    requires { at.0 ≤ f.end.0 }
    ensures { (result ≡ need_in at.0 f) × (result ≤ 2 * largest32) }
{
    let piece = evened(f.owed, Intervals(f.end.0 - at.0), f.begin, f.period);
    (f.load.0 as u64) + (piece.0 as u64)
}

// What an even share takes of an interval.
pub fn needs_of(figures: &[Figures], at: Intervals) -> u64
    requires short { length figures.now ≤ places }
    requires ahead { All (λ f. at.0 ≤ f.end.0) figures.now }
    ensures { result ≡ sum_by (need_in at.0) figures.now }
{
    figures.iter().map(|f| need_in(*f, at)).sum()
}
