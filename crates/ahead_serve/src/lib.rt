// The service of looking ahead, by numbers: what the places are owed is served from a number of slots by rank, the lowest first, and leaves
// the queue where its end comes.
#![tactic(auto)]

ghost use Rattle.std.specs.Prelude.{◌≡◌, ◌≤◌, ◌<◌, length, map, sum_by, MatchOption};
ghost use Rattle.spec_model.specs.Tables.{places};
ghost use Rattle.ahead_figures.specs.Arrays.{table_of};
ghost use Rattle.ahead_figures.specs.Columns.{owing};
ghost use Rattle.ahead_serve.specs.Serving.{left_of, Ranked, First};
ghost use Rattle.ahead_serve.specs.Places.{due_at, paid_at};

use ahead_figures::Figures;
use spec_model::{Intervals, Slots};

// What is due at the end `at` is paid: it leaves the queue. Returns how much that is.
pub fn pay_due(figures: &mut [Figures], at: Intervals) -> u64
    requires { length figures.old ≤ places }
    ensures { (result ≡ sum_by (due_at at.0) figures.old) × (figures.new ≡ map (paid_at at.0) figures.old) }
{
    let mut due: u64 = 0;
    for f in figures {
        if f.end.0 == at.0 {
            due += f.owed.0 as u64;
            f.owed = Slots(0);
        }
    }
    due
}

// The place of the lowest rank among those that are owed something. The largest number is nobody's rank. An Option carried through the loop
// makes it dearer by a quarter: it becomes one only behind it.
fn first_owed(figures: &[Figures]) -> Option<usize>
    requires { let c = table_of figures.now in Ranked c.ranks c.owed (length figures.now) }
    ensures { let c = table_of figures.now in
        MatchOption result (First c.ranks c.owed places) (λ i. (i < length figures.now) × First c.ranks c.owed i) }
{
    let mut first = 0;
    let mut least = u64::MAX;
    for (i, f) in figures.iter().enumerate() {
        if 0 < f.owed.0 && f.rank < least {
            least = f.rank;
            first = i;
        }
    }
    if least == u64::MAX {
        return None;
    }
    Some(first)
}

// The slots go to the lowest rank that is owed something, until they are used up or nobody is owed anything.
pub fn serve(figures: &mut [Figures], slots: u64)
    requires { let c = table_of figures.old in Ranked c.ranks c.owed (length figures.old) }
    ensures { let c = table_of figures.old in table_of figures.new ≡ owing (left_of slots c.ranks c.owed) c }
{
    let mut rest = slots;
    while 0 < rest {
        let Some(i) = first_owed(figures) else {
            return;
        };
        let f = &mut figures[i];
        let piece = rest.min(f.owed.0 as u64);
        f.owed = Slots(f.owed.0 - piece as u32);
        rest -= piece;
    }
}
