// The end that looking ahead goes to next, of a period or a life, and the load of each interval up to it, by a table's figures.
#![tactic(auto)]

ghost use Rattle.std.specs.Prelude.{◌≡◌, ◌≤◌, length, map, sum_by};
ghost use Rattle.spec_model.specs.Tables.{places};
ghost use Rattle.ahead_next.specs.Ends.{first_end};

use ahead_figures::Figures;
use spec_model::Intervals;

// The first end of all. Where nothing ends it is the end of a free place, which is later than any other: a number, and no Option, so that
// the smaller of two ends is the sooner.
pub fn next_end(figures: &[Figures]) -> Intervals
    ensures { result.0 ≡ first_end (map (λ f. f.end.0) figures.now) }
{
    Intervals(
        figures
            .iter()
            .fold(ahead_figures::NEVER.0, |first, f| first.min(f.end.0)),
    )
}

// ---- A. the load of an interval
pub fn loads_in(figures: &[Figures]) -> u64
    requires { length figures.now ≤ places }
    ensures { result ≡ sum_by (λ f. f.load.0) figures.now }
{
    figures.iter().map(|f| f.load.0 as u64).sum()
}
