// Past an end of periods and lives, by a table's figures.
#![tactic(auto)]

ghost use Rattle.std.specs.Prelude.{◌≡◌, map, All};
ghost use Rattle.ahead_pass.specs.Passed.{after_end, passed_end, InRoom};

use ahead_figures::Figures;
use spec_model::{Intervals, Slots};

// What was owed is paid. Where the life is over the place is free; a period of kind 2 is followed by the next.
fn after_end(f: Figures, at: Intervals) -> Figures
    requires { InRoom f at.0 }
    ensures { result ≡ after_end at.0 f }
{
    if f.life.0 == at.0 {
        return Figures {
            owed: Slots(0),
            end: ahead_figures::NEVER,
            load: Slots(0),
            begin: Slots(0),
            ..f
        };
    }
    Figures {
        rank: f.rank + (f.period.0 as u64) * table_entry::RANK_INTERVAL,
        owed: f.begin,
        end: Intervals(at.0 + f.period.0),
        ..f
    }
}

// Past the end at hand: what ends there has ended.
pub fn pass_ends(figures: &mut [Figures], at: Intervals)
    requires { All (λ f. InRoom f at.0) figures.old }
    ensures { figures.new ≡ map (passed_end at.0) figures.old }
{
    for f in figures {
        if f.end.0 == at.0 {
            *f = after_end(*f, at);
        }
    }
}
