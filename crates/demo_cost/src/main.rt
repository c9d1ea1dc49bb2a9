// A full table of 32 requests at 15 and at 1,000 time units, and four beacons on each: `make cost` counts what the four cost, by
// callgrind. The cost of a beacon grows with jobs, and hardly with slots.
#![tactic(auto, using(law_model::specs::Frames::units_opening))]

ghost use Rattle.spec_model.specs.ByNumbers.{setting};
ghost use Rattle.spec_rules.specs.Settings.{Succeeds};

use demo_calls::{Planner, request};
use spec_model::Setting;

// 256 jobs of kind 1, and 16 pieces: sixteen streams of each kind.
fn full_table(rt: &impl Print, units: u32) -> Planner
    requires { Succeeds (setting units 0) }
{
    let mut planner = Planner::show_opened(rt, Setting { units, header: 0 });
    planner.show_offer_each(rt, request(1, 1, 16, 20, 40, 4), 17);
    planner.show_offer_each(rt, request(17, 2, 2, 100, 400, 4), 33);
    planner
}

// A function of its own, since `make cost` counts what runs under its name.
fn four_beacons(rt: &impl Print, mut planner: Planner, plan: &mut [u32]) {
    for _ in 0..4 {
        let _ = planner.show_beacon(rt, plan);
    }
}

fn main(rt: HostRuntime) {
    let mut plan = [0u32; spec_model::PLAN_WORDS];
    let small = full_table(&rt, 15);
    four_beacons(&rt, small, &mut plan);
    let large = full_table(&rt, 1000);
    four_beacons(&rt, large, &mut plan);
}
