// Fraction streams, kind 1: the least and largest value of each field. Document 01, "Units and one request".
#![tactic(auto)]

ghost use Rattle.std.specs.Prelude.{◌≡◌};
ghost use Rattle.spec_model.specs.Answers.{answered, offer_number};
ghost use Rattle.spec_model.specs.Requests.{refusal, fraction_period, fraction_amounts, fraction_life, fraction_checks};

use spec_model::{Intervals, OfferRefusal, Slots};

// Kind 1: parts is m, and the period is the m-th part of the interval.
#[derive(Clone, Copy)]
pub struct FractionStream {
    pub parts: u32,
    pub min: Slots,
    pub max: Slots,
    pub life: Intervals,
}

impl FractionStream {
    pub const PARTS_LEAST: u32 = 2;

    pub const PARTS_LARGEST: u32 = 16;

    pub const MIN_LEAST: u32 = 1;

    pub const LIFE_LEAST: u32 = 1;

    pub const LIFE_LARGEST: u32 = 65535;

    pub fn period_in_range(self, interval: Slots) -> bool
        ensures { result ≡ fraction_period interval.0 self.parts }
    {
        let inside = base_numbers::is_within(Self::PARTS_LEAST, Self::PARTS_LARGEST, self.parts);
        let whole = base_numbers::is_multiple(interval.0, self.parts);
        inside && whole
    }

    // The largest amount is what a period has, B/m.
    pub fn amounts_in_range(self, interval: Slots) -> bool
        ensures { result ≡ fraction_amounts interval.0 self.parts self.min.0 self.max.0 }
    {
        let largest = base_numbers::part_of(interval.0, self.parts);
        spec_model::amounts_in_order(Self::MIN_LEAST, self.min, self.max, largest as u64)
    }

    pub fn life_in_range(self) -> bool
        ensures { result ≡ fraction_life self.life.0 }
    {
        base_numbers::is_within(Self::LIFE_LEAST, Self::LIFE_LARGEST, self.life.0)
    }

    pub fn check(self, interval: Slots) -> Result<(), OfferRefusal>
        ensures { answered offer_number result ≡ refusal (fraction_checks
            interval.0 self.parts self.min.0 self.max.0 self.life.0) }
    {
        let period = self.period_in_range(interval);
        let amounts = self.amounts_in_range(interval);
        let life = self.life_in_range();
        spec_model::first_outside(period, amounts, life)
    }
}
