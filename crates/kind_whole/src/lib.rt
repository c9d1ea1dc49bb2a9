// Whole streams, kind 2: the least and largest value of each field. Document 01, "Units and one request".
#![tactic(auto)]

ghost use Rattle.std.specs.Prelude.{◌≡◌};
ghost use Rattle.spec_model.specs.Answers.{answered, offer_number};
ghost use Rattle.spec_model.specs.Requests.{refusal, whole_period, whole_amounts, whole_life, whole_checks};

use spec_model::{Intervals, OfferRefusal, Slots};

// Kind 2: so much in every period of so many intervals.
#[derive(Clone, Copy)]
pub struct WholeStream {
    pub period: Intervals,
    pub min: Slots,
    pub max: Slots,
    pub life: Intervals,
}

impl WholeStream {
    pub const PERIOD_LEAST: u32 = 1;

    pub const PERIOD_LARGEST: u32 = 255;

    pub const MIN_LEAST: u32 = 1;

    pub const LIFE_LEAST: u32 = 1;

    pub const LIFE_LARGEST: u32 = 65535;

    pub fn period_in_range(self) -> bool
        ensures { result ≡ whole_period self.period.0 }
    {
        base_numbers::is_within(Self::PERIOD_LEAST, Self::PERIOD_LARGEST, self.period.0)
    }

    // The largest amount is what the period's intervals have, which may pass 32 bits.
    pub fn amounts_in_range(self, interval: Slots) -> bool
        ensures { result ≡ whole_amounts interval.0 self.period.0 self.min.0 self.max.0 }
    {
        let period = self.period.0 as u64;
        let slots = interval.0 as u64;
        spec_model::amounts_in_order(Self::MIN_LEAST, self.min, self.max, period * slots)
    }

    // The life is a multiple of the period.
    pub fn life_in_range(self) -> bool
        ensures { result ≡ whole_life self.period.0 self.life.0 }
    {
        let inside = base_numbers::is_within(Self::LIFE_LEAST, Self::LIFE_LARGEST, self.life.0);
        let whole = base_numbers::is_multiple(self.life.0, self.period.0);
        inside && whole
    }

    pub fn check(self, interval: Slots) -> Result<(), OfferRefusal>
        ensures { answered offer_number result ≡ refusal (whole_checks
            interval.0 self.period.0 self.min.0 self.max.0 self.life.0) }
    {
        let period = self.period_in_range();
        let amounts = self.amounts_in_range(interval);
        let life = self.life_in_range();
        spec_model::first_outside(period, amounts, life)
    }
}
