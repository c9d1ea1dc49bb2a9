// Transfers, kind 3: the least and largest value of each field. Document 01, "Units and one request".
#![tactic(auto)]

ghost use Rattle.std.specs.Prelude.{◌≡◌};
ghost use Rattle.spec_model.specs.Answers.{answered, offer_number};
ghost use Rattle.spec_model.specs.Requests.{refusal, transfer_period, transfer_amounts, transfer_life, transfer_checks};

use spec_model::{Intervals, OfferRefusal, Slots};

// Kind 3: an amount, once, before a deadline. The maximum is reserved.
#[derive(Clone, Copy)]
pub struct Transfer {
    pub deadline: Intervals,
    pub amount: Slots,
    pub reserved: Slots,
    pub life: Intervals,
}

impl Transfer {
    pub const DEADLINE_LEAST: u32 = 1;

    pub const DEADLINE_LARGEST: u32 = 65535;

    pub const AMOUNT_LEAST: u32 = 1;

    pub const RESERVED: u32 = 0;

    pub fn period_in_range(self) -> bool
        ensures { result ≡ transfer_period self.deadline.0 }
    {
        base_numbers::is_within(
            Self::DEADLINE_LEAST,
            Self::DEADLINE_LARGEST,
            self.deadline.0,
        )
    }

    pub fn amounts_in_range(self) -> bool
        ensures { result ≡ transfer_amounts self.amount.0 self.reserved.0 }
    {
        let some = Self::AMOUNT_LEAST <= self.amount.0;
        let none = self.reserved.0 == Self::RESERVED;
        some && none
    }

    pub fn life_in_range(self) -> bool
        ensures { result ≡ transfer_life self.deadline.0 self.life.0 }
    {
        self.life.0 == self.deadline.0
    }

    pub fn check(self) -> Result<(), OfferRefusal>
        ensures { answered offer_number result ≡ refusal (transfer_checks
            self.deadline.0 self.amount.0 self.reserved.0 self.life.0) }
    {
        let period = self.period_in_range();
        let amounts = self.amounts_in_range();
        let life = self.life_in_range();
        spec_model::first_outside(period, amounts, life)
    }
}
