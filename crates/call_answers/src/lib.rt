// The document's number of each answer: document 01, "Where each refusal is checked". A call answers with a value, or with a refusal, an
// enum of crate spec_model; whoever shows the answer asks for its number. The program's own refusals have their numbers here by name.
#![tactic(auto)]

ghost use Rattle.std.specs.Prelude.{◌≡◌, ◌≢◌, ℕ, eqb};
ghost use Rattle.std.specs.Result.{is_ok};
ghost use Rattle.spec_model.specs.Answers.{answered, offer_number};
ghost use Rattle.spec_model.specs.Numbers.{open_number, held_number, beacon_number, window_number};
ghost use Rattle.call_answers.specs.Refused.{open_refused, offer_refused, held_refused, beacon_refused, window_refused};

use spec_model::{BeaconRefusal, HeldRefusal, OfferRefusal, OpenRefusal, WindowRefusal};

// ---- numbers by name
// A call that succeeds.
pub const DONE: u32 = 0;

// The program: a row of another form, and a call where there is no table.
pub const OTHER_FORM: u32 = 50;

pub const NO_TABLE: u32 = 51;

// ---- the number of each refusal
pub trait Refusal: Copy {
    ghost number: { Self → ℕ };

    fn number(self) -> u32
        ensures { result ≡ number self };

    // None is the number of a call that succeeds.
    ghost refused: { (r : Self) → number r ≢ 0 };
}

impl Refusal for OpenRefusal {
    ghost number = { open_number };

    ghost refused = { open_refused };

    fn number(self) -> u32 {
        match self {
            OpenRefusal::UnitsOutside => 1,
            OpenRefusal::HeaderOutside => 61,
        }
    }
}

impl Refusal for OfferRefusal {
    ghost number = { offer_number };

    ghost refused = { offer_refused };

    fn number(self) -> u32 {
        match self {
            OfferRefusal::StreamOutside => 10,
            OfferRefusal::StreamHeld => 11,
            OfferRefusal::KindUnknown => 12,
            OfferRefusal::PeriodOutside => 13,
            OfferRefusal::AmountsOutside => 14,
            OfferRefusal::LifeOutside => 15,
            OfferRefusal::TableFull => 16,
            OfferRefusal::NoTime => 17,
        }
    }
}

impl Refusal for HeldRefusal {
    ghost number = { held_number };

    ghost refused = { held_refused };

    fn number(self) -> u32 {
        match self {
            HeldRefusal::NotHeld => 20,
        }
    }
}

impl Refusal for BeaconRefusal {
    ghost number = { beacon_number };

    ghost refused = { beacon_refused };

    fn number(self) -> u32 {
        match self {
            BeaconRefusal::PlanTooShort => 30,
        }
    }
}

impl Refusal for WindowRefusal {
    ghost number = { window_number };

    ghost refused = { window_refused };

    fn number(self) -> u32 {
        match self {
            WindowRefusal::TooManyRecords => 40,
            WindowRefusal::FromAfterUntil => 41,
            WindowRefusal::StartsNotRising => 42,
        }
    }
}

// ---- and of any answer
pub fn answer_number<T, R: Refusal>(answer: &Result<T, R>) -> u32
    ensures number { result ≡ answered R.number answer.now }
    ensures done { is_ok answer.now ≡ eqb result 0 }
{
    match answer {
        Ok(_) => DONE,
        Err(refusal) => refusal.number(),
    }
}
