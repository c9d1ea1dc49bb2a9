// The checks of an offer's fields, refusals 12 to 15, by its kind. Document 01, "Where each refusal is checked".
#![tactic(auto)]

ghost use Rattle.std.specs.Prelude.{◌≡◌};
ghost use Rattle.spec_model.specs.Answers.{answered, offer_number, fields_answer};

use kind_fraction::FractionStream;
use kind_transfer::Transfer;
use kind_whole::WholeStream;
use spec_model::{Frame, Intervals, Kind, OfferRefusal, Request, Slots};

// Refusals 12 to 15.
#[tactic(auto, unfolding(spec_model::specs::Answers::fields_answer, spec_model::specs::Requests::field_checks, spec_model::specs::Requests::refusal))]
pub fn check_fields(q: Request, f: Frame) -> Result<(), OfferRefusal>
    ensures { answered offer_number result ≡ fields_answer f q }
{
    match Kind::try_from(q.kind) {
        Ok(Kind::Fraction) => {
            let fraction = FractionStream {
                parts: q.period,
                min: Slots(q.min),
                max: Slots(q.max),
                life: Intervals(q.life),
            };
            fraction.check(f.slots)
        }
        Ok(Kind::Whole) => {
            let whole = WholeStream {
                period: Intervals(q.period),
                min: Slots(q.min),
                max: Slots(q.max),
                life: Intervals(q.life),
            };
            whole.check(f.slots)
        }
        Ok(Kind::Transfer) => {
            let transfer = Transfer {
                deadline: Intervals(q.period),
                amount: Slots(q.min),
                reserved: Slots(q.max),
                life: Intervals(q.life),
            };
            transfer.check()
        }
        Err(_) => Err(OfferRefusal::KindUnknown),
    }
}
