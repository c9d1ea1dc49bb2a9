// An offer's checks one after the other, but for looking ahead, and the entry that it becomes.
ghost use Rattle.std.specs.Prelude.{true, ◌≡◌, IfOk, Some};
ghost use Rattle.std.specs.Option.{is_none};
ghost use Rattle.spec_model.specs.Requests.{refusal};
ghost use Rattle.spec_model.specs.Answers.{answered, offer_number};
ghost use Rattle.spec_model.specs.Entries.{entry_of};
ghost use Rattle.spec_model.specs.Names.{name_in_range};
ghost use Rattle.law_steps.specs.Offers.{offer_checks_but};

use spec_model::{Entry, Frame, Intervals, Kind, OfferRefusal, Request, Slots};
use table_survey::Survey;

// What a request becomes on acceptance.
#[tactic(auto, unfolding(spec_model::specs::Entries::entry_of))]
pub fn entry_of(q: Request) -> Entry
    ensures { result ≡ entry_of q }
{
    let e = Entry {
        name: q.name,
        kind: q.kind,
        min: Slots(q.min),
        max: Slots(q.max),
        life: Intervals(q.life),
        life_left: Intervals(q.life),
        ..spec_model::free_entry()
    };
    match Kind::try_from(q.kind) {
        Ok(Kind::Fraction) => Entry {
            parts: q.period,
            ..e
        },
        _ => Entry {
            period: Intervals(q.period),
            owed: Slots(q.min),
            left: Intervals(q.period),
            ..e
        },
    }
}

// The place that a request takes: the first free one, or the first of refusals 11 to 16 that applies.
pub fn free_place(f: Frame, s: Survey, q: Request) -> Result<usize, OfferRefusal>
    requires { name_in_range q.name ≡ true }
    ensures checks { answered offer_number result ≡ refusal (offer_checks_but s.taken (is_none s.free) f q) }
    ensures place { IfOk result (λ p. s.free ≡ Some p) }
{
    if s.taken {
        return Err(OfferRefusal::StreamHeld);
    }
    kind_checks::check_fields(q, f)?;
    s.free.ok_or(OfferRefusal::TableFull)
}
