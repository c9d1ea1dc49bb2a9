// Beacons: document 01, "Where each refusal is checked", `beacon`, and "One beacon". The plan of the interval is written to lent memory;
// the call by value gives back the table after it, and a caller that changes its table in its place moves it on itself.
#![tactic(auto)]

ghost use Rattle.std.specs.Prelude.{◌≡◌};
ghost use Rattle.std.specs.Result.{result_unwrap_or};
ghost use Rattle.spec_model.specs.Answers.{answered};
ghost use Rattle.spec_model.specs.Numbers.{beacon_number};
ghost use Rattle.spec_rules.specs.Calls.{beacon};
ghost use Rattle.spec_rules.specs.WellFormed.{WellFormed};
ghost use Rattle.call_beacon.specs.Moves.{Moves, nothing_planned};

use beacon_share::Shares;
use spec_model::{BeaconRefusal, Table};

// What an interval sends besides the plan, and leaves behind.
#[derive(Clone, Copy)]
pub struct Beaconing {
    pub count: usize,
    pub table: Table,
}

// A beacon but for the table after it: what each place gets, and how many places are in use. Where none is, the table stays as it is.
#[derive(Clone, Copy)]
pub struct Planned {
    pub count: usize,
    pub used: usize,
    pub shares: Shares,
}

// No record is written, and the table stays.
fn nothing_planned() -> Planned
    ensures { result ≡ nothing_planned }
{
    let shares = beacon_share::no_shares();
    Planned {
        count: 0,
        used: 0,
        shares,
    }
}

// The plan stands in the first words, so many for each record; every later word stays as it was. Refused, every word does. Where nothing is held
// there is nothing to plan.
pub fn plan_interval(t: Table, plan: &mut [u32]) -> Result<Planned, BeaconRefusal>
    requires { WellFormed t }
    ensures { let b = beacon t plan.old in let p = result_unwrap_or result nothing_planned in
        (answered beacon_number result ≡ b.answer) × ((p.count ≡ b.count) × ((plan.new ≡ b.words)
        × Moves t p.used p.shares b.table)) }
{
    if plan.len() < spec_model::PLAN_WORDS {
        return Err(BeaconRefusal::PlanTooShort);
    }
    let q = table_queue::queue_of(t);
    if q.used == 0 {
        return Ok(nothing_planned());
    }
    let frame = t.frame;
    let mut shares = beacon_share::shares_of(frame, q, true);
    if 0 < frame.header.0 {
        shares = beacon_extras::shares_after(t, q, shares);
    }
    let count = beacon_jobs::write_jobs(t, q, shares, plan);
    Ok(Planned {
        count,
        used: q.used,
        shares,
    })
}

// The plan as above, and the table an interval on. Refused, it stays as it is.
pub fn beacon(t: Table, plan: &mut [u32]) -> Result<Beaconing, BeaconRefusal>
    requires { WellFormed t }
    ensures { let b = beacon t plan.old in let r = result_unwrap_or result (record { count = 0; table = t }) in
        (answered beacon_number result ≡ b.answer) × ((r.count ≡ b.count) × ((r.table ≡ b.table) × (plan.new ≡ b.words))) }
{
    let p = plan_interval(t, plan)?;
    let count = p.count;
    if p.used == 0 {
        return Ok(Beaconing { count, table: t });
    }
    let shares = p.shares;
    let table = beacon_advance::advance(t, p.used, shares);
    Ok(Beaconing { count, table })
}
