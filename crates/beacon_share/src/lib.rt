// What each request gets of an interval: steps B and C of document 01, "One beacon", over a table's claims. Nothing here sorts: what is owed
// at lower ranks is added up, place by place. The loops stop after the last place that is held.
#![tactic(auto)]

ghost use Rattle.std.specs.Prelude.{◌≡◌, ◌-◌, ◌≤◌, length};
ghost use Rattle.spec_lists.specs.All.{All};
ghost use Rattle.spec_model.specs.Tables.{places};
ghost use Rattle.spec_rules.specs.Share.{extra};
ghost use Rattle.table_queue.specs.Claims.{ranks_in, owed_in, jobs_of};
ghost use Rattle.table_queue.specs.Queues.{owed_below, piece_of, Bounded};
ghost use Rattle.beacon_share.specs.Shares.{shares_by, no_shares};
ghost use Rattle.beacon_share.specs.InUse.{limit_among, pieces_by, weight_of, grants_to};

use spec_model::{Frame, Slots};
use table_queue::{Claim, Queue};

// Slots less what is taken of them, and 0 where that is more.
pub fn left_of(slots: Slots, taken: u64) -> Slots
    ensures { result.0 ≡ slots.0 - taken }
{
    Slots((slots.0 as u64).saturating_sub(taken) as u32)
}

// The part of what remains is no more than the headroom, so it has 32 bits as well.
pub fn extra(remains: Slots, weight: u64, headroom: Slots) -> Slots
    ensures { result.0 ≡ extra remains.0 weight headroom.0 }
{
    let rest = remains.0 as u64;
    let room = headroom.0 as u64;
    if rest == 0 {
        return Slots(0);
    }
    if weight <= rest {
        return headroom;
    }
    let part = room * rest / weight;
    Slots(part as u32)
}

// ---- B. kinds 2 and 3 take what they are owed
// What is owed at lower ranks than one's own.
fn owed_below(claims: &[Claim], own: u64) -> u64
    requires { length claims.now ≤ places }
    ensures { result ≡ owed_below own (ranks_in claims.now) (owed_in claims.now) }
{
    let mut all: u64 = 0;
    for claim in claims {
        let sooner = claim.rank < own;
        if sooner {
            all += claim.owed.0 as u64;
        }
    }
    all
}

// The smaller of what is owed at a place and what lower ranks leave. Where nothing is owed the others are not looked at.
fn piece_of(own: &Claim, claims: &[Claim], capacity: Slots) -> Slots
    requires { length claims.now ≤ places }
    ensures { result.0 ≡ piece_of capacity.0 (ranks_in claims.now) (owed_in claims.now) own.now.rank own.now.owed.0 }
{
    if own.owed.0 == 0 {
        return Slots(0);
    }
    let rest = left_of(capacity, owed_below(claims, own.rank));
    Slots(own.owed.0.min(rest.0))
}

// For a tidy table's claims these are the slots of step B, place by place: InUse.pieces_same, Queues.pieces_right.
fn pieces(claims: &[Claim], capacity: Slots) -> [Slots; 32]
    requires { length claims.now ≤ places }
    ensures { result ≡ pieces_by capacity.0 claims.now }
{
    let mut pieces = [Slots(0); spec_model::PLACES];
    for (i, own) in claims.iter().enumerate() {
        pieces[i] = piece_of(own, claims, capacity);
    }
    pieces
}

// ---- C. what remains is shared in proportion
// The figures by which an interval is shared: E, L and W, and whether kind 1 takes part.
#[derive(Clone, Copy)]
pub struct Sharing {
    pub capacity: Slots,
    pub remains: Slots,
    pub weight: u64,
    pub fractions: bool,
}

// What a place may still get after its piece. In a sharing over pieces alone kind 1, who has more than one job, takes no part.
fn room_of(claim: &Claim, fractions: bool, piece: Slots) -> Slots
    ensures { result.0 ≡ limit_among fractions claim.now.jobs claim.now.limit.0 - piece.0 }
{
    if fractions || claim.jobs < 2 {
        Slots(claim.limit.0.saturating_sub(piece.0))
    } else {
        Slots(0)
    }
}

// W.
fn whole_weight(claims: &[Claim], fractions: bool, pieces: &[Slots; 32]) -> u64
    requires { (length claims.now ≤ places) × All (λ m. m ≤ 16) (jobs_of claims.now) }
    ensures { result ≡ weight_of fractions claims.now pieces.now }
{
    let mut weight: u64 = 0;
    for (i, claim) in claims.iter().enumerate() {
        let room = room_of(claim, fractions, pieces[i]);
        weight += (claim.jobs as u64) * (room.0 as u64);
    }
    weight
}

// What one place gets: its slots of step B, and its extra, which for kind 1 goes to each of its jobs.
#[derive(Clone, Copy)]
pub struct Granted {
    pub piece: Slots,
    pub extra: Slots,
}

const NOTHING: Granted = Granted {
    piece: Slots(0),
    extra: Slots(0),
};

fn grants_of(claims: &[Claim], pieces: &[Slots; 32], s: Sharing) -> [Granted; 32]
    requires { length claims.now ≤ places }
    ensures { result ≡ grants_to s claims.now pieces.now }
{
    let mut grants = [NOTHING; spec_model::PLACES];
    for (i, claim) in claims.iter().enumerate() {
        let piece = pieces[i];
        let room = room_of(claim, s.fractions, piece);
        grants[i] = Granted {
            piece,
            extra: extra(s.remains, s.weight, room),
        };
    }
    grants
}

// What each place gets.
#[derive(Clone, Copy)]
pub struct Shares {
    pub grants: [Granted; 32],
}

// Nothing for any place. By its own name, which says more than a default would.
pub fn no_shares() -> Shares
    ensures { result ≡ no_shares }
{
    Shares {
        grants: [NOTHING; spec_model::PLACES],
    }
}

// For a tidy table's queue these are its slots of steps B and C, where kind 1 takes part or not: Shares.shares_right. Step B gives all that is
// owed, or the whole capacity: what remains is the capacity less all that is owed.
pub fn shares_of(f: Frame, q: Queue, fractions: bool) -> Shares
    requires { Bounded q }
    ensures { result ≡ shares_by f fractions q }
{
    let claims = &q.claims[..q.used];
    let capacity = left_of(spec_model::room_in(f), q.load);
    let pieces = pieces(claims, capacity);
    let remains = left_of(capacity, owed_below(claims, u64::MAX));
    let weight = whole_weight(claims, fractions, &pieces);
    let s = Sharing {
        capacity,
        remains,
        weight,
        fractions,
    };
    Shares {
        grants: grants_of(claims, &pieces, s),
    }
}
