// The table after an interval: step F of document 01, "One beacon", first of one entry, then of all.
#![tactic(auto)]

ghost use Rattle.std.specs.Prelude.{◌≡◌};
ghost use Rattle.spec_rules.specs.Ahead.{passed, renewed, settled};
ghost use Rattle.beacon_advance.specs.Moving.{WithinAmounts, after_grant, Movable, moved_by};

use beacon_share::{Granted, Shares};
use spec_model::{Entry, Intervals, Kind, Slots, Table};

// Owed falls by its piece, given grows by its piece and its extra, life and intervals left fall by one; kind 1 has a life alone.
// What was given stays within the amounts of the request, so it has 32 bits.
#[tactic(auto, unfolding(spec_rules::specs::Ahead::passed))]
fn passed(e: Entry, g: Granted) -> Entry
    requires { WithinAmounts g e }
    ensures { result ≡ passed g.piece.0 g.extra.0 e }
{
    let life_left = Intervals(e.life_left.0.saturating_sub(1));
    match e.kind() {
        Some(Kind::Fraction) => Entry {
            life_left,
            owed: Slots(0),
            given: Slots(0),
            left: Intervals(0),
            ..e
        },
        _ => Entry {
            life_left,
            owed: Slots(e.owed.0.saturating_sub(g.piece.0)),
            given: Slots(e.given.0 + g.piece.0 + g.extra.0),
            left: Intervals(e.left.0.saturating_sub(1)),
            ..e
        },
    }
}

// The next period begins.
#[tactic(auto, unfolding(spec_rules::specs::Ahead::renewed))]
fn renewed(e: Entry) -> Entry
    ensures { result ≡ renewed e }
{
    Entry {
        owed: e.min,
        given: Slots(0),
        left: e.period,
        ..e
    }
}

// An entry with life 0 leaves; a kind 2 entry with 0 intervals left begins its next period.
#[tactic(auto, unfolding(spec_rules::specs::Ahead::settled))]
fn settled(e: Entry) -> Entry
    ensures { result ≡ settled e }
{
    if e.life_left.0 == 0 {
        return spec_model::free_entry();
    }
    match e.kind() {
        Some(Kind::Whole) if e.left.0 == 0 => renewed(e),
        _ => e,
    }
}

pub fn after_grant(e: Entry, g: Granted) -> Entry
    requires { WithinAmounts g e }
    ensures { result ≡ after_grant g e }
{
    settled(passed(e, g))
}

// The table by what each place is given, whoever planned it: for the table's own shares it is step F's (Next.moved_shares). The loop stops after
// the last place that is held: a free place stays free. It reads each entry where it writes the next one, so that one copy of the table is
// made, not two.
pub fn advance(t: Table, used: usize, s: Shares) -> Table
    requires { Movable t used s }
    ensures { result ≡ moved_by s t }
{
    let mut next = t;
    for (i, grant) in s.grants[..used].iter().enumerate() {
        next.entries[i] = after_grant(next.entries[i], *grant);
    }
    next
}
