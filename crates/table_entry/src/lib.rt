// Amounts of one entry of a table by document 01, "One beacon", steps A to C: its jobs, its load, its rank, what it is owed and what it
// may still get.
#![tactic(auto)]

ghost use Rattle.std.specs.Prelude.{◌≡◌, ◌+◌, ◌*◌};
ghost use Rattle.spec_model.specs.Entries.{is_piece};
ghost use Rattle.spec_model.specs.Names.{name_rank, name_room};
ghost use Rattle.spec_rules.specs.Share.{job_count, load_of};
ghost use Rattle.spec_rules.specs.Slots.{job_length};
ghost use Rattle.law_steps.specs.Ranks.{kind_room};
ghost use Rattle.table_entry.specs.Amounts.{owed_to, limit_of};

use spec_model::{Entry, Frame, Intervals, Kind, Name, Slots};

// ---- the jobs of an entry in an interval: m for kind 1, one piece for the others
pub fn job_count(e: Entry) -> u32
    ensures { result ≡ job_count e }
{
    match e.kind() {
        Some(Kind::Fraction) => e.parts,
        _ => 1,
    }
}

pub fn job_length(f: Frame, e: Entry) -> Slots
    ensures { result.0 ≡ job_length f e }
{
    match e.kind() {
        Some(Kind::Fraction) => Slots(base_numbers::part_of(f.slots.0, e.parts)),
        _ => f.slots,
    }
}

// ---- A. capacity
// What an entry takes of every interval: m times its minimum for kind 1.
#[tactic(auto, using(law_model::specs::Loads::load_of_fraction, law_model::specs::Loads::load_of_none))]
pub fn load_of(e: Entry) -> u64
    ensures { result ≡ load_of e }
{
    match e.kind() {
        Some(Kind::Fraction) => (e.parts as u64) * (e.min.0 as u64),
        _ => 0,
    }
}

// ---- B. kinds 2 and 3 take what they are owed
pub fn is_piece(e: Entry) -> bool
    ensures { result ≡ is_piece e }
{
    matches!(e.kind(), Some(Kind::Whole | Kind::Transfer))
}

// Room for a kind.
pub const KIND_ROOM: u64 = 4;

// One interval more.
pub const RANK_INTERVAL: u64 = KIND_ROOM * spec_model::NAME_ROOM;

// Fewest intervals left, then kind 2 before 3, then the lower name, as one number: the lower comes sooner. The kind is a number
// here, since the promise holds of any that C lends.
pub fn rank(left: Intervals, kind: u32, name: Name) -> u64
    ensures { result ≡ (left.0 * kind_room + kind) * name_room + name_rank name }
{
    let first = (left.0 as u64) * KIND_ROOM + (kind as u64);
    first * spec_model::NAME_ROOM + spec_model::name_rank(name)
}

pub fn owed_of(e: Entry) -> Slots
    ensures { result.0 ≡ owed_to e }
{
    if is_piece(e) { e.owed } else { Slots(0) }
}

// ---- C. what remains is shared in proportion
// What an entry may still get before its slots of step B; a transfer has no part in step C.
pub fn limit_of(e: Entry) -> Slots
    ensures { result.0 ≡ limit_of e }
{
    let most = e.max.0;
    match e.kind() {
        Some(Kind::Fraction) => Slots(most.saturating_sub(e.min.0)),
        Some(Kind::Whole) => Slots(most.saturating_sub(e.given.0)),
        _ => Slots(0),
    }
}
