// Units, an offer's fields as they came, and the table that holds requests. Document 01, "Units and one request"; document 02,
// No. 1.
#![tactic(auto)]

ghost use Rattle.std.specs.Prelude.{◌≡◌, ◌≤◌};
ghost use Rattle.spec_model.specs.Answers.{answered, offer_number};
ghost use Rattle.spec_model.specs.Entries.{free_entry};
ghost use Rattle.spec_model.specs.Frames.{room_in};
ghost use Rattle.spec_model.specs.Names.{is_nobody, name_in_range, name_rank, name_top};
ghost use Rattle.spec_model.specs.Requests.{refusal, in_order, range_checks};

mod kind;

pub use kind::{Kind, UnknownKind};

// Counts of slots and counts of beacon intervals are different units: no sum takes one of each.
#[repr(C)]
#[derive(Clone, Copy)]
pub struct Slots(pub u32);

#[repr(C)]
#[derive(Clone, Copy)]
pub struct Intervals(pub u32);

// ---- sizes, each by its own name
// The places of a table, and what stands for none of them.
pub const PLACES: usize = 32;

pub const NO_PLACE: usize = 32;

// The slots of a time unit.
pub const UNIT_SLOTS: u32 = 1024;

// The words of a record, the most records of a plan, and the words of both.
pub const RECORD_WORDS: usize = 4;

pub const MOST_RECORDS: usize = 1024;

pub const PLAN_WORDS: usize = RECORD_WORDS * MOST_RECORDS;

// ---- what an opening is told, any numbers
#[derive(Clone, Copy)]
pub struct Setting {
    pub units: u32,
    pub header: u32,
}

// ---- what an interval is: handed on whole, and read by the names of specs/Frames.antt
#[repr(C)]
#[derive(Clone, Copy)]
pub struct Frame {
    pub slots: Slots,
    pub header: Slots,
}

#[tactic(auto, unfolding(crate::specs::Frames::room_in))]
pub fn room_in(f: Frame) -> Slots
    ensures { result.0 ≡ room_in f }
{
    Slots(f.slots.0.saturating_sub(f.header.0))
}

// ---- the name of a request, told apart by `==` and ordered by the function here alone
#[repr(C)]
#[derive(Clone, Copy, PartialEq, Eq)]
pub struct Name {
    pub stream: u32,
}

impl Name {
    pub const STREAM_LEAST: u32 = 1;

    pub const STREAM_LARGEST: u32 = 65535;

    #[tactic(auto, unfolding(crate::specs::Names::name_in_range))]
    pub fn in_range(self) -> bool
        ensures { result ≡ name_in_range self }
    {
        base_numbers::is_within(Self::STREAM_LEAST, Self::STREAM_LARGEST, self.stream)
    }

    // The name of a free place.
    pub fn is_nobody(self) -> bool
        ensures { result ≡ is_nobody self }
    {
        self.stream == 0
    }
}

// The lower of two names in range has the lower number; of any name it leaves room in 64 bits.
#[tactic(auto, unfolding(crate::specs::Names::name_rank))]
pub fn name_rank(name: Name) -> u64
    ensures { (result ≡ name_rank name) × (result ≤ name_top) }
{
    name.stream as u64
}

// Room for that number of a name in range.
pub const NAME_ROOM: u64 = 65536;

// ---- refusals
// What an offer is refused for. Of several the first is answered, in the order here.
#[derive(Clone, Copy, PartialEq, Eq, Debug)]
pub enum OfferRefusal {
    StreamOutside,
    StreamHeld,
    KindUnknown,
    PeriodOutside,
    AmountsOutside,
    LifeOutside,
    TableFull,
    NoTime,
}

// What the other calls are refused for.
#[derive(Clone, Copy, PartialEq, Eq, Debug)]
pub enum OpenRefusal {
    UnitsOutside,
    HeaderOutside,
}

// A withdrawal and an enquiry.
#[derive(Clone, Copy, PartialEq, Eq, Debug)]
pub enum HeldRefusal {
    NotHeld,
}

#[derive(Clone, Copy, PartialEq, Eq, Debug)]
pub enum BeaconRefusal {
    PlanTooShort,
}

// A window: more records than the words lent have, slots in the wrong order, starts that do not strictly rise.
#[derive(Clone, Copy, PartialEq, Eq, Debug)]
pub enum WindowRefusal {
    TooManyRecords,
    FromAfterUntil,
    StartsNotRising,
}

// An offer's six fields as they came: any numbers.
#[derive(Clone, Copy)]
pub struct Request {
    pub name: Name,
    pub kind: u32,
    pub period: u32,
    pub min: u32,
    pub max: u32,
    pub life: u32,
}

// ---- what every kind checks
// A minimum of at least the lowest, and a maximum from there to the largest.
pub fn amounts_in_order(lowest: u32, min: Slots, max: Slots, largest: u64) -> bool
    ensures { result ≡ in_order lowest min.0 max.0 largest }
{
    let least = min.0;
    let most = max.0;
    lowest <= least && least <= most && (most as u64) <= largest
}

// The first of three ranges that a field is outside of.
#[tactic(auto, unfolding(crate::specs::Requests::refusal))]
pub fn first_outside(period: bool, amounts: bool, life: bool) -> Result<(), OfferRefusal>
    ensures { answered offer_number result ≡ refusal (range_checks period amounts life) }
{
    if !period {
        return Err(OfferRefusal::PeriodOutside);
    }
    if !amounts {
        return Err(OfferRefusal::AmountsOutside);
    }
    if !life {
        return Err(OfferRefusal::LifeOutside);
    }
    Ok(())
}

// ---- the table
// A held request, or a free place, which is all zero. The period field of an offer is parts for kind 1, period for the others.
// life_left counts the intervals still to come. Kinds 2 and 3 also have the slots owed for the minimum, the slots given in this
// period, and the intervals left to its deadline.
#[repr(C)]
#[derive(Clone, Copy)]
pub struct Entry {
    pub name: Name,
    pub kind: u32,
    pub parts: u32,
    pub period: Intervals,
    pub min: Slots,
    pub max: Slots,
    pub life: Intervals,
    pub life_left: Intervals,
    pub owed: Slots,
    pub given: Slots,
    pub left: Intervals,
}

// The planner's whole state: what an interval is, and 32 places.
#[repr(C)]
#[derive(Clone, Copy)]
pub struct Table {
    pub frame: Frame,
    pub entries: [Entry; 32],
}

pub fn free_entry() -> Entry
    ensures { result ≡ free_entry }
{
    Entry {
        name: Name { stream: 0 },
        kind: 0,
        parts: 0,
        period: Intervals(0),
        min: Slots(0),
        max: Slots(0),
        life: Intervals(0),
        life_left: Intervals(0),
        owed: Slots(0),
        given: Slots(0),
        left: Intervals(0),
    }
}
