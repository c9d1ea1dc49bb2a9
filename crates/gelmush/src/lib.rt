// The calls for a host that lends its table, and for C. Document 01, "Reading, lending, printing": the host lends its table and finds
// it there as the call leaves it. A beacon copies the table, makes the call by value, and stores the table after it. An offer copies it
// for the decision by value, and stores one entry. The other calls read and write the table where it lies. An answer is the document's
// number. Each contract is an equation over what the host had at entry and has at exit.
#![tactic(auto)]

ghost use Rattle.std.specs.Prelude.{cond, ◌≡◌, eqb, length, take, drop};
ghost use Rattle.spec_rules.specs.Calls.{offer_answer, offered, held_answer, withdrawn, beacon};
ghost use Rattle.spec_rules.specs.Reading.{enquired, window_answer, window_part};
ghost use Rattle.spec_rules.specs.Settings.{open_answer, opened};
ghost use Rattle.spec_rules.specs.WellFormed.{WellFormed};
ghost use Rattle.spec_model.specs.ByNumbers.{stream as named, setting, request};

use call_answers::Refusal;
use spec_model::{Entry, HeldRefusal, Name, Request, Setting, Slots, Table};

// ---- what the calls give back: C has no Result, so the number of the answer stands beside what is given
// What a beacon sends besides the plan: its answer and its record count.
#[repr(C)]
#[derive(Clone, Copy)]
pub struct Sent {
    pub answer: u32,
    pub count: usize,
}

#[repr(C)]
#[derive(Clone, Copy)]
pub struct Found {
    pub answer: u32,
    pub entry: Entry,
}

// ---- the calls on a lent table
#[unsafe(no_mangle)]
pub extern "C" fn gelmush_beacon(table: &mut Table, plan: &mut [u32]) -> Sent
    requires { WellFormed table.old }
    ensures { let b = beacon table.old plan.old in
        (result.answer ≡ b.answer) × (result.count ≡ b.count) × (table.new ≡ b.table) × (plan.new ≡ b.words) }
{
    let sent = call_beacon::beacon(*table, plan);
    let answer = call_answers::answer_number(&sent);
    match sent {
        Ok(b) => {
            *table = b.table;
            Sent {
                answer,
                count: b.count,
            }
        }
        Err(_) => Sent { answer, count: 0 },
    }
}

#[unsafe(no_mangle)]
pub extern "C" fn gelmush_offer(
    table: &mut Table,
    stream: u32,
    kind: u32,
    period: u32,
    min: u32,
    max: u32,
    life: u32,
) -> u32
    requires { WellFormed table.old }
    ensures { let t = table.old in let q = request stream kind period min max life in
        (result ≡ offer_answer t q) × (table.new ≡ offered t q) }
{
    let name = Name { stream };
    let q = Request {
        name,
        kind,
        period,
        min,
        max,
        life,
    };
    let decision = call_offer::decide(*table, q);
    // A refused offer puts nothing in the table.
    if let Ok(placed) = decision {
        table.entries[placed.place] = placed.entry;
    }
    call_answers::answer_number(&decision)
}

#[unsafe(no_mangle)]
pub extern "C" fn gelmush_withdraw(table: &mut Table, stream: u32) -> u32
    requires { WellFormed table.old }
    ensures { let t = table.old in let n = named stream in (result ≡ held_answer t n) × (table.new ≡ withdrawn t n) }
{
    let name = Name { stream };
    let place = table_places::place_of(&table.entries, name);
    match place {
        Some(at) => {
            table.entries[at] = spec_model::free_entry();
            call_answers::DONE
        }
        None => HeldRefusal::NotHeld.number(),
    }
}

// Asks nothing of what lies in the table's place. Refused, it lies there still.
#[unsafe(no_mangle)]
pub extern "C" fn gelmush_open(table: &mut Table, units: u32, header: u32) -> u32
    ensures { let s = setting units header in let a = open_answer s in
        (result ≡ a) × (table.new ≡ cond (eqb a 0) (opened s) table.old) }
{
    let s = Setting { units, header };
    let opening = call_open::open(s);
    if let Ok(opened) = opening {
        *table = opened;
    }
    call_answers::answer_number(&opening)
}

#[unsafe(no_mangle)]
pub extern "C" fn gelmush_enquire(table: &Table, stream: u32) -> Found
    requires { WellFormed table.now }
    ensures { let t = table.now in let n = named stream in (result.answer ≡ held_answer t n) × (result.entry ≡ enquired t n) }
{
    let name = Name { stream };
    match table_places::place_of(&table.entries, name) {
        Some(place) => Found {
            answer: call_answers::DONE,
            entry: table.entries[place],
        },
        None => Found {
            answer: HeldRefusal::NotHeld.number(),
            entry: spec_model::free_entry(),
        },
    }
}

// ---- a window
// A part of a plan: so many words, from the first on.
#[repr(C)]
#[derive(Clone, Copy)]
pub struct Place {
    pub first: usize,
    pub words: usize,
}

// The part's place in the plan, since no reference goes back to C. As many words precede it as the window of all earlier slots has.
#[unsafe(no_mangle)]
pub extern "C" fn gelmush_window(
    plan: &[u32],
    count: usize,
    from: u32,
    until: u32,
    answer: &mut u32,
) -> Place
    ensures { let ws = plan.now in
        (take result.words (drop result.first ws) ≡ window_part ws count from until)
        × (result.first ≡ length (window_part ws count 0 from))
        × (result.words ≡ length (window_part ws count from until))
        × (answer.new ≡ window_answer ws count from until) }
{
    let bounds = plan_window::bounds_of(plan, count, Slots(from), Slots(until));
    *answer = call_answers::answer_number(&bounds);
    let b = bounds.unwrap_or(plan_window::NO_RECORDS);
    let mut first = spec_model::RECORD_WORDS * b.first;
    // The window of all earlier slots is looked at only where it may be given while this one is refused.
    if until < from {
        let bounds = plan_window::bounds_of(plan, count, Slots(0), Slots(from));
        let earlier = bounds.unwrap_or(plan_window::NO_RECORDS);
        first = spec_model::RECORD_WORDS * earlier.end;
    }
    let words = spec_model::RECORD_WORDS * (b.end - b.first);
    Place { first, words }
}
