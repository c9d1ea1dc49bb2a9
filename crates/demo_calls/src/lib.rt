// The planner's calls, each with its row on standard output: the verb, the stream of an offer or withdrawal, and the answer's number;
// each record of a plan is a row `slot`. The fields are those of document 01, "Reading, lending, printing"; a row ends with a line feed.
// What is printed is no part of a contract: a program over this crate runs the proved calls, and its run is held to the rows that are
// stored beside it. What becomes of text that is printed makes no difference to the calls.
#![tactic(auto)]

ghost use Rattle.std.specs.Prelude.{◌≡◌, ◌-◌, ◌/◌, length, fold, IfOk};
ghost use Rattle.std.specs.Result.{result_unwrap_or};
ghost use Rattle.spec_rules.specs.Calls.{offered, held_answer, withdrawn, beacon};
ghost use Rattle.spec_rules.specs.Reading.{enquired, window_answer, window_part};
ghost use Rattle.spec_rules.specs.Records.{record_words};
ghost use Rattle.spec_rules.specs.Settings.{open_answer, Succeeds, opened};
ghost use Rattle.spec_model.specs.Answers.{answered};
ghost use Rattle.spec_model.specs.Entries.{free_entry};
ghost use Rattle.spec_model.specs.Numbers.{open_number, held_number, beacon_number, window_number};
ghost use Rattle.spec_model.specs.ByNumbers.{stream as named, request};
ghost use Rattle.demo_calls.specs.Asked.{asked_each};

mod planner; // planner.rt: a planner, whose table is well formed, and the calls on it

pub use planner::Planner;
use spec_model::{
    BeaconRefusal, Entry, HeldRefusal, Name, OpenRefusal, Request, Setting, Slots, WindowRefusal,
};

// What an offer asks, by its fields in their order.
pub fn request(stream: u32, kind: u32, period: u32, min: u32, max: u32, life: u32) -> Request
    ensures { result ≡ request stream kind period min max life }
{
    let name = Name { stream };
    Request {
        name,
        kind,
        period,
        min,
        max,
        life,
    }
}

// ---- rows
// The i-th record of a plan, where the plan has that many words.
fn slot_row(rt: &impl Print, plan: &[u32], i: usize) {
    if plan.len() / spec_model::RECORD_WORDS <= i {
        return;
    }
    let r = plan_record::read_record(plan, i);
    let _ = println!(rt;
        "slot,{},{},{},{},",
        r.name.stream, r.job, r.start.0, r.length.0
    );
}

// The first records of a plan, and how many they are.
pub fn slot_rows(rt: &impl Print, plan: &[u32], count: usize) -> usize
    ensures { result ≡ count }
{
    let mut shown = 0;
    for i in 0..count {
        slot_row(rt, plan, i);
        shown += 1;
    }
    shown
}

// Every field of an entry.
pub fn entry_row(rt: &impl Print, e: Entry) {
    let _ = println!(rt;
        "entry,{},{},{},{},{},{},{},{},{},{},{}",
        e.name.stream,
        e.kind,
        e.parts,
        e.period.0,
        e.min.0,
        e.max.0,
        e.life.0,
        e.life_left.0,
        e.owed.0,
        e.given.0,
        e.left.0
    );
}

// ---- the calls, each with its rows
impl Planner {
    pub fn show_open(rt: &impl Print, s: Setting) -> Result<Planner, OpenRefusal>
        ensures answer { answered open_number result ≡ open_answer s }
        ensures table { IfOk result (λ t. t ≡ opened s) }
    {
        let opening = Planner::open(s);
        let answer = call_answers::answer_number(&opening);
        let _ = println!(rt; "open,,,,,{answer}");
        opening
    }

    // An opening that succeeds.
    pub fn show_opened(rt: &impl Print, s: Setting) -> Planner
        requires { Succeeds s }
        ensures { result ≡ opened s }
    {
        Planner::show_open(rt, s).unwrap()
    }

    pub fn show_offer(&mut self, rt: &impl Print, q: Request)
        ensures { self.new ≡ offered self.old q }
    {
        let answer = call_answers::answer_number(&self.offer(q));
        let _ = println!(rt; "offer,{},,,,{answer}", q.name.stream);
    }

    // One offer after the other.
    pub fn show_offers(&mut self, rt: &impl Print, asked: &[Request])
        ensures { self.new ≡ fold offered self.old asked.now }
    {
        for q in asked {
            self.show_offer(rt, *q);
        }
    }

    // The streams from q's to just before the end each offer what q asks.
    pub fn show_offer_each(&mut self, rt: &impl Print, q: Request, end: u32)
        ensures { self.new ≡ fold offered self.old (asked_each q (end - q.name.stream)) }
    {
        for stream in q.name.stream..end {
            self.show_offer(
                rt,
                Request {
                    name: Name { stream },
                    ..q
                },
            );
        }
    }

    pub fn show_withdraw(&mut self, rt: &impl Print, stream: u32)
        ensures { self.new ≡ withdrawn self.old (named stream) }
    {
        let answer = call_answers::answer_number(&self.withdraw(stream));
        let _ = println!(rt; "withdraw,{stream},,,,{answer}");
    }

    // The entry that is shown: refused, the free one.
    pub fn show_enquire(&self, rt: &impl Print, stream: u32) -> Result<Entry, HeldRefusal>
        ensures { let n = named stream in
            (answered held_number result ≡ held_answer self.now n) × (result_unwrap_or result free_entry ≡ enquired self.now n) }
    {
        let found = self.enquire(stream);
        let answer = call_answers::answer_number(&found);
        let _ = println!(rt; "enquire,{stream},,,,{answer}");
        entry_row(rt, found.unwrap_or(spec_model::free_entry()));
        found
    }

    // The answer alone, and how many records the plan has: none where the beacon is refused.
    pub fn show_beacon(&mut self, rt: &impl Print, plan: &mut [u32]) -> Result<usize, BeaconRefusal>
        ensures { let b = beacon self.old plan.old in
            (answered beacon_number result ≡ b.answer) × ((result_unwrap_or result 0 ≡ b.count)
            × ((self.new ≡ b.table) × (plan.new ≡ b.words))) }
    {
        let sent = self.beacon(plan);
        let answer = call_answers::answer_number(&sent);
        let _ = println!(rt; "beacon,,,,,{answer}");
        sent
    }

    // The answer, and every record of the plan.
    pub fn show_plan(&mut self, rt: &impl Print, plan: &mut [u32])
        ensures { let b = beacon self.old plan.old in (self.new ≡ b.table) × (plan.new ≡ b.words) }
    {
        let sent = self.show_beacon(rt, plan);
        slot_rows(rt, plan, sent.unwrap_or(0));
    }
}

// The answer, and every record of the part that the window lends: how many they are.
pub fn window(
    rt: &impl Print,
    plan: &[u32],
    count: usize,
    from: Slots,
    until: Slots,
) -> Result<usize, WindowRefusal>
    ensures { let words = plan.now in let a = from.0 in let b = until.0 in
        (answered window_number result ≡ window_answer words count a b)
        × (result_unwrap_or result 0 ≡ length (window_part words count a b) / record_words) }
{
    let part = plan_window::window(plan, count, from, until);
    let answer = call_answers::answer_number(&part);
    let _ = println!(rt; "window,,,,,{answer}");
    let words = part?;
    Ok(slot_rows(rt, words, words.len() / spec_model::RECORD_WORDS))
}
