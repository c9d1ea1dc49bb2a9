// A record of a plan, as words of lent memory: one function writes its words, one reads them back. In code only these two know which word is
// which. And the pen, which writes runs as records: slots of one job, one after the other, are one. Document 01, "One beacon", step E.
#![tactic(auto)]

ghost use Rattle.std.specs.Prelude.{◌≡◌, [], ◌∷◌, ◌+◌, ◌*◌, ◌≤◌, Some, length, drop};
ghost use Rattle.spec_rules.specs.Records.{record_words, record_at};
ghost use Rattle.law_model.specs.Frames.{most_slots};
ghost use Rattle.plan_record.specs.Recorded.{run_of, recorded};
ghost use Rattle.plan_record.specs.Starts.{start_at};
ghost use Rattle.plan_record.specs.Pens.{blank, owner, open_run, begun, end_of, grows, closed, extended};

use spec_model::{Name, Slots};

// Where each word of a record stands.
const STREAM_WORD: usize = 0;

const JOB_WORD: usize = 1;

const START_WORD: usize = 2;

const LENGTH_WORD: usize = 3;

// Slots of one job, from a start on.
#[derive(Clone, Copy)]
pub struct Record {
    pub name: Name,
    pub job: u32,
    pub start: Slots,
    pub length: Slots,
}

impl Record {
    // The slots that follow are of its job, and the first of them is the one after its last.
    #[tactic(auto, using(law_model::specs::Names::same_streams), unfolding(crate::specs::Pens::grows))]
    fn grows(self, slots: Record) -> bool
        requires { end_of (Some self) ≤ slots.start.0 }
        ensures { result ≡ grows (Some self) (owner slots) slots.start.0 }
    {
        slots.name == self.name
            && slots.job == self.job
            && slots.start.0 == self.start.0 + self.length.0
    }

    // The run that slots begin: none where there are none.
    fn begun(self) -> Option<Record>
        ensures { result ≡ begun self }
    {
        if self.length.0 == 0 {
            return None;
        }
        Some(self)
    }
}

// The n-th record of a plan; every other word stays as it was.
pub fn write_record(plan: &mut [u32], n: usize, r: Record)
    requires { record_words * (n + 1) ≤ length plan.old }
    ensures { plan.new ≡ recorded n (run_of r ∷ []) plan.old }
{
    let at = spec_model::RECORD_WORDS * n;
    plan[at + STREAM_WORD] = r.name.stream;
    plan[at + JOB_WORD] = r.job;
    plan[at + START_WORD] = r.start.0;
    plan[at + LENGTH_WORD] = r.length.0;
}

pub fn read_record(plan: &[u32], n: usize) -> Record
    requires { record_words * (n + 1) ≤ length plan.now }
    ensures { run_of result ≡ record_at (drop (record_words * n) plan.now) }
{
    let at = spec_model::RECORD_WORDS * n;
    let stream = plan[at + STREAM_WORD];
    let job = plan[at + JOB_WORD];
    let start = plan[at + START_WORD];
    let length = plan[at + LENGTH_WORD];
    Record {
        name: Name { stream },
        job,
        start: Slots(start),
        length: Slots(length),
    }
}

// Where the n-th record starts.
pub fn start_of(plan: &[u32], n: usize) -> Slots
    requires { record_words * (n + 1) ≤ length plan.now }
    ensures { result.0 ≡ start_at plan.now n }
{
    let r = read_record(plan, n);
    r.start
}

// How many records are written, and the run that may still grow: none where it has no slots. `Record::begun` gives none there.
#[derive(Clone, Copy)]
pub struct Pen {
    pub count: usize,
    pub run: Option<Record>,
}

impl Pen {
    // No record yet, and no run.
    pub fn blank() -> Pen
        ensures { result ≡ blank }
    {
        Pen {
            count: 0,
            run: None,
        }
    }

    // The run that may still grow is written; how many records there are then.
    pub fn put(self, plan: &mut [u32]) -> usize
        requires { record_words * (self.count + 1) ≤ length plan.old }
        ensures { (result ≡ self.count + length (open_run self))
            × (plan.new ≡ recorded self.count (open_run self) plan.old) }
    {
        let Some(run) = self.run else {
            return self.count;
        };
        if run.length.0 == 0 {
            return self.count;
        }
        write_record(plan, self.count, run);
        self.count + 1
    }

    // Slots of one job: the run grows, or it is written and another begins. Of no slots there is no run.
    pub fn extend(self, plan: &mut [u32], slots: Record) -> Pen
        requires room { (record_words * (self.count + 1) ≤ length plan.old) × (end_of self.run ≤ slots.start.0) }
        requires slots { slots.start.0 + slots.length.0 ≤ most_slots }
        ensures { (result ≡ extended self (owner slots) slots.start.0 slots.length.0)
            × (plan.new ≡ recorded self.count (closed self (owner slots) slots.start.0) plan.old) }
    {
        if let Some(run) = self.run {
            if run.grows(slots) {
                let length = Slots(run.length.0 + slots.length.0);
                return Pen {
                    count: self.count,
                    run: Some(Record { length, ..run }),
                };
            }
        }
        let count = self.put(plan);
        let run = slots.begun();
        Pen { count, run }
    }
}
