// The slot plan of one interval, by events: at time t the job chosen runs to the nearer of its end and the next release. So the work
// grows with the jobs and not with the slots. Rows stand in the order of the tie rules, one for each stream; job j of a row is
// released at j times its length. Of a row only the first unfinished job matters: its head has its number and when it is released and due,
// and changes where it ends. A turn ends a job, or comes to a release or to the end: there are at most 993 of them (specs/Turns.antt).
#![tactic(auto)]

ghost use Rattle.std.specs.Prelude.{◌≡◌, ◌++◌, None, MatchOption, position, nat_lt, ◌*◌, ◌-◌, ◌≤◌, ◌<◌, min, length, drop, set};
ghost use Rattle.spec_lists.specs.All.{All};
ghost use Rattle.spec_model.specs.Frames.{slots_in, header_in};
ghost use Rattle.spec_model.specs.Tables.{places};
ghost use Rattle.spec_rules.specs.Records.{record_words, most_records, plan_words, words_of};
ghost use Rattle.law_model.specs.Frames.{most_slots};
ghost use Rattle.plan_record.specs.Pens.{named, slots_of};
ghost use Rattle.beacon_plan.specs.Rows.{Length, Rows, row_plan};
ghost use Rattle.beacon_plan.specs.Needs.{names_of, lengths_of, needs_of, Few};
ghost use Rattle.beacon_plan.specs.Heads.{first_left};
ghost use Rattle.beacon_plan.specs.Next.{next_of};
ghost use Rattle.beacon_plan.specs.Progress.{head_of, head_need, row_of, begun, begun_rows, heads_in, chosen_from};
ghost use Rattle.beacon_plan.specs.Places.{Short, no_release};

use plan_record::{Pen, Record};
use spec_model::{Frame, Name, Slots};

// The jobs of one stream in an interval, in their order: how many, how long each is, and what each needs.
#[derive(Clone, Copy)]
pub struct JobRow {
    pub name: Name,
    pub length: Slots,
    pub count: u32,
    pub need: Slots,
}

// A row's first unfinished job: its number, and when it is released and due.
#[derive(Clone, Copy)]
struct Head {
    job: usize,
    release: Slots,
    due: Slots,
}

// How far the jobs of a row have come: what each still needs, and the first that needs something.
#[derive(Clone, Copy)]
struct Progress {
    left: [u32; 16],
    head: Head,
}

// The number of a row's first unfinished job, by what each needs.
fn first_left(left: &[u32; 16]) -> Option<usize>
    ensures number { result ≡ position (λ n. nat_lt 0 n) left.now }
    ensures within { MatchOption result Unit (λ j. j < 16) }
{
    left.iter().position(|need| 0 < *need)
}

impl Head {
    // Later than any job of an interval is due.
    const NEVER: Slots = Slots(u32::MAX);

    // Where no job is left: a seventeenth, never released. With an Option each turn would test one more thing of each row, and a job that runs
    // would first have to be found there again, with a branch that never runs.
    const NONE: Head = Head {
        job: 16,
        release: Self::NEVER,
        due: Self::NEVER,
    };

    // That of jobs of one length, by what they need.
    fn of(job_length: Slots, left: &[u32; 16]) -> Head
        requires { job_length.0 ≤ most_slots }
        ensures { result ≡ head_of job_length.0 left.now }
    {
        let Some(job) = first_left(left) else {
            return Head::NONE;
        };
        let release = (job as u32) * job_length.0;
        Head {
            job,
            release: Slots(release),
            due: Slots(release + job_length.0),
        }
    }
}

impl JobRow {
    // None of its jobs has run.
    fn begin(self) -> Progress
        requires { (self.count ≤ 16) × (self.length.0 ≤ most_slots) }
        ensures { result ≡ begun self }
    {
        let mut left = [0u32; 16];
        left[..self.count as usize].fill(self.need.0);
        let head = Head::of(self.length, &left);
        Progress { left, head }
    }
}

impl Progress {
    const NONE: Progress = Progress {
        left: [0; 16],
        head: Head::NONE,
    };

    // The first unfinished job of the row runs from t on for what it needs, at most to the end: its slots. Where it ends, the next of its row
    // is the first.
    fn run(&mut self, row: JobRow, t: Slots, end: Slots) -> Record
        requires sized { (row.length.0 ≤ most_slots) × ((length self.old.left ≡ 16) × (t.0 ≤ end.0)) }
        requires head { (self.old.head ≡ head_of row.length.0 self.old.left) × (1 ≤ head_need self.old.left) }
        ensures { let n = min (head_need self.old.left) (end.0 - t.0) in
            (result ≡ slots_of (named row.name (first_left self.old.left)) t.0 n)
            × (self.new ≡ row_of row.length.0 (set self.old.left (first_left self.old.left) (head_need self.old.left - n))) }
    {
        let job = self.head.job;
        let need = self.left[job];
        let n = need.min(end.0 - t.0);
        self.left[job] = need - n;
        if need == n {
            self.head = Head::of(row.length, &self.left);
        }
        Record {
            name: row.name,
            job: job as u32,
            start: t,
            length: Slots(n),
        }
    }
}

// No job of any row has run.
fn begin_rows(rows: &[JobRow], progress: &mut [Progress])
    requires few { Few rows.now × Short (lengths_of rows.now) }
    requires progress_len { length progress.old ≡ length rows.now }
    ensures { progress.new ≡ begun_rows rows.now }
{
    for (i, row) in rows.iter().enumerate() {
        progress[i] = row.begin();
    }
}

// The first release after t of any row's jobs; at most b, the end.
fn next_release(b: Slots, rows: &[JobRow], t: Slots) -> Slots
    requires { (t.0 < b.0) × ((b.0 ≤ most_slots) × All (Length b.0) (lengths_of rows.now)) }
    ensures { result.0 ≡ next_of b.0 t.0 (lengths_of rows.now) }
{
    let mut next = b.0;
    for row in rows {
        let release = (t.0 / row.length.0 + 1) * row.length.0;
        next = next.min(release);
    }
    Slots(next)
}

// The same; the one found last still is the next while it is ahead, so that it is looked for only where one has come.
fn next_after(b: Slots, rows: &[JobRow], t: Slots, next: Slots) -> Slots
    requires t_lt_b { (t.0 < b.0) × ((b.0 ≤ most_slots) × All (Length b.0) (lengths_of rows.now)) }
    requires next_value { t.0 < next.0 → next.0 ≡ next_of b.0 t.0 (lengths_of rows.now) }
    ensures { result.0 ≡ next_of b.0 t.0 (lengths_of rows.now) }
{
    if t.0 < next.0 {
        return next;
    }
    next_release(b, rows, t)
}

// The place of the job that slot t goes to: of those due first the first; none where the slot is idle.
fn choose_place(t: Slots, progress: &[Progress]) -> Option<usize>
    requires { length progress.now ≤ places }
    ensures place { result ≡ chosen_from t.0 0 None no_release (heads_in progress.now) }
    ensures within { MatchOption result Unit (λ i. i < length progress.now) }
{
    // An Option in the loop costs four beacons 13 percent more instructions.
    let mut place = spec_model::NO_PLACE;
    let mut best = Head::NEVER.0;
    for (i, row) in progress.iter().enumerate() {
        if row.head.release.0 <= t.0 && row.head.due.0 < best {
            place = i;
            best = row.head.due.0;
        }
    }
    if place < spec_model::PLACES {
        return Some(place);
    }
    None
}

// The runs from t on, as records of the plan in the first words: how many. Every later word stays as it was.
fn write_runs(f: Frame, rows: &[JobRow], progress: &mut [Progress], plan: &mut [u32]) -> usize
    requires rows { Rows (slots_in f) (names_of rows.now) (lengths_of rows.now) (needs_of rows.now)
        × ((plan_words ≤ length plan.old) × (header_in f ≤ slots_in f)) }
    requires few { Few rows.now × (progress.old ≡ begun_rows rows.now) }
    ensures { let runs = row_plan (slots_in f) (header_in f) (names_of rows.now) (lengths_of rows.now) (needs_of rows.now) in
        (result ≡ length runs) × ((result ≤ most_records) × (plan.new ≡ words_of runs ++ drop (record_words * result) plan.old)) }
{
    let b = f.slots;
    let mut pen = Pen::blank();
    let mut t = f.header;
    let mut next = Slots(0);
    while t.0 < b.0 {
        next = next_after(b, rows, t, next);
        let Some(i) = choose_place(t, progress) else {
            t = next;
            continue;
        };
        let slots = progress[i].run(rows[i], t, next);
        pen = pen.extend(plan, slots);
        t = Slots(t.0 + slots.length.0);
    }
    pen.put(plan)
}

// The same, before any job has run.
fn write_from(f: Frame, rows: &[JobRow], progress: &mut [Progress], plan: &mut [u32]) -> usize
    requires rows { Rows (slots_in f) (names_of rows.now) (lengths_of rows.now) (needs_of rows.now)
        × ((plan_words ≤ length plan.old) × (header_in f ≤ slots_in f)) }
    requires few { Few rows.now × (length progress.old ≡ length rows.now) }
    ensures { let runs = row_plan (slots_in f) (header_in f) (names_of rows.now) (lengths_of rows.now) (needs_of rows.now) in
        (result ≡ length runs) × ((result ≤ most_records) × (plan.new ≡ words_of runs ++ drop (record_words * result) plan.old)) }
{
    begin_rows(rows, progress);
    write_runs(f, rows, progress, plan)
}

// As many rows take an array of their own: that of all places has 2,560 bytes, and clearing it would cost a beacon beside few requests more
// than all its jobs.
const FEW_ROWS: usize = 8;

// The records of the plan of rows in the first words, and how many there are. Every later word stays as it was. The first slot that is given
// is the one after the header. What the jobs still need is made here, where it is used up.
pub fn write_plan(f: Frame, rows: &[JobRow], plan: &mut [u32]) -> usize
    requires rows { Rows (slots_in f) (names_of rows.now) (lengths_of rows.now) (needs_of rows.now)
        × ((plan_words ≤ length plan.old) × (header_in f ≤ slots_in f)) }
    requires few { Few rows.now }
    ensures { let runs = row_plan (slots_in f) (header_in f) (names_of rows.now) (lengths_of rows.now) (needs_of rows.now) in
        (result ≡ length runs) × ((result ≤ most_records) × (plan.new ≡ words_of runs ++ drop (record_words * result) plan.old)) }
{
    if rows.len() <= FEW_ROWS {
        let mut few = [Progress::NONE; FEW_ROWS];
        return write_from(f, rows, &mut few[..rows.len()], plan);
    }
    let mut all = [Progress::NONE; spec_model::PLACES];
    write_from(f, rows, &mut all[..rows.len()], plan)
}
