// The figures of a table that looking ahead goes by, place by place. Times count intervals from where looking ahead begins, so that a place
// keeps its figures while it is neither served nor at its end.
#![tactic(auto)]

ghost use Rattle.std.specs.Prelude.{◌≡◌, ◌≤◌, map, replicate};
ghost use Rattle.spec_model.specs.Tables.{places};
ghost use Rattle.spec_rules.specs.WellFormed.{Tidy};
ghost use Rattle.spec_rules.specs.Share.{load_of};
ghost use Rattle.law_model.specs.Frames.{most_slots};
ghost use Rattle.table_queue.specs.Queues.{Used};
ghost use Rattle.ahead_figures.specs.Figures.{life_end, figured, figures_of};

use spec_model::{Entry, Intervals, Kind, Slots, Table};

// In a free place nothing ends.
pub const NEVER: Intervals = Intervals(4294967295);

// A rank is a place in the order of step B, at the end of the period that runs. The end is that of the period, or of the life where there
// is no period. The load is what each interval of the life takes, whoever is served. A period of kind 2 is followed by the next, which begins
// with so many slots owed; a transfer begins once.
#[derive(Clone, Copy)]
pub struct Figures {
    pub rank: u64,
    pub owed: Slots,
    pub end: Intervals,
    pub life: Intervals,
    pub load: Slots,
    pub begin: Slots,
    pub period: Intervals,
}

// The figures of a free place.
pub const FREE: Figures = Figures {
    rank: 0,
    owed: Slots(0),
    end: NEVER,
    life: Intervals(0),
    load: Slots(0),
    begin: Slots(0),
    period: Intervals(0),
};

// Where there is no period the end is that of the life, if there is one.
fn life_end(e: Entry) -> Intervals
    ensures { result.0 ≡ life_end e }
{
    if e.name.is_nobody() {
        return NEVER;
    }
    e.life_left
}

// What does not go by kind, beside what does.
fn figured(e: Entry, owed: Slots, end: Intervals, begin: Slots, period: Intervals) -> Figures
    requires { load_of e ≤ most_slots }
    ensures { result ≡ figured e owed end begin period }
{
    let load = table_entry::load_of(e) as u32;
    Figures {
        rank: table_entry::rank(e.left, e.kind, e.name),
        owed,
        end,
        life: e.life_left,
        load: Slots(load),
        begin,
        period,
    }
}

pub fn figures_of(e: Entry) -> Figures
    requires { load_of e ≤ most_slots }
    ensures { result ≡ figures_of e }
{
    match e.kind() {
        Some(Kind::Whole) => figured(e, e.owed, e.left, e.min, e.period),
        Some(Kind::Transfer) => figured(e, e.owed, e.left, Slots(0), Intervals(0)),
        _ => figured(e, Slots(0), life_end(e), Slots(0), Intervals(0)),
    }
}

// The figures of a table: those of its first places. Behind them all are free, as all were before.
pub fn read_table(t: Table, used: usize, figures: &mut [Figures; 32])
    requires tidy { Tidy t × Used used t }
    requires free { figures.old ≡ replicate places FREE }
    ensures { figures.new ≡ map figures_of t.entries }
{
    for i in 0..used {
        figures[i] = figures_of(t.entries[i]);
    }
}
