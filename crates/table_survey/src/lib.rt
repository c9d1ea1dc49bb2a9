// What an offer asks of a table's places before looking ahead: whether the stream is held, the first free place, what an even share of each
// interval takes, and the last place in use. One pass finds all of it, since each function that reads the places has a copy of the table.
#![tactic(auto)]

ghost use Rattle.std.specs.Prelude.{true, ◌≡◌, ◌+◌, ◌*◌, ◌≤◌, ◌<◌, leb};
ghost use Rattle.spec_lists.specs.Lists.{sum_of};
ghost use Rattle.base_lists.specs.First.{first_of};
ghost use Rattle.spec_model.specs.Tables.{places};
ghost use Rattle.spec_model.specs.Frames.{room_in};
ghost use Rattle.spec_rules.specs.Calls.{holds};
ghost use Rattle.spec_rules.specs.WellFormed.{Tidy};
ghost use Rattle.spec_rules.specs.Share.{load_of};
ghost use Rattle.law_model.specs.Frames.{most_slots};
ghost use Rattle.table_places.specs.Search.{found};
ghost use Rattle.table_queue.specs.Queues.{Used};
ghost use Rattle.ahead_even.specs.Need.{even_need};
ghost use Rattle.table_survey.specs.Free.{is_free};
ghost use Rattle.table_survey.specs.Passes.{with_entry, most_need};

use spec_model::{Entry, Frame, Name, Table};

// Whether the name is held; the first free place, if there is one; the slots of an interval that an even share takes; one more
// than the last held place, 0 where none is held.
#[derive(Clone, Copy)]
pub struct Survey {
    pub taken: bool,
    pub free: Option<usize>,
    pub needed: u64,
    pub used: usize,
}

// One place more: a free one is the first, or adds nothing.
fn look_at(s: Survey, e: Entry, i: usize, name: Name) -> Survey
    requires i_lt_places { (i < places) × (s.needed ≤ most_need * i) }
    requires e_bound { (load_of e ≤ most_slots) × (is_free e ≡ true → even_need e ≡ 0) }
    ensures { (result ≡ with_entry name i e s) × (result.needed ≤ most_need * (i + 1)) }
{
    if e.name.is_nobody() {
        return Survey {
            free: s.free.or(Some(i)),
            ..s
        };
    }
    let need = ahead_even::need_of(e);
    Survey {
        taken: s.taken | (e.name == name),
        needed: s.needed + need,
        used: i + 1,
        ..s
    }
}

pub fn survey_for(t: Table, name: Name) -> Survey
    requires { Tidy t }
    ensures { (result.taken ≡ holds t name) × (result.free ≡ found places (first_of is_free t.entries)) × (result.needed ≡ sum_of even_need t.entries)
        × Used result.used t }
{
    let mut s = Survey {
        taken: false,
        free: None,
        needed: 0,
        used: 0,
    };
    for i in 0..spec_model::PLACES {
        let e = t.entries[i];
        s = look_at(s, e, i, name);
    }
    s
}

// ---- a quick yes
// Whether an interval has room for an even share of what is held and of one entry more. Where it has not, the answer is still open.
pub fn fits_with(needed: u64, e: Entry, f: Frame) -> bool
    ensures { result ≡ leb (needed + even_need e) (room_in f) }
{
    let slots = spec_model::room_in(f).0 as u64;
    if slots < needed {
        return false;
    }
    ahead_even::need_of(e) <= slots - needed
}
