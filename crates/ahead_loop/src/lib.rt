// Looking ahead: steps A, B and F in turn until every life is used up. Document 01, "Looking ahead". The header test, which holds in all
// intervals where it holds in the first, is made apart: crate header_test.
#![tactic(auto)]

ghost use Rattle.std.specs.Prelude.{◌≡◌, ◌<◌, length};
ghost use Rattle.spec_model.specs.Tables.{places, held_of, put_in};
ghost use Rattle.spec_rules.specs.WellFormed.{Tidy};
ghost use Rattle.law_ahead.specs.KeepsUp.{keeps_up_ahead};
ghost use Rattle.table_queue.specs.Queues.{Used};
ghost use Rattle.ahead_figures.specs.Arrays.{table_of};
ghost use Rattle.law_figures.specs.Looking.{Begun, Says};

use ahead_figures::Figures;
use spec_model::{Entry, Intervals, Slots, Table};

// From one end of a period or a life to the next, until nothing is left or a deadline is missed. The intervals up to an end are served as
// one: what is due there first, then what is due later, by rank. Where an even share is enough for what is left, no more is looked at. That
// is tried at a time at least twice the last, since it costs about as much as a turn. Made a part of its caller, its loops lack registers.
#[inline(never)]
fn goes_well(room: Slots, figures: &mut [Figures]) -> bool
    requires { Begun room.0 (length figures.old) (table_of figures.old) }
    ensures { Says result room.0 (length figures.old) (table_of figures.old) }
{
    let slots = room.0 as u64;
    let mut load = ahead_next::loads_in(figures);
    if slots < load {
        return false;
    }
    let mut time = Intervals(0);
    let mut try_at = Intervals(1);
    let mut at = ahead_next::next_end(figures);
    while at.0 != ahead_figures::NEVER.0 {
        let capacity = ((at.0 - time.0) as u64) * (slots - load);
        let due = ahead_serve::pay_due(figures, at);
        if capacity < due {
            return false;
        }
        ahead_serve::serve(figures, capacity - due);
        ahead_pass::pass_ends(figures, at);
        load = ahead_next::loads_in(figures);
        time = at;
        if try_at.0 <= time.0 {
            if ahead_even::needs_of(figures, time) <= slots {
                return true;
            }
            try_at = Intervals(2 * time.0);
        }
        at = ahead_next::next_end(figures);
    }
    true
}

// Looks ahead from the table with the entry at its place. The table is only read: what changes from end to end are its figures.
pub fn keeps_up_ahead(t: Table, used: usize, place: usize, e: Entry) -> bool
    requires tidy { Tidy t × Used used t }
    requires place_lt_places { (place < places) × Tidy (put_in t place e) }
    ensures { result ≡ keeps_up_ahead t.frame (held_of (put_in t place e)) }
{
    let mut figures = [ahead_figures::FREE; spec_model::PLACES];
    ahead_figures::read_table(t, used, &mut figures);
    figures[place] = ahead_figures::figures_of(e);
    let last = used.max(place + 1);
    goes_well(spec_model::room_in(t.frame), &mut figures[..last])
}

// Looks ahead from a table alone: it is itself with the entry of its first place put there.
pub fn keeps_up(t: Table, used: usize) -> bool
    requires { Tidy t × Used used t }
    ensures { result ≡ keeps_up_ahead t.frame (held_of t) }
{
    let e = t.entries[0];
    keeps_up_ahead(t, used, 0, e)
}
