// Openings: document 01, "Where each refusal is checked", `open`; document 02, No. 1.
#![tactic(auto)]

ghost use Rattle.std.specs.Prelude.{cond, ◌≡◌, eqb};
ghost use Rattle.std.specs.Result.{result_unwrap_or};
ghost use Rattle.spec_model.specs.Answers.{answered};
ghost use Rattle.spec_model.specs.Numbers.{open_number};
ghost use Rattle.spec_model.specs.Tables.{none_held, no_table};
ghost use Rattle.spec_rules.specs.Settings.{open_answer, Succeeds, frame_of, opened};

use spec_model::{Frame, OpenRefusal, Setting, Slots, Table};

// The time units of an interval.
const UNITS_LEAST: u32 = 1;

const UNITS_LARGEST: u32 = 1000;

// No place is held.
pub fn empty_table(frame: Frame) -> Table
    ensures { result ≡ none_held frame }
{
    let free = spec_model::free_entry();
    Table {
        frame,
        entries: [free; spec_model::PLACES],
    }
}

// What stands where there is no table: an interval of 0 slots.
const NO_FRAME: Frame = Frame {
    slots: Slots(0),
    header: Slots(0),
};

pub fn no_table() -> Table
    ensures { result ≡ no_table }
{
    empty_table(NO_FRAME)
}

// Whether an opening succeeds, before there is a table.
#[tactic(auto, unfolding(spec_rules::specs::Settings::open_answer, spec_model::specs::Requests::refusal))]
pub fn open_answer(s: Setting) -> Result<(), OpenRefusal>
    ensures { answered open_number result ≡ open_answer s }
{
    if !base_numbers::is_within(UNITS_LEAST, UNITS_LARGEST, s.units) {
        return Err(OpenRefusal::UnitsOutside);
    }
    if spec_model::UNIT_SLOTS * s.units <= s.header {
        return Err(OpenRefusal::HeaderOutside);
    }
    Ok(())
}

// What an interval is after an opening that succeeds.
#[tactic(auto, unfolding(spec_rules::specs::Settings::frame_of))]
fn frame_of(s: Setting) -> Frame
    requires { Succeeds s }
    ensures { result ≡ frame_of s }
{
    let count = spec_model::UNIT_SLOTS * s.units;
    let slots = Slots(count);
    let header = Slots(s.header);
    Frame { slots, header }
}

// The table of an opening that succeeds.
#[tactic(auto, unfolding(spec_rules::specs::Settings::opened))]
pub fn opened_table(s: Setting) -> Table
    requires { Succeeds s }
    ensures { result ≡ opened s }
{
    empty_table(frame_of(s))
}

// Refused, there is no table.
pub fn open(s: Setting) -> Result<Table, OpenRefusal>
    ensures { (answered open_number result ≡ open_answer s)
        × (result_unwrap_or result no_table ≡ cond (eqb (open_answer s) 0) (opened s) no_table) }
{
    open_answer(s)?;
    Ok(opened_table(s))
}
