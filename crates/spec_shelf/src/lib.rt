// What the program's rows say: the call that a row asks for. What they mean is in specs/.
#![tactic(auto)]

use spec_model::{Name, Request, Setting};

// The most bytes of a record's row, the bytes kept for the row of a call, and the most bytes of an answer: that row, and those of the
// longest plan.
const SLOT_ROW_MOST: usize = 51;

const CALL_ROOM: usize = 1024;

pub const ANSWER_MOST: usize = CALL_ROOM + SLOT_ROW_MOST * spec_model::MOST_RECORDS;

// What a row asks for.
#[derive(Clone, Copy)]
pub enum Command {
    Open(Setting),
    Offer(Request),
    Withdraw(Name),
    Beacon,
    OtherForm,
}
