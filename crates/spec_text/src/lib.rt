// Rows of text: their sizes, and what a verb asks of a field. What rows are made of is in specs/.
#![tactic(auto)]

// The most bytes of a row before its CR LF.
pub const ROW_MOST: usize = 64;

// The fields of a row after its verb.
pub const FIELDS: usize = 6;

// What a verb asks of a field: a number; a number, or nothing, which then counts as the number here; nothing.
#[derive(Clone, Copy)]
pub enum Field {
    Needed,
    MayBeEmpty(u32),
    Empty,
}
