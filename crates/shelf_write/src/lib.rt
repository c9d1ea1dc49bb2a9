// Rows handed to a writer: those of one part of a chunk, and those of the last row. What becomes of bytes that a writer of the system takes
// no contract can say. What is handed to it, how many bytes that is, and what a writer holds after it that says so, the contracts say.
#![tactic(auto)]

ghost use Rattle.std.specs.Prelude.{◌≡◌, ◌+◌, ◌^◌, ◌<◌, ◌≤◌, false, length, take};
ghost use Rattle.spec_shelf.specs.Printed.{written};
ghost use Rattle.spec_rules.specs.Records.{plan_words};
ghost use Rattle.spec_shelf.specs.Room.{answer_most, Ready};
ghost use Rattle.shelf_state.specs.Cutting.{last_rows, last_plan};
ghost use Rattle.shelf_state.specs.Whole.{chunk_rows};
ghost use Rattle.shelf_write.specs.Flows.{Flowed, flow_then};
ghost use Rattle.shelf_write.specs.Taken.{Took};

use shelf_state::Shelf;
use std::io::Write;

// How many bytes were handed to a writer, and whether it took them all.
#[derive(Clone, Copy)]
pub struct Handed {
    pub bytes: usize,
    pub well: bool,
}

// The shelf after some bytes of the input, how many they are, how many bytes were handed to a writer, and whether it took them all.
#[derive(Clone, Copy)]
pub struct Flow {
    pub shelf: Shelf,
    pub taken: usize,
    pub put: usize,
    pub well: bool,
}

// Write after write, until the writer has taken all, or one fails or takes nothing. Whether it has taken all.
pub fn hand<W: Write>(to: &mut W, bytes: &[u8]) -> bool
    ensures { Took (W.contents to.old) (W.contents to.new) result bytes.now }
{
    let mut done = 0;
    while done < bytes.len() {
        match to.write(&bytes[done..]) {
            Ok(0) => return false,
            Ok(more) => done += more,
            Err(_) => return false,
        }
    }
    true
}

// Hands the rows that are printed to a writer. The count is that of what was handed on.
pub fn put<W: Write>(to: &mut W, out: &[u8], at: usize) -> Handed
    requires { at ≤ length out.now }
    ensures bytes { result.bytes ≡ at }
    ensures took { Took (W.contents to.old) (W.contents to.new) result.well (take at out.now) }
{
    let rows = &out[..at];
    let well = hand(to, rows);
    Handed {
        bytes: rows.len(),
        well,
    }
}

// Some bytes are served, and then others.
pub fn joined(a: Flow, b: Flow) -> Flow
    requires { a.taken + b.taken < 2 ^ 64 }
    ensures { result ≡ flow_then a b }
{
    let shelf = b.shelf;
    Flow {
        shelf,
        taken: a.taken + b.taken,
        put: a.put.wrapping_add(b.put),
        well: b.well,
    }
}

// One part of a chunk, whose rows are handed on at once.
pub fn serve_part<W: Write>(
    s: Shelf,
    chunk: &[u8],
    plan: &mut [u32],
    out: &mut [u8],
    to: &mut W,
) -> Flow
    requires ready { Ready s.state }
    requires chunk_nonzero { 0 < length chunk.now }
    requires plan_words_in_bounds { plan_words ≤ length plan.old }
    requires answer_most_in_bounds { answer_most ≤ length out.old }
    ensures is { let p = take result.taken chunk.now in
        (Flowed false s p plan.old result plan.new)
        × (out.new ≡ written out.old 0 (chunk_rows s p)) }
    ensures some { 0 < result.taken }
    ensures formed { Ready result.shelf.state }
    ensures took { Took (W.contents to.old) (W.contents to.new) result.well (chunk_rows s (take result.taken chunk.now)) }
{
    let part = shelf_rows::serve_rows(s, chunk, plan, out, 0);
    let handed = put(to, out, part.at);
    let shelf = part.shelf;
    Flow {
        shelf,
        taken: part.taken,
        put: handed.bytes,
        well: handed.well,
    }
}

// The last row, which the end of the input shows.
pub fn serve_last<W: Write>(s: Shelf, plan: &mut [u32], out: &mut [u8], to: &mut W) -> Handed
    requires ready { Ready s.state }
    requires plan_words_in_bounds { plan_words ≤ length plan.old }
    requires answer_most_in_bounds { answer_most ≤ length out.old }
    ensures is { let rows = last_rows s in
        (result.bytes ≡ length rows) × ((out.new ≡ written out.old 0 rows)
        × (plan.new ≡ last_plan s plan.old)) }
    ensures took { Took (W.contents to.old) (W.contents to.new) result.well (last_rows s) }
{
    let at = shelf_end::finish(s, plan, out, 0);
    put(to, out, at)
}
