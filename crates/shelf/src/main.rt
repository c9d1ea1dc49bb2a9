// The program `shelf`: rows of calls on standard input, rows of answers and plans on standard output. Document 01, "Reading, lending,
// printing". What it does with each byte is in crate shelf_rows; here are the reads and writes, and what is handed from one to the next.
#![tactic(auto)]

ghost use Rattle.std.specs.Prelude.{◌≡◌, true, false, ◌≤◌, ◌<◌, length, take};
ghost use Rattle.spec_shelf.specs.Printed.{header_row, written};
ghost use Rattle.spec_rules.specs.Records.{plan_words};
ghost use Rattle.spec_shelf.specs.Room.{answer_most, Ready};
ghost use Rattle.shelf_state.specs.Cutting.{first_shelf, last_rows};
ghost use Rattle.shelf_write.specs.Flows.{Flowed, rows_to};
ghost use Rattle.shelf_write.specs.Taken.{Took};
ghost use Rattle.std.specs.Io.KnownBytes.{IsAtEnd};
ghost use Rattle.shelf.specs.Runs.{ends, gave, reads_on, most_bytes, Ran};
ghost use Rattle.shelf.specs.Streams.{Streams, stop_of, Stopped, message_of};

use shelf_state::Shelf;
use shelf_write::Flow;
use std::io;
use std::io::{Read, Write};

// What became of all that was read, how many bytes that is, and what the last read answered.
#[derive(Clone, Copy)]
struct Run {
    flow: Flow,
    given: usize,
    got: io::Result<usize>,
}

// How many bytes of the input a read gave: none where it failed.
fn count(got: io::Result<usize>, input: &[u8]) -> usize
    ensures { result ≡ gave got (length input.now) }
{
    match got {
        Ok(n) if n < input.len() => n,
        Ok(_) => input.len(),
        Err(_) => 0,
    }
}

// Serves a whole chunk, part after part, as long as every write takes what it is handed. So no answer waits for the next chunk.
fn serve_chunk<W: Write>(
    s: Shelf,
    chunk: &[u8],
    plan: &mut [u32],
    out: &mut [u8],
    to: &mut W,
) -> Flow
    requires ready { Ready s.state }
    requires plan_words_in_bounds { plan_words ≤ length plan.old }
    requires answer_most_in_bounds { answer_most ≤ length out.old }
    ensures is { Flowed false s (take result.taken chunk.now) plan.old result plan.new }
    ensures all { result.well ≡ true → result.taken ≡ length chunk.now }
    ensures formed { Ready result.shelf.state }
    ensures took { Took (W.contents to.old) (W.contents to.new) result.well (rows_to false s (take result.taken chunk.now)) }
{
    let mut flow = Flow {
        shelf: s,
        taken: 0,
        put: 0,
        well: true,
    };
    while flow.taken < chunk.len() && flow.well {
        let taken = flow.taken;
        let shelf = flow.shelf;
        let part = shelf_write::serve_part(shelf, &chunk[taken..], plan, out, to);
        flow = shelf_write::joined(flow, part);
    }
    flow
}

// What a read answered is served: nothing where it failed, the last row at the end of the input, otherwise the bytes that it gave.
fn serve_some<W: Write>(
    s: Shelf,
    got: io::Result<usize>,
    input: &[u8],
    plan: &mut [u32],
    out: &mut [u8],
    to: &mut W,
) -> Flow
    requires ready { Ready s.state }
    requires plan_words_in_bounds { plan_words ≤ length plan.old }
    requires answer_most_in_bounds { answer_most ≤ length out.old }
    ensures is { Flowed (ends got) s (take result.taken input.now) plan.old result plan.new }
    ensures all { let n = gave got (length input.now) in (result.taken ≤ n) × (result.well ≡ true → result.taken ≡ n) }
    ensures last { ends got ≡ true → out.new ≡ written out.old 0 (last_rows s) }
    ensures formed { Ready result.shelf.state }
    ensures took { Took (W.contents to.old) (W.contents to.new) result.well (rows_to (ends got) s (take result.taken input.now)) }
{
    match got {
        Err(_) => Flow {
            shelf: s,
            taken: 0,
            put: 0,
            well: true,
        },
        Ok(0) => {
            let last = shelf_write::serve_last(s, plan, out, to);
            Flow {
                shelf: s,
                taken: 0,
                put: last.bytes,
                well: last.well,
            }
        }
        Ok(_) => {
            let n = count(got, input);
            serve_chunk(s, &input[..n], plan, out, to)
        }
    }
}

// A number of bytes that no input comes to.
const MOST: usize = 9223372036854775807;

// Read after read, once the header has been handed on. A proved loop has to end, and nothing says that the input does: this one ends after
// MOST bytes at the latest.
fn serve_all<R: Read, W: Write>(
    s: Shelf,
    header: usize,
    input: &mut [u8],
    plan: &mut [u32],
    out: &mut [u8],
    from: &mut R,
    to: &mut W,
) -> Run
    requires s_value { s ≡ first_shelf }
    requires header_value { (header ≡ length header_row) × (take header out.old ≡ header_row) }
    requires plan_words_in_bounds { plan_words ≤ length plan.old }
    requires answer_most_in_bounds { answer_most ≤ length out.old }
    ensures is { Ran (ends result.got) plan.old result.flow plan.new }
    ensures all { (result.flow.taken ≤ result.given) × (result.flow.well ≡ true → result.flow.taken ≡ result.given) }
    ensures stops { result.given < most_bytes → reads_on result.got result.flow.well ≡ false }
    ensures streams { Streams (ends result.got) plan.old result.flow plan.new result.given (R.remaining from.old) (R.remaining from.new)
        (W.contents to.old) (W.contents to.new) }
    ensures end { 0 < length input.old → ends result.got ≡ true → IsAtEnd (R.remaining from.new) }
{
    let mut flow = Flow {
        shelf: s,
        taken: 0,
        put: header,
        well: true,
    };
    let mut given: usize = 0;
    loop {
        let got = from.read(input);
        let more = count(got, input);
        let shelf = flow.shelf;
        let next = serve_some(shelf, got, input, plan, out, to);
        flow = shelf_write::joined(flow, next);
        given += more;
        if more == 0 || !flow.well || given >= MOST {
            return Run { flow, given, got };
        }
    }
}

// How the program stops.
#[derive(Clone, Copy)]
enum Stop {
    // At the end of the input, every row of the output taken.
    Done,
    ReadingFailed,
    WritingFailed,
    // After so many bytes that no input comes to.
    Full,
}

fn stop_of(got: io::Result<usize>, well: bool) -> Stop
    ensures { result ≡ stop_of got well }
{
    if !well {
        return Stop::WritingFailed;
    }
    match got {
        Err(_) => Stop::ReadingFailed,
        Ok(0) => Stop::Done,
        Ok(_) => Stop::Full,
    }
}

// The whole program, over any reader and writer.
fn serve<R: Read, W: Write>(from: &mut R, to: &mut W) -> Stop
    ensures { Stopped result (R.remaining from.old) (R.remaining from.new) (W.contents to.old) (W.contents to.new) }
{
    let mut input = [0u8; 65536];
    let mut out = [0u8; 131072];
    let mut plan = [0u32; spec_model::PLAN_WORDS];
    let at = row_print::header_row(&mut out, 0);
    let header = shelf_write::put(to, &out, at);
    if !header.well {
        return Stop::WritingFailed;
    }
    let first = shelf_state::first_shelf();
    let all = serve_all(
        first,
        header.bytes,
        &mut input,
        &mut plan,
        &mut out,
        from,
        to,
    );
    stop_of(all.got, all.flow.well)
}

// Says what failed, where something did. Whether that was said makes no difference.
fn tell<W: Write>(to: &mut W, stop: Stop) -> bool
    ensures { Took (W.contents to.old) (W.contents to.new) result (message_of stop) }
{
    match stop {
        Stop::ReadingFailed => shelf_write::hand(to, b"shelf: reading failed\n"),
        Stop::WritingFailed => shelf_write::hand(to, b"shelf: writing failed\n"),
        Stop::Done | Stop::Full => true,
    }
}

fn main(rt: HostRuntime) {
    let stop = serve(&mut rt.stdin(), &mut rt.stdout());
    tell(&mut rt.stderr(), stop);
}
