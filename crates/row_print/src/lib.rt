// The header and the rows of calls in lent memory. Each function writes at a place and answers the place after what it wrote; every other
// byte stays as it was. The caller lends room for the longest row.
#![tactic(auto)]

ghost use Rattle.std.specs.Prelude.{◌≡◌, ◌∷◌, ◌+◌, ◌≤◌, length};
ghost use Rattle.spec_shelf.specs.Bytes.{written};
ghost use Rattle.spec_shelf.specs.Printed.{name_most, header_most, plain_most, stream_most};
ghost use Rattle.spec_shelf.specs.Printed.{name_field, header_row, plain_row, stream_row};

use spec_model::Name;

const HEADER: [u8; 36] = *b"row,stream,job,start,length,answer\r\n";

pub fn header_row(out: &mut [u8], at: usize) -> usize
    requires { at + header_most ≤ length out.old }
    ensures { (result ≡ at + length header_row) × (out.new ≡ written out.old at header_row) }
{
    row_write::put_bytes(out, at, &HEADER)
}

// A comma and a name.
pub fn put_name(out: &mut [u8], at: usize, n: Name) -> usize
    requires { at + (name_most + 1) ≤ length out.old }
    ensures { (result ≡ at + length (44 ∷ name_field n)) × (out.new ≡ written out.old at (44 ∷ name_field n)) }
{
    row_write::put_field(out, at, n.stream)
}

// A call without a name, and its answer.
pub fn plain_row(out: &mut [u8], at: usize, verb: &[u8], answer: u32) -> usize
    requires { at + (length verb.now + plain_most) ≤ length out.old }
    ensures { (result ≡ at + length (plain_row verb.now answer))
        × (out.new ≡ written out.old at (plain_row verb.now answer)) }
{
    let second = row_write::put_bytes(out, at, verb);
    let last = row_write::put_bytes(out, second, b",,,,");
    let end = row_write::put_field(out, last, answer);
    row_write::put_bytes(out, end, b"\r\n")
}

// A call with a name, and its answer.
pub fn stream_row(out: &mut [u8], at: usize, verb: &[u8], n: Name, answer: u32) -> usize
    requires { at + (length verb.now + stream_most) ≤ length out.old }
    ensures { (result ≡ at + length (stream_row verb.now n answer))
        × (out.new ≡ written out.old at (stream_row verb.now n answer)) }
{
    let second = row_write::put_bytes(out, at, verb);
    let third = put_name(out, second, n);
    let last = row_write::put_bytes(out, third, b",,,");
    let end = row_write::put_field(out, last, answer);
    row_write::put_bytes(out, end, b"\r\n")
}
