// Bytes, numbers and fields in lent memory. Each function writes at a place and answers the place after what it wrote; every other byte
// stays as it was. The caller lends room. Memory and place go from call to call as two arguments: a struct of both is proved as well, and
// costs the program 2 percent more on a school's day, since each call then reads and stores the place in memory.
#![tactic(auto)]

ghost use Rattle.std.specs.Prelude.{◌≡◌, ◌∷◌, ◌+◌, ◌≤◌, length};
ghost use Rattle.spec_shelf.specs.Bytes.{number_most, decimal, written};

const TENS: [u32; 10] = [
    1000000000, 100000000, 10000000, 1000000, 100000, 10000, 1000, 100, 10, 1,
];

const COMMA: u8 = 44;

pub fn put_bytes(out: &mut [u8], at: usize, bytes: &[u8]) -> usize
    requires { at + length bytes.now ≤ length out.old }
    ensures { (result ≡ at + length bytes.now)
        × (out.new ≡ written out.old at bytes.now) }
{
    for i in 0..bytes.len() {
        out[at + i] = bytes[i];
    }
    at + bytes.len()
}

// The digits at the powers of ten that are at most n. Powers above n cost a comparison and no division. Most answers have one digit, 0 among
// them, and cost no comparison with a power.
pub fn put_number(out: &mut [u8], at: usize, n: u32) -> usize
    requires { at + number_most ≤ length out.old }
    ensures { (result ≡ at + length (decimal n)) × (out.new ≡ written out.old at (decimal n)) }
{
    if n < 10 {
        out[at] = (48 + n) as u8;
        return at + 1;
    }
    let mut end = at;
    for i in 0..10 {
        let p = TENS[i];
        if p <= n {
            out[end] = (48 + n / p % 10) as u8;
            end += 1;
        }
    }
    end
}

// A comma and a number.
pub fn put_field(out: &mut [u8], at: usize, n: u32) -> usize
    requires { at + (number_most + 1) ≤ length out.old }
    ensures { (result ≡ at + length (44 ∷ decimal n)) × (out.new ≡ written out.old at (44 ∷ decimal n)) }
{
    out[at] = COMMA;
    put_number(out, at + 1, n)
}
