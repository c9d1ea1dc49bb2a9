// Tests and quotients of numbers of 32 bits, for any numbers.
#![tactic(auto)]

ghost use Rattle.std.specs.Prelude.{◌≡◌, ◌/◌, ◌%◌, eqb};
ghost use Rattle.spec_lists.specs.Lists.{within};
ghost use Rattle.base_numbers.specs.Upward.{upward};

pub fn is_within(least: u32, largest: u32, x: u32) -> bool
    ensures { result ≡ within least largest x }
{
    (least..=largest).contains(&x)
}

// One m-th of n, and 0 where m is 0.
pub fn part_of(n: u32, m: u32) -> u32
    ensures { result ≡ n / m }
{
    n.checked_div(m).unwrap_or(0)
}

// Of 0 only 0 is a multiple.
pub fn is_multiple(n: u32, m: u32) -> bool
    ensures { result ≡ eqb (n % m) 0 }
{
    n.is_multiple_of(m)
}

// a over b, rounded up: one more where something remains. 0 where b is 0.
#[tactic(auto, unfolding(crate::specs::Upward::upward))]
pub fn upward(a: u32, b: u32) -> u32
    ensures { result ≡ upward a b }
{
    if b == 0 {
        return 0;
    }
    a.div_ceil(b)
}
