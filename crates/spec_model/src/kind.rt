// The kinds of a request. An offer and an entry carry a kind as a number, and C may lend any number: here it is told which kind that is.
ghost use Rattle.spec_model.specs.Kinds.{Tells, Known};

use crate::Entry;

#[derive(Clone, Copy, PartialEq, Eq, Debug)]
pub enum Kind {
    Fraction,
    Whole,
    Transfer,
}

// A number that no kind has.
#[derive(Clone, Copy, PartialEq, Eq, Debug)]
pub struct UnknownKind(pub u32);

impl TryFrom<u32> for Kind {
    type Error = UnknownKind;

    ghost try_from_gives = { Tells };

    fn try_from(number: u32) -> Result<Self, UnknownKind> {
        match number {
            1 => Ok(Kind::Fraction),
            2 => Ok(Kind::Whole),
            3 => Ok(Kind::Transfer),
            _ => Err(UnknownKind(number)),
        }
    }
}

impl Entry {
    // None in a free place.
    pub fn kind(self) -> Option<Kind>
        ensures { Known self.kind result }
    {
        Kind::try_from(self.kind).ok()
    }
}
