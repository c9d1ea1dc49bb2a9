// What stands between two rows of the text, and between two chunks of it: a struct by value. What a whole chunk gives is in specs/.
#![tactic(auto)]

ghost use Rattle.std.specs.Prelude.{◌≡◌};
ghost use Rattle.spec_shelf.specs.Room.{Ready};
ghost use Rattle.shelf_state.specs.Cutting.{first_shelf};

use row_cut::Reader;
use spec_model::Table;

// Between two chunks: the row that has begun, and the table, where an opening has succeeded.
#[derive(Clone, Copy)]
pub struct Shelf {
    pub reader: Reader,
    pub state: Option<Table>,
}

// How many bytes of the chunk are done with, the shelf after them, and the place after the rows that were printed.
#[derive(Clone, Copy)]
pub struct Served {
    pub shelf: Shelf,
    pub taken: usize,
    pub at: usize,
}

#[tactic(auto, unfolding(crate::specs::Cutting::first_shelf, spec_shelf::specs::Meaning::first_state))]
pub fn first_shelf() -> Shelf
    ensures is { result ≡ first_shelf }
    ensures formed { Ready result.state }
{
    let reader = row_cut::at_start();
    Shelf {
        reader,
        state: None,
    }
}
