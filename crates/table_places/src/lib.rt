// The places of a table: an entry put at one, and the place of a request by its name.
#![tactic(auto)]

ghost use Rattle.std.specs.Prelude.{◌≡◌};
ghost use Rattle.spec_model.specs.Tables.{put_in};
ghost use Rattle.table_places.specs.Search.{place_of};

use spec_model::{Entry, Name, Table};

// The table with the entry at the place; a place past the last changes nothing.
pub fn put_in(t: Table, place: usize, e: Entry) -> Table
    ensures { result ≡ put_in t place e }
{
    let mut table = t;
    if place < spec_model::PLACES {
        table.entries[place] = e;
    }
    table
}

// The first place among the entries where the name is held, if there is one. The name of a free place is held by nobody.
pub fn place_of(entries: &[Entry], name: Name) -> Option<usize>
    ensures { result ≡ place_of name entries.now }
{
    if name.is_nobody() {
        return None;
    }
    for place in 0..entries.len() {
        let entry = entries[place];
        if entry.name == name {
            return Some(place);
        }
    }
    None
}
