// Rows of an input that comes in chunks of any size. The state between two chunks is a struct by value, and no chunk is kept.
#![tactic(auto)]

ghost use Rattle.std.specs.Prelude.{◌≡◌};
ghost use Rattle.row_cut.specs.Lines.{line_in, with_byte, at_start, unheld, cut_from};

use spec_text::ROW_MOST;

// A row, or what is known of it so far. A length of 65 stands for every length above 64.
#[derive(Clone, Copy)]
pub struct Line {
    pub bytes: [u8; ROW_MOST],
    pub len: usize,
}

// The row that has begun, and whether a CR was kept back after it.
#[derive(Clone, Copy)]
pub struct Reader {
    pub line: Line,
    pub held: bool,
}

// How many bytes were taken, the row that the last of them ended, where one did, and what stands after them.
#[derive(Clone, Copy)]
pub struct Cut {
    pub reader: Reader,
    pub taken: usize,
    pub row: Option<Line>,
}

#[tactic(auto, unfolding(crate::specs::Lines::at_start, crate::specs::Lines::no_line))]
pub fn at_start() -> Reader
    ensures { result ≡ at_start }
{
    let line = Line {
        bytes: [0; ROW_MOST],
        len: 0,
    };
    Reader { line, held: false }
}

// One byte more of a row: it is kept while there is room. The length after it.
#[tactic(auto, unfolding(crate::specs::Lines::with_byte))]
fn keep_byte(bytes: &mut [u8; ROW_MOST], len: usize, byte: u8) -> usize
    ensures { line_in bytes.new result ≡ with_byte (line_in bytes.old len) byte }
{
    if len < ROW_MOST {
        bytes[len] = byte;
        len + 1
    } else {
        ROW_MOST + 1
    }
}

impl Line {
    fn push(&mut self, byte: u8)
        ensures { self.new ≡ with_byte self.old byte }
    {
        self.len = keep_byte(&mut self.bytes, self.len, byte);
    }
}

// At the end of the input a CR that was kept back belongs to the row.
#[tactic(auto, unfolding(crate::specs::Lines::unheld))]
pub fn unheld(r: Reader) -> Line
    ensures { result ≡ unheld r }
{
    let mut last = r.line;
    if r.held {
        last.push(b'\r');
    }
    last
}

// Reads up to the end of the row, or through the whole chunk where the row goes on after it.
pub fn cut_row(r: Reader, chunk: &[u8]) -> Cut
    ensures { result ≡ cut_from 0 r chunk.now }
{
    // The length is a local: beside an array that is written at any place, as a field, it would be read and written at each byte.
    let Line { mut bytes, mut len } = r.line;
    let mut held = r.held;
    for (i, byte) in chunk.iter().enumerate() {
        if held {
            if *byte == b'\n' {
                return Cut {
                    reader: at_start(),
                    taken: i + 1,
                    row: Some(Line { bytes, len }),
                };
            }
            len = keep_byte(&mut bytes, len, b'\r');
        }
        held = *byte == b'\r';
        if !held {
            len = keep_byte(&mut bytes, len, *byte);
        }
    }
    let line = Line { bytes, len };
    Cut {
        reader: Reader { line, held },
        taken: chunk.len(),
        row: None,
    }
}
