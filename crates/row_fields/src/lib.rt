// The fields of a row as byte strings and as numbers. Document 01, "Reading, lending, printing".
#![tactic(auto)]

ghost use Rattle.std.specs.Prelude.{◌≡◌, ◌≤◌, length};
ghost use Rattle.spec_lists.specs.Lists.{same_list};
ghost use Rattle.spec_text.specs.declared.Field.TheVariants.{Needed};
ghost use Rattle.row_fields.specs.FieldLaws.{to_comma, fields_after};
ghost use Rattle.row_fields.specs.FieldReads.{field_read, fields_read};

use spec_text::{FIELDS, Field};

const DIGITS_MOST: usize = 10;

// Whether some bytes are those of a byte string, no more and no fewer: the library's comparison, as an equation.
pub fn matches(bytes: &[u8], string: &[u8]) -> bool
    ensures { result ≡ same_list bytes.now string.now }
{
    bytes == string
}

// Where the first comma stands, or the text's length.
pub fn first_comma(text: &[u8]) -> usize
    ensures value { result ≡ to_comma text.now }
    ensures inside { result ≤ length text.now }
{
    text.iter()
        .position(|byte| *byte == b',')
        .unwrap_or(text.len())
}

// 1 to 10 digits, whose value fits 32 bits.
fn read_number(field: &[u8]) -> Option<u32>
    ensures { result ≡ field_read Needed field.now }
{
    if !(1..=DIGITS_MOST).contains(&field.len()) {
        return None;
    }
    let mut value: u32 = 0;
    for byte in field {
        if !byte.is_ascii_digit() {
            return None;
        }
        let digit = u32::from(*byte - b'0');
        value = value.checked_mul(10)?.checked_add(digit)?;
    }
    Some(value)
}

// An empty field has no number of its own: it counts as the one that its form gives, or as 0.
fn read_field(field: &[u8], asked: Field) -> Option<u32>
    ensures { result ≡ field_read asked field.now }
{
    match asked {
        Field::Needed => read_number(field),
        Field::MayBeEmpty(otherwise) if field.is_empty() => Some(otherwise),
        Field::MayBeEmpty(_) => read_number(field),
        Field::Empty => field.is_empty().then_some(0),
    }
}

// The text is a comma and a field, as often as the form has fields.
pub fn read_fields(text: &[u8], form: [Field; FIELDS]) -> Option<[u32; FIELDS]>
    ensures { result ≡ fields_read form (fields_after text.now) }
{
    let mut values = [0; FIELDS];
    let mut rest = text;
    for (i, asked) in form.iter().enumerate() {
        let (_, after) = rest.split_first()?;
        let size = first_comma(after);
        values[i] = read_field(&after[..size], *asked)?;
        rest = &after[size..];
    }
    rest.is_empty().then_some(values)
}
