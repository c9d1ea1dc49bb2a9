// What a row asks for. Document 01, "Reading, lending, printing".
#![tactic(auto)]

ghost use Rattle.std.specs.Prelude.{◌≡◌};
ghost use Rattle.spec_shelf.specs.Commands.{setting_from, name_from, request_from, command_of};
ghost use Rattle.row_command.specs.Reads.{verb_of, form_of, asked};

use spec_model::{Name, Request, Setting};
use spec_shelf::Command;
use spec_text::{FIELDS, Field, ROW_MOST};

#[derive(Clone, Copy)]
enum Verb {
    Open,
    Offer,
    Withdraw,
    Beacon,
}

// What each verb asks of the fields after it.
const OPEN_FORM: [Field; FIELDS] = [
    Field::Needed,
    Field::MayBeEmpty(0),
    Field::Empty,
    Field::Empty,
    Field::Empty,
    Field::Empty,
];

const OFFER_FORM: [Field; FIELDS] = [Field::Needed; FIELDS];

const WITHDRAW_FORM: [Field; FIELDS] = [
    Field::Needed,
    Field::Empty,
    Field::Empty,
    Field::Empty,
    Field::Empty,
    Field::Empty,
];

const BEACON_FORM: [Field; FIELDS] = [Field::Empty; FIELDS];

// One after the other: a `match` on the byte strings has a case to prove at each byte where two of them part, 26 in all.
#[tactic(auto, unfolding(crate::specs::Reads::verb_of))]
fn verb_of(field: &[u8]) -> Option<Verb>
    ensures { result ≡ verb_of field.now }
{
    if row_fields::matches(field, b"open") {
        return Some(Verb::Open);
    }
    if row_fields::matches(field, b"offer") {
        return Some(Verb::Offer);
    }
    if row_fields::matches(field, b"withdraw") {
        return Some(Verb::Withdraw);
    }
    if row_fields::matches(field, b"beacon") {
        return Some(Verb::Beacon);
    }
    None
}

fn form_of(verb: Verb) -> [Field; FIELDS]
    ensures { result ≡ form_of verb }
{
    match verb {
        Verb::Open => OPEN_FORM,
        Verb::Offer => OFFER_FORM,
        Verb::Withdraw => WITHDRAW_FORM,
        Verb::Beacon => BEACON_FORM,
    }
}

// What the numbers of a row say, in its verb's terms.
fn setting_from(values: [u32; FIELDS]) -> Setting
    ensures { result ≡ setting_from values }
{
    let [units, header, ..] = values;
    Setting { units, header }
}

fn name_from(values: [u32; FIELDS]) -> Name
    ensures { result ≡ name_from values }
{
    Name { stream: values[0] }
}

fn request_from(values: [u32; FIELDS]) -> Request
    ensures { result ≡ request_from values }
{
    let name = name_from(values);
    let [_, kind, period, min, max, life] = values;
    Request {
        name,
        kind,
        period,
        min,
        max,
        life,
    }
}

// The verb with its numbers.
fn asked_for(verb: Verb, values: [u32; FIELDS]) -> Command
    ensures { result ≡ asked verb values }
{
    match verb {
        Verb::Open => Command::Open(setting_from(values)),
        Verb::Offer => Command::Offer(request_from(values)),
        Verb::Withdraw => Command::Withdraw(name_from(values)),
        Verb::Beacon => Command::Beacon,
    }
}

// A row of another form has more than 64 bytes, another verb, not seven fields, or a field that is not as its verb needs it.
pub fn command_of(row: &[u8]) -> Command
    ensures { result ≡ command_of row.now }
{
    if ROW_MOST < row.len() {
        return Command::OtherForm;
    }
    let end = row_fields::first_comma(row);
    let Some(verb) = verb_of(&row[..end]) else {
        return Command::OtherForm;
    };
    let Some(values) = row_fields::read_fields(&row[end..], form_of(verb)) else {
        return Command::OtherForm;
    };
    asked_for(verb, values)
}
