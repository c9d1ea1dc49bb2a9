// Cases 1 to 10 of document 01, "Tested by hand", and two of our own, on the proved calls and the proved window. Every answer, every record
// count, every word of a plan and every word of a window's part that the document names is held to it by `check::expect`, which asks for a
// proof that its test passes. So is the header, which is written and read back.
#![tactic(auto)]

ghost use Rattle.std.specs.Prelude.{◌*◌, ◌-◌, ◌≤◌, ◌≡◌, ◌++◌, length, drop};
ghost use Rattle.spec_lists.specs.Lists.{same_list};
ghost use Rattle.spec_shelf.specs.Printed.{header_most, header_row, written};
ghost use Rattle.spec_rules.specs.Calls.{offer_answer, offered, held_answer, withdrawn, plan_of, advanced};
ghost use Rattle.spec_rules.specs.Records.{record_words, plan_words, words_of};
ghost use Rattle.spec_rules.specs.Settings.{Succeeds, opened};
ghost use Rattle.spec_rules.specs.Reading.{window_answer, window_part};
ghost use Rattle.std.specs.Result.{result_unwrap_or};
ghost use Rattle.spec_model.specs.Answers.{answered};
ghost use Rattle.spec_model.specs.Numbers.{beacon_number};
ghost use Rattle.spec_model.specs.ByNumbers.{stream as named, setting};
ghost use Rattle.demo_expected.specs.Said.{table1, one_unit, after_offers, Answered};
ghost use Rattle.demo_expected.specs.Words.{records_in, Begins, Records, Each};

use demo_calls::{Planner, request};
use spec_model::{BeaconRefusal, Request, Setting, Slots};

// A word fewer than a plan needs.
const SHORT_WORDS: usize = spec_model::PLAN_WORDS - 1;

// The words of case 1's plan, of five records.
const CASE_1_WORDS: usize = spec_model::RECORD_WORDS * 5;

// ---- the header
// Compared as a byte string, as verbs are.
fn is_header(row: &[u8]) -> bool
    ensures { result ≡ same_list row.now header_row }
{
    row_fields::matches(row, b"row,stream,job,start,length,answer\r\n")
}

// The row that is written is the one that is read back.
#[tactic(auto, unfolding(spec_shelf::specs::Printed::written))]
fn expect_header(out: &mut [u8])
    requires { header_most ≤ length out.old }
    ensures { out.new ≡ written out.old 0 header_row }
{
    let end = row_print::header_row(out, 0);
    check::expect(is_header(&out[..end]));
}

// ---- words
// These words begin with those.
fn expect_words(words: &[u32], first: &[u32])
    requires { Begins words.now first.now }
{
    check::expect(words.starts_with(first));
}

fn expect_records(plan: &[u32], records: &[[u32; spec_model::RECORD_WORDS]])
    requires { Records plan.now records.now }
{
    for (i, record) in records.iter().enumerate() {
        expect_words(&plan[spec_model::RECORD_WORDS * i..], record);
    }
}

fn expect_each(words: &[u32], word: u32)
    requires { Each word words.now }
{
    for found in words {
        check::expect(*found == word);
    }
}

// ---- the calls, each with the answer that is expected
// Of so many time units, with no header.
fn open(units: u32) -> Planner
    requires { Succeeds (setting units 0) }
    ensures { result ≡ opened (setting units 0) }
{
    let opening = Planner::open(Setting { units, header: 0 });
    check::expect(call_answers::answer_number(&opening) == 0);
    opening.unwrap()
}

fn offer(planner: &mut Planner, q: Request, expected: u32)
    requires { offer_answer planner.old q ≡ expected }
    ensures { planner.new ≡ offered planner.old q }
{
    let answer = planner.offer(q);
    check::expect(call_answers::answer_number(&answer) == expected);
}

// One offer after the other, each with what it answers.
fn offers(planner: &mut Planner, asked: &[(Request, u32)])
    requires { Answered planner.old asked.now }
    ensures { planner.new ≡ after_offers planner.old asked.now }
{
    for (q, expected) in asked {
        offer(planner, *q, *expected);
    }
}

fn withdraw(planner: &mut Planner, stream: u32)
    requires { held_answer planner.old (named stream) ≡ 0 }
    ensures { planner.new ≡ withdrawn planner.old (named stream) }
{
    let answer = planner.withdraw(stream);
    check::expect(call_answers::answer_number(&answer) == 0);
}

// Refused, a beacon sends no record.
fn expect_beacon(sent: Result<usize, BeaconRefusal>, expected: u32, count: usize)
    requires answer { answered beacon_number sent ≡ expected }
    requires count { result_unwrap_or sent 0 ≡ count }
{
    check::expect(call_answers::answer_number(&sent) == expected);
    check::expect(sent.unwrap_or(0) == count);
}

// The plan is these records, each with its stream, job, start and length: as words, since every word is compared.
fn beacon(planner: &mut Planner, plan: &mut [u32], records: &[[u32; spec_model::RECORD_WORDS]])
    requires room { plan_words ≤ length plan.old }
    requires planned { records_in (plan_of planner.old) ≡ records.now }
    ensures is { planner.new ≡ advanced planner.old }
    ensures words { plan.new ≡ words_of (plan_of planner.old) ++ drop (record_words * length records.now) plan.old }
{
    let sent = planner.beacon(plan);
    expect_beacon(sent, 0, records.len());
    expect_records(plan, records);
}

// The first beacon of a table of one time unit after these offers.
fn plan_after(
    asked: &[(Request, u32)],
    plan: &mut [u32],
    records: &[[u32; spec_model::RECORD_WORDS]],
) -> Planner
    requires room { plan_words ≤ length plan.old }
    requires answers { Answered one_unit asked.now }
    requires planned { records_in (plan_of (after_offers one_unit asked.now)) ≡ records.now }
    ensures is { result ≡ advanced (after_offers one_unit asked.now) }
    ensures words { plan.new ≡ words_of (plan_of (after_offers one_unit asked.now))
        ++ drop (record_words * length records.now) plan.old }
{
    let mut planner = open(1);
    offers(&mut planner, asked);
    beacon(&mut planner, plan, records);
    planner
}

// With a word too few of the plan's memory lent: refused, nothing changes.
fn refused_beacon(planner: &mut Planner, plan: &mut [u32])
    requires { plan_words - 1 ≤ length plan.old }
    ensures is { planner.new ≡ planner.old }
    ensures words { plan.new ≡ plan.old }
{
    let sent = planner.beacon(&mut plan[..SHORT_WORDS]);
    expect_beacon(sent, 30, 0);
}

// The part is these words, no more and no fewer. Refused, a window has none.
fn expect_window(
    plan: &[u32],
    count: usize,
    from: Slots,
    until: Slots,
    expected: u32,
    words: &[u32],
)
    requires { (window_answer plan.now count from.0 until.0 ≡ expected)
        × (window_part plan.now count from.0 until.0 ≡ words.now) }
{
    let part = plan_window::window(plan, count, from, until);
    check::expect(call_answers::answer_number(&part) == expected);
    match part {
        Ok(found) => check::expect(found == words),
        Err(_) => check::expect(words.is_empty()),
    }
}

// ---- the cases
// What case 1 offers, and cases 4, 9 and 10 go on from.
fn offers_of_case_1() -> Planner
    ensures { result ≡ table1 }
{
    let mut planner = open(1);
    offers(
        &mut planner,
        &[
            (request(5, 1, 2, 100, 300, 4), 0),
            (request(7, 2, 2, 600, 1000, 4), 0),
            (request(9, 3, 1, 300, 0, 1), 0),
        ],
    );
    planner
}

fn beacon_of_case_1(planner: &mut Planner, plan: &mut [u32])
    requires is { planner.old ≡ table1 }
    requires room { plan_words ≤ length plan.old }
    ensures is { planner.new ≡ advanced table1 }
    ensures words { plan.new ≡ words_of (plan_of table1) ++ drop (record_words * 5) plan.old }
{
    let records = [
        [5u32, 0, 0, 100],
        [9, 0, 100, 300],
        [7, 0, 400, 112],
        [5, 1, 512, 100],
        [7, 0, 612, 412],
    ];
    beacon(planner, plan, &records)
}

fn cases_1_to_3(plan: &mut [u32])
    requires { plan_words ≤ length plan.old }
{
    let mut planner = offers_of_case_1();
    beacon_of_case_1(&mut planner, plan);
    let second = [
        [5u32, 0, 0, 287],
        [7, 0, 287, 225],
        [5, 1, 512, 287],
        [7, 0, 799, 225],
    ];
    beacon(&mut planner, plan, &second);
    let third = [
        [5u32, 0, 0, 156],
        [7, 0, 156, 356],
        [5, 1, 512, 156],
        [7, 0, 668, 356],
    ];
    beacon(&mut planner, plan, &third);
}

// The transfer is of stream 11.
fn case_4() {
    let mut planner = offers_of_case_1();
    offer(&mut planner, request(11, 3, 2, 748, 0, 2), 0);
    let mut planner = offers_of_case_1();
    offer(&mut planner, request(11, 3, 2, 749, 0, 2), 17);
}

fn case_5(plan: &mut [u32])
    requires { plan_words ≤ length plan.old }
{
    let asked = [
        (request(1, 2, 2, 1024, 1024, 2), 0),
        (request(2, 2, 2, 1024, 1024, 2), 0),
    ];
    let mut planner = plan_after(&asked, plan, &[[1u32, 0, 0, 1024]]);
    withdraw(&mut planner, 1);
    offer(&mut planner, request(3, 2, 1, 1, 1, 1), 17);
}

fn case_6() {
    let mut planner = open(1);
    offers(
        &mut planner,
        &[
            (request(1, 1, 2, 512, 512, 1), 0),
            (request(2, 1, 2, 1, 1, 1), 17),
        ],
    );
}

fn case_7() {
    let thirds = request(1, 1, 3, 1, 1, 1);
    let mut one = open(1);
    offer(&mut one, thirds, 13);
    let mut three = open(3);
    offer(&mut three, thirds, 0);
}

fn case_8() {
    let mut planner = open(1);
    offers(
        &mut planner,
        &[
            (request(1, 2, 2, 1, 1, 3), 15),
            (request(1, 2, 2, 1, 1, 4), 0),
        ],
    );
}

// The plan has five records.
fn case_9(plan: &mut [u32])
    requires { plan_words ≤ length plan.old }
{
    let mut planner = offers_of_case_1();
    beacon_of_case_1(&mut planner, plan);
    let part = [9, 0, 100, 300, 7, 0, 400, 112];
    expect_window(plan, 5, Slots(100), Slots(512), 0, &part);
    expect_window(plan, 5, Slots(512), Slots(512), 0, &[]);
    expect_window(plan, 5, Slots(513), Slots(512), 41, &[]);
}

// Refused with a word too few, the table and every word are as before: with it the same table gives the plan of case 1, and the words
// after it stay. The memory is all 77,777, a number that the plan does not have.
fn case_10(plan: &mut [u32])
    requires plan_len { length plan.old ≡ plan_words }
    requires each { Each 77777 plan.old }
{
    let mut planner = offers_of_case_1();
    refused_beacon(&mut planner, plan);
    expect_each(plan, 77777);
    beacon_of_case_1(&mut planner, plan);
    expect_each(&plan[CASE_1_WORDS..], 77777);
}

// Of a table that holds nothing.
#[tactic(auto, using(crate::specs::Said::nothing_planned))]
fn case_10_empty(plan: &mut [u32])
    requires { plan_words ≤ length plan.old }
{
    let mut planner = open(1);
    beacon(&mut planner, plan, &[]);
}

// Not the document's. Of two jobs of kind 1 due at once the lower stream number goes first, though it was offered later. With as many
// intervals left a whole stream goes before a transfer, though the transfer has the lower stream number.
fn two_of_our_own(plan: &mut [u32])
    requires { plan_words ≤ length plan.old }
{
    let ties = [
        (request(8, 1, 2, 200, 200, 1), 0),
        (request(6, 1, 2, 100, 100, 1), 0),
    ];
    let records = [
        [6u32, 0, 0, 100],
        [8, 0, 100, 200],
        [6, 1, 512, 100],
        [8, 1, 612, 200],
    ];
    plan_after(&ties, plan, &records);
    let kinds = [
        (request(2, 3, 2, 700, 0, 2), 0),
        (request(4, 2, 2, 800, 800, 2), 0),
    ];
    plan_after(&kinds, plan, &[[4u32, 0, 0, 800], [2, 0, 800, 224]]);
}

fn main(rt: HostRuntime) {
    let mut row = [0u8; 64];
    expect_header(&mut row);
    let mut plan = [0u32; spec_model::PLAN_WORDS];
    cases_1_to_3(&mut plan);
    case_4();
    case_5(&mut plan);
    case_6();
    case_7();
    case_8();
    case_9(&mut plan);
    let mut lent = [77777u32; spec_model::PLAN_WORDS];
    case_10(&mut lent);
    case_10_empty(&mut plan);
    two_of_our_own(&mut plan);
    let _ = println!(rt; "header, cases 1 to 10 and two of our own: as expected");
}
