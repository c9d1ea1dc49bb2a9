// Runs the proved calls on the cases of document 01, "Tested by hand", and on two of our own, and prints a row for each call and each
// record. The rows that the document gives, and ours, are stored beside this file, in `stdout`, and every run is held to them. What becomes
// of the text makes no difference to the calls.
#![tactic(auto, using(law_model::specs::Frames::units_opening))]

ghost use Rattle.std.specs.Prelude.{◌==◌, ◌≡◌, ◌≤◌, count_by, length};
ghost use Rattle.spec_model.specs.ByNumbers.{setting};
ghost use Rattle.spec_rules.specs.Settings.{Succeeds};

use demo_calls::{Planner, request};
use spec_model::{Setting, Slots};

// The words of two records.
const TWO_RECORDS: usize = spec_model::RECORD_WORDS * 2;

// A table that holds nothing, with intervals of so many time units.
fn opened(rt: &impl Print, units: u32) -> Planner
    requires { Succeeds (setting units 0) }
{
    Planner::show_opened(rt, Setting { units, header: 0 })
}

// What case 1 offers, and cases 4 and 10 go on from.
fn offers_of_case_1(rt: &impl Print) -> Planner {
    let mut planner = opened(rt, 1);
    planner.show_offers(
        rt,
        &[
            request(5, 1, 2, 100, 300, 4),
            request(7, 2, 2, 600, 1000, 4),
            request(9, 3, 1, 300, 0, 1),
        ],
    );
    planner
}

fn cases_1_to_3(rt: &impl Print, plan: &mut [u32]) {
    let _ = println!(rt; "case 1");
    let mut planner = offers_of_case_1(rt);
    planner.show_plan(rt, plan);
    let _ = println!(rt; "case 2");
    planner.show_plan(rt, plan);
    let _ = println!(rt; "case 3");
    planner.show_plan(rt, plan);
}

// The transfer is of stream 11.
fn case_4(rt: &impl Print) {
    let _ = println!(rt; "case 4");
    for min in [748, 749] {
        let mut planner = offers_of_case_1(rt);
        planner.show_offer(rt, request(11, 3, 2, min, 0, 2));
    }
}

fn case_5(rt: &impl Print, plan: &mut [u32]) {
    let _ = println!(rt; "case 5");
    let mut planner = opened(rt, 1);
    planner.show_offers(
        rt,
        &[
            request(1, 2, 2, 1024, 1024, 2),
            request(2, 2, 2, 1024, 1024, 2),
        ],
    );
    planner.show_plan(rt, plan);
    planner.show_withdraw(rt, 1);
    planner.show_offer(rt, request(3, 2, 1, 1, 1, 1));
}

fn cases_6_to_8(rt: &impl Print) {
    let _ = println!(rt; "case 6");
    let mut planner = opened(rt, 1);
    planner.show_offers(
        rt,
        &[request(1, 1, 2, 512, 512, 1), request(2, 1, 2, 1, 1, 1)],
    );
    let _ = println!(rt; "case 7");
    let thirds = request(1, 1, 3, 1, 1, 1);
    let mut planner = opened(rt, 1);
    planner.show_offer(rt, thirds);
    let mut planner = opened(rt, 3);
    planner.show_offer(rt, thirds);
    let _ = println!(rt; "case 8");
    let mut planner = opened(rt, 1);
    planner.show_offers(rt, &[request(1, 2, 2, 1, 1, 3), request(1, 2, 2, 1, 1, 4)]);
}

// Case 1's plan through the window. Then the refusals: one record more than the memory has, with from after until as well; the largest
// 32-bit count; two records that start together.
fn case_9(rt: &impl Print) {
    let _ = println!(rt; "case 9");
    let mut plan = [0u32; spec_model::PLAN_WORDS];
    let mut planner = offers_of_case_1(rt);
    let count = planner.show_beacon(rt, &mut plan).unwrap_or(0);
    let windows = [
        (count, 100, 512),
        (count, 512, 512),
        (count, 513, 512),
        (spec_model::MOST_RECORDS + 1, 513, 512),
        (4294967295, 100, 512),
    ];
    for (count, from, until) in windows {
        let _ = demo_calls::window(rt, &plan, count, Slots(from), Slots(until));
    }
    let together = [0u32; TWO_RECORDS];
    let _ = demo_calls::window(rt, &together, 2, Slots(100), Slots(512));
}

// How many words are this one.
fn count_of(word: u32, words: &[u32]) -> usize
    ensures { result ≡ count_by (λ w. w == word) words.now }
{
    words.iter().filter(|w| **w == word).count()
}

// How many words of the plan's memory are still what case 10 lends, 77,777.
fn show_untouched(rt: &impl Print, plan: &[u32]) {
    let count = count_of(77777, plan);
    let _ = println!(rt; "untouched {count}");
}

// Refused, the table and every word are as before; the same table then gives the plan of case 1.
fn case_10_lent(rt: &impl Print, planner: &mut Planner, lent: usize, plan: &mut [u32])
    requires { lent ≤ length plan.old }
{
    planner.show_plan(rt, &mut plan[..lent]);
    show_untouched(rt, plan);
}

fn case_10(rt: &impl Print) {
    let _ = println!(rt; "case 10");
    let mut plan = [77777u32; spec_model::PLAN_WORDS];
    let mut planner = offers_of_case_1(rt);
    let _ = planner.show_enquire(rt, 7);
    for lent in [spec_model::PLAN_WORDS - 1, spec_model::PLAN_WORDS] {
        case_10_lent(rt, &mut planner, lent, &mut plan);
        let _ = planner.show_enquire(rt, 7);
    }
    let mut clear = [77777u32; spec_model::PLAN_WORDS];
    case_10_lent(rt, &mut opened(rt, 1), spec_model::PLAN_WORDS, &mut clear);
}

// Not the document's: the lower stream number goes first within kind 1, and kind 2 before 3 whatever their numbers are.
fn two_of_our_own(rt: &impl Print, plan: &mut [u32]) {
    let _ = println!(rt; "our own: ties of kind 1");
    let mut planner = opened(rt, 1);
    planner.show_offers(
        rt,
        &[request(8, 1, 2, 200, 200, 1), request(6, 1, 2, 100, 100, 1)],
    );
    planner.show_plan(rt, plan);
    let _ = println!(rt; "our own: kind 2 before 3");
    let mut planner = opened(rt, 1);
    planner.show_offers(
        rt,
        &[request(2, 3, 2, 700, 0, 2), request(4, 2, 2, 800, 800, 2)],
    );
    planner.show_plan(rt, plan);
}

fn main(rt: HostRuntime) {
    let mut plan = [0u32; spec_model::PLAN_WORDS];
    cases_1_to_3(&rt, &mut plan);
    case_4(&rt);
    case_5(&rt, &mut plan);
    cases_6_to_8(&rt);
    case_9(&rt);
    case_10(&rt);
    two_of_our_own(&rt, &mut plan);
}
