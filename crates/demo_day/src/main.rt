// A day of a school with 30 readers, streams 1 to 30: six lessons of read-aloud streams (kinds 1 and 2), and loans of books (kind 3)
// that are due before a bell. A row is printed for each call, and for each record of some plans; the rows of the day are stored beside
// this file, in `stdout`, and every run is held to them. An interval has 100 time units, 102,400 slots.
#![tactic(auto, using(law_model::specs::Frames::units_opening))]

use demo_calls::{Planner, request};
use spec_model::{Intervals, Setting};

// ---- many at once
fn leavers(rt: &impl Print, planner: &mut Planner, first: u32, end: u32) {
    for stream in first..end {
        planner.show_withdraw(rt, stream);
    }
}

// Intervals whose plans are not printed.
fn intervals(rt: &impl Print, planner: &mut Planner, count: Intervals, plan: &mut [u32]) {
    for _ in 0..count.0 {
        let _ = planner.show_beacon(rt, plan);
    }
}

// Three whose plans are.
fn three_plans(rt: &impl Print, planner: &mut Planner, plan: &mut [u32]) {
    for _ in 0..3 {
        planner.show_plan(rt, plan);
    }
}

// ---- the lessons
// All 30 read aloud, for the lesson's four intervals. Two loans fill the table: a third has no place until one of them is done.
fn first_lesson(rt: &impl Print, planner: &mut Planner, plan: &mut [u32]) {
    let _ = println!(rt; "lesson 1");
    planner.show_offer_each(rt, request(1, 1, 4, 200, 400, 4), 31);
    planner.show_offers(
        rt,
        &[
            request(101, 3, 4, 250000, 0, 4),
            request(102, 3, 2, 60000, 0, 2),
            request(103, 3, 3, 1000, 0, 3),
        ],
    );
    intervals(rt, planner, Intervals(2), plan);
    planner.show_offer(rt, request(103, 3, 2, 1000, 0, 2));
    intervals(rt, planner, Intervals(2), plan);
}

// Four read in fractions of the interval, and four send pages over two intervals each.
fn second_lesson(rt: &impl Print, planner: &mut Planner, plan: &mut [u32]) {
    let _ = println!(rt; "lesson 2");
    planner.show_offer_each(rt, request(1, 1, 2, 5000, 9000, 4), 5);
    planner.show_offer_each(rt, request(5, 2, 2, 20000, 60000, 4), 9);
    for _ in 0..2 {
        planner.show_plan(rt, plan);
        let _ = planner.show_enquire(rt, 5);
    }
    intervals(rt, planner, Intervals(2), plan);
}

// Offers with a field outside its range, and streams that are or are not held.
fn third_lesson(rt: &impl Print, planner: &mut Planner, plan: &mut [u32]) {
    let _ = println!(rt; "lesson 3");
    planner.show_offers(
        rt,
        &[
            request(0, 1, 2, 1, 1, 3),
            request(65536, 1, 2, 1, 1, 3),
            request(12, 1, 5, 1000, 2000, 3),
            request(12, 1, 5, 1000, 2000, 3),
            request(13, 0, 2, 1, 1, 3),
            request(13, 4, 2, 1, 1, 3),
            request(13, 1, 3, 1, 1, 3),
            request(13, 1, 17, 1, 1, 3),
            request(13, 2, 256, 1, 1, 256),
            request(13, 1, 2, 2, 1, 3),
            request(13, 1, 2, 1, 51201, 3),
            request(13, 3, 2, 1, 1, 2),
            request(13, 2, 2, 1, 1, 3),
            request(13, 3, 2, 1, 0, 3),
        ],
    );
    planner.show_withdraw(rt, 13);
    let _ = planner.show_enquire(rt, 13);
    planner.show_offer(rt, request(13, 2, 3, 30000, 30000, 3));
    planner.show_plan(rt, plan);
    planner.show_withdraw(rt, 12);
    planner.show_plan(rt, plan);
    intervals(rt, planner, Intervals(1), plan);
}

// Loans take all that the readers leave, to the last slot; one slot more has no time.
fn fourth_lesson(rt: &impl Print, planner: &mut Planner, plan: &mut [u32]) {
    let _ = println!(rt; "lesson 4");
    planner.show_offer_each(rt, request(21, 1, 2, 10000, 20000, 3), 24);
    planner.show_offers(
        rt,
        &[
            request(104, 3, 1, 42401, 0, 1),
            request(104, 3, 1, 42400, 0, 1),
            request(105, 3, 2, 42401, 0, 2),
            request(105, 3, 2, 40000, 0, 2),
            request(106, 3, 3, 44801, 0, 3),
            request(106, 3, 3, 44800, 0, 3),
        ],
    );
    three_plans(rt, planner, plan);
}

// A departure frees the slots to come, and no slot that is gone.
fn fifth_lesson(rt: &impl Print, planner: &mut Planner, plan: &mut [u32]) {
    let _ = println!(rt; "lesson 5");
    planner.show_offer_each(rt, request(24, 2, 2, 102400, 102400, 4), 26);
    intervals(rt, planner, Intervals(1), plan);
    planner.show_withdraw(rt, 24);
    let _ = planner.show_enquire(rt, 25);
    planner.show_offer(rt, request(26, 2, 1, 1, 1, 1));
    planner.show_offer(rt, request(26, 2, 3, 102400, 204800, 3));
    three_plans(rt, planner, plan);
}

// All come back to read, and go home before the bell.
fn sixth_lesson(rt: &impl Print, planner: &mut Planner, plan: &mut [u32]) {
    let _ = println!(rt; "lesson 6");
    planner.show_offer_each(rt, request(1, 2, 1, 2000, 4000, 8), 31);
    intervals(rt, planner, Intervals(3), plan);
    leavers(rt, planner, 3, 31);
    planner.show_plan(rt, plan);
    leavers(rt, planner, 1, 4);
    planner.show_plan(rt, plan);
}

// A table that holds nothing, with intervals of 100 time units.
fn opened(rt: &impl Print) -> Planner {
    Planner::show_opened(
        rt,
        Setting {
            units: 100,
            header: 0,
        },
    )
}

fn main(rt: HostRuntime) {
    for units in [0, 1001] {
        let _ = Planner::show_open(&rt, Setting { units, header: 0 });
    }
    let mut plan = [0u32; spec_model::PLAN_WORDS];
    let mut planner = opened(&rt);
    first_lesson(&rt, &mut planner, &mut plan);
    second_lesson(&rt, &mut planner, &mut plan);
    third_lesson(&rt, &mut planner, &mut plan);
    fourth_lesson(&rt, &mut planner, &mut plan);
    fifth_lesson(&rt, &mut planner, &mut plan);
    sixth_lesson(&rt, &mut planner, &mut plan);
}
