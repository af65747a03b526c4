// Where rows go, by hand from the rule of each grouping.
use crate::calls::{Call, check_calls, router_of, row_of};
use groupings::Targets;
use test_kit::Mismatch;
use topology_plan::Origin;

// Two shuffles of one source. Bolt `two` has the tasks 0 and 1, `three` 2 to 4.
const SHUFFLES: &str = r#"{"version":1,
 "spout":{"name":"words","kind":"transactional","fields":["kind","word"],"batch":1},
 "bolts":[
  {"name":"two","tasks":2,"op":{"do":"custom"},"inputs":[{"from":"words","grouping":"shuffle"}]},
  {"name":"three","tasks":3,"op":{"do":"custom"},"inputs":[{"from":"words","grouping":"shuffle"}]}],
 "states":[{"name":"counts","kind":"transactional","parts":1,"key":["word"],
   "fold":"count","inputs":["two","three"]}]}"#;

// Calls on both with the start words 0.
const IN_TURN: [Call; 9] = [
    (0, "[0,0]", Targets::One(0)),
    (1, "[0,0]", Targets::One(2)),
    (1, "[0,0]", Targets::One(3)),
    (0, "[0,0]", Targets::One(1)),
    (1, "[0,0]", Targets::One(4)),
    (0, "[0,0]", Targets::One(0)),
    (0, "[0,0]", Targets::One(1)),
    (1, "[0,0]", Targets::One(2)),
    (0, "[0,0]", Targets::One(0)),
];

#[test]
fn subscriptions_of_one_source_keep_counters_apart(rt: HostRuntime) -> Result<(), Mismatch> {
    check_calls(rt.alloc(), SHUFFLES, Origin::Spout, &[0, 0], &IN_TURN)
}

#[test]
fn a_call_allows_the_next(rt: HostRuntime) -> Result<(), Mismatch> {
    let alloc = rt.alloc();
    let mut router = router_of(alloc, SHUFFLES, Origin::Spout, &[0, 0])?;
    let row = row_of(alloc, "[0,0]")?;
    assert!(rt; router.route(1, &row) == Targets::One(2));
    assert!(rt; router.route(0, &row) == Targets::One(0));
    assert!(rt; router.route(1, &row) == Targets::One(3));
    Ok(())
}

// With the start words 2^64 - 1 and 2^64 - 2. 2^64 is 0 modulo 2 and 1 modulo 3, so the calls on
// `three` give 2, 0, 1 and 2 more than its first task.
const FROM_THE_LAST: [Call; 7] = [
    (0, "[0,0]", Targets::One(1)),
    (0, "[0,0]", Targets::One(0)),
    (0, "[0,0]", Targets::One(1)),
    (1, "[0,0]", Targets::One(4)),
    (1, "[0,0]", Targets::One(2)),
    (1, "[0,0]", Targets::One(3)),
    (1, "[0,0]", Targets::One(4)),
];

// With the start words 2^64 - 2 and 2^64 - 1.
const TO_THE_LAST: [Call; 7] = [
    (0, "[0,0]", Targets::One(0)),
    (0, "[0,0]", Targets::One(1)),
    (0, "[0,0]", Targets::One(0)),
    (1, "[0,0]", Targets::One(2)),
    (1, "[0,0]", Targets::One(3)),
    (1, "[0,0]", Targets::One(4)),
    (1, "[0,0]", Targets::One(2)),
];

#[test]
fn start_words_near_their_end_do_not_wrap(rt: HostRuntime) -> Result<(), Mismatch> {
    let alloc = rt.alloc();
    let (last, before) = (u64::MAX, u64::MAX - 1);
    check_calls(
        alloc,
        SHUFFLES,
        Origin::Spout,
        &[last, before],
        &FROM_THE_LAST,
    )?;
    check_calls(
        alloc,
        SHUFFLES,
        Origin::Spout,
        &[before, last],
        &TO_THE_LAST,
    )
}

// Every grouping. The bolts have the tasks 0 to 3, 4 to 6, 7 to 9, 10 and 11, 12 to 14, 15 to 17
// and 18 to 21.
const GROUPINGS: &str = r#"{"version":1,
 "spout":{"name":"words","kind":"transactional","fields":["kind","word"],"batch":1},
 "bolts":[
  {"name":"pick","tasks":4,"op":{"do":"route","field":"word"},
   "inputs":[{"from":"words","grouping":"fields","key":["word"]}]},
  {"name":"every","tasks":3,"op":{"do":"custom"},"inputs":[{"from":"words","grouping":"all"}]},
  {"name":"one","tasks":3,"op":{"do":"custom"},"inputs":[{"from":"words","grouping":"global"}]},
  {"name":"any","tasks":2,"op":{"do":"custom"},"inputs":[{"from":"words","grouping":"none"}]},
  {"name":"near","tasks":3,"op":{"do":"custom"},
   "inputs":[{"from":"words","grouping":"local_or_shuffle"}]},
  {"name":"even","tasks":3,"op":{"do":"custom"},"inputs":[{"from":"words","grouping":"shuffle"}]},
  {"name":"picked","tasks":4,"op":{"do":"custom"},"inputs":[{"from":"pick","grouping":"direct"}]}],
 "states":[{"name":"counts","kind":"transactional","parts":1,"key":["word"],
   "fold":"count","inputs":["every","one","any","near","even","picked"]}]}"#;

// The hash of `a` is 0 modulo 4, and that of the empty text 1.
const FROM_SPOUT: [Call; 16] = [
    (0, r#"["x","a"]"#, Targets::One(0)),
    (0, r#"["x",""]"#, Targets::One(1)),
    (0, r#"["y","a"]"#, Targets::One(0)),
    (1, r#"["x","a"]"#, Targets::All { first: 4, count: 3 }),
    (1, r#"["x",""]"#, Targets::All { first: 4, count: 3 }),
    (2, r#"["x","a"]"#, Targets::One(7)),
    (2, r#"["x",""]"#, Targets::One(7)),
    (3, r#"["x","a"]"#, Targets::One(11)),
    (4, r#"["x","a"]"#, Targets::One(13)),
    (5, r#"["x","a"]"#, Targets::One(16)),
    (3, r#"["x",""]"#, Targets::One(10)),
    (4, r#"["x",""]"#, Targets::One(14)),
    (5, r#"["x",""]"#, Targets::One(17)),
    (3, r#"["y","a"]"#, Targets::One(11)),
    (4, r#"["y","a"]"#, Targets::One(12)),
    (5, r#"["y","a"]"#, Targets::One(15)),
];

#[test]
fn rows_go_by_the_grouping(rt: HostRuntime) -> Result<(), Mismatch> {
    let starts = [0, 0, 0, 5, 7, 7];
    check_calls(rt.alloc(), GROUPINGS, Origin::Spout, &starts, &FROM_SPOUT)
}

const DIRECT: [Call; 7] = [
    (0, r#"["x",-1]"#, Targets::One(21)),
    (0, r#"["x",0]"#, Targets::One(18)),
    (0, r#"["x",5]"#, Targets::One(19)),
    (0, r#"["x",-4]"#, Targets::One(18)),
    (0, r#"["x",-9223372036854775808]"#, Targets::One(18)),
    (0, r#"["x","a"]"#, Targets::One(18)),
    (0, r#"["x",""]"#, Targets::One(19)),
];

#[test]
fn direct_goes_by_the_field_alone(rt: HostRuntime) -> Result<(), Mismatch> {
    check_calls(rt.alloc(), GROUPINGS, Origin::Component(0), &[0], &DIRECT)
}

// A call that goes elsewhere, and one on a subscription that is not there.
const ELSEWHERE: [Call; 1] = [(0, "[0,0]", Targets::One(1))];

const BEYOND: [Call; 1] = [(2, "[0,0]", Targets::One(0))];

fn is_case(outcome: Result<(), Mismatch>) -> bool {
    matches!(outcome, Err(Mismatch::Case(_)))
}

#[test]
fn calls_that_are_not_met(rt: HostRuntime) {
    let alloc = rt.alloc();
    let from = Origin::Spout;
    assert!(rt; is_case(check_calls(alloc, SHUFFLES, from, &[0, 0], &ELSEWHERE)));
    assert!(rt; is_case(check_calls(alloc, SHUFFLES, from, &[0, 0], &BEYOND)));
    assert!(rt; is_case(check_calls(alloc, SHUFFLES, from, &[0], &IN_TURN)));
}
