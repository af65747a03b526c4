// Tables of calls, by one seat and by two.
ghost use Rattle.std.specs.Prelude.{◌≡◌, IfOk};
ghost use Rattle.shared_ledger.specs.Seats.{IsSeatOf, roots_of};

use crate::steps::{ROOTS, Step, are_met};
use shared_ledger::{SharedLedger, WordTold};
use std::alloc::Global;
use std::test::Fail;
use storm_values::Memory;

const TOGGLED_TO_ZERO: &[Step] = &[
    Step::Init(0, 5, 5),
    Step::Ack(0, 0, WordTold::Open),
    Step::Ack(0, 3, WordTold::Open),
    Step::Ack(0, 6, WordTold::Zero),
    Step::State(0, 0, false),
    // an ack after that
    Step::Ack(0, 6, WordTold::Open),
    Step::State(0, 6, false),
    Step::Ack(0, 6, WordTold::Zero),
    // a second init toggles like the first
    Step::Init(0, 9, 9),
    Step::Init(0, 3, 10),
    Step::Ack(0, 10, WordTold::Zero),
];

// A fail leaves the word, and stays.
const FAILED: &[Step] = &[
    Step::Init(0, 12, 12),
    Step::Fail(0),
    Step::State(0, 12, true),
    Step::Ack(0, 12, WordTold::Zero),
    Step::Fail(0),
    Step::State(0, 0, true),
    Step::Init(0, 1, 1),
    Step::State(0, 1, true),
    // before an init
    Step::Fail(7),
    Step::State(7, 0, true),
    Step::State(6, 0, false),
    Step::State(8, 0, false),
];

// Where there was no init, 0 is not told.
const WITHOUT_INIT: &[Step] = &[
    Step::State(3, 0, false),
    Step::Ack(3, 0, WordTold::Open),
    Step::Ack(3, 8, WordTold::Open),
    Step::Ack(3, 8, WordTold::Open),
    Step::Ack(3, 2, WordTold::Open),
    // after acks that came early
    Step::Init(3, 3, 1),
    Step::Ack(3, 1, WordTold::Zero),
];

// Roots at the ends of the words in which a seat marks what it has seen, and large words.
const MANY_ROOTS: &[Step] = &[
    Step::Init(0, 1, 1),
    Step::Init(63, 2, 2),
    Step::Init(64, 18446744073709551615, 18446744073709551615),
    Step::Init(127, 4, 4),
    Step::Init(1023, 9223372036854775808, 9223372036854775808),
    Step::Ack(1, 0, WordTold::Open),
    Step::Ack(62, 0, WordTold::Open),
    Step::Ack(65, 0, WordTold::Open),
    Step::Ack(126, 0, WordTold::Open),
    Step::Ack(128, 0, WordTold::Open),
    Step::Ack(1022, 0, WordTold::Open),
    Step::Fail(127),
    Step::Ack(64, 18446744073709551614, WordTold::Open),
    Step::Ack(64, 1, WordTold::Zero),
    Step::Ack(1023, 9223372036854775808, WordTold::Zero),
    Step::Ack(0, 1, WordTold::Zero),
    Step::State(63, 2, false),
    Step::State(127, 4, true),
    Step::State(64, 0, false),
    Step::Ack(63, 2, WordTold::Zero),
];

// Of each table the last call has another answer.
const NOT_MET: &[&[Step]] = &[
    &[Step::Init(0, 5, 0)],
    &[Step::Init(1, 5, 5), Step::Ack(1, 5, WordTold::Open)],
    &[Step::Ack(2, 0, WordTold::Zero)],
    &[Step::State(3, 1, false)],
    &[Step::State(4, 0, true)],
    &[Step::Fail(1024)],
];

// A new ledger meets the table.
fn is_table_met(alloc: Global, steps: &[Step]) -> Result<bool, Memory> {
    let (ledger, mut seat) = SharedLedger::new(alloc, ROOTS)?;
    Ok(are_met(&ledger, &mut seat, steps))
}

#[test]
fn a_word_is_toggled_to_zero(rt: HostRuntime) -> Result<(), Fail> {
    assert!(rt; is_table_met(rt.alloc(), TOGGLED_TO_ZERO)?);
    Ok(())
}

#[test]
fn a_fail_stays(rt: HostRuntime) -> Result<(), Fail> {
    assert!(rt; is_table_met(rt.alloc(), FAILED)?);
    Ok(())
}

#[test]
fn zero_is_not_told_without_an_init(rt: HostRuntime) -> Result<(), Fail> {
    assert!(rt; is_table_met(rt.alloc(), WITHOUT_INIT)?);
    Ok(())
}

#[test]
fn roots_have_words_of_their_own(rt: HostRuntime) -> Result<(), Fail> {
    assert!(rt; is_table_met(rt.alloc(), MANY_ROOTS)?);
    Ok(())
}

#[test]
fn tables_that_are_not_met(rt: HostRuntime) -> Result<(), Fail> {
    for steps in NOT_MET {
        assert!(rt; !is_table_met(rt.alloc(), steps)?);
    }
    Ok(())
}

// ---- a seat that is split and joined again

// What the first seat does before the split; after that the new seat, and the first one again.
const BEFORE: &[Step] = &[Step::Init(0, 5, 5), Step::Fail(1)];

const SECOND: &[Step] = &[
    // it has seen the init of its parent
    Step::Ack(0, 5, WordTold::Zero),
    Step::Init(2, 6, 6),
    Step::Fail(3),
    Step::State(1, 0, true),
];

const FIRST: &[Step] = &[
    // it has not seen the init of the other
    Step::Ack(2, 6, WordTold::Open),
    Step::State(2, 0, false),
    Step::State(3, 0, true),
    Step::Init(4, 7, 7),
];

const SECOND_AGAIN: &[Step] = &[
    Step::Ack(4, 7, WordTold::Open),
    Step::State(4, 0, false),
    Step::Ack(2, 0, WordTold::Zero),
];

// The joined seat has seen what either has.
const JOINED: &[Step] = &[
    Step::Ack(0, 0, WordTold::Zero),
    Step::Ack(2, 0, WordTold::Zero),
    Step::Ack(4, 0, WordTold::Zero),
    Step::Ack(5, 0, WordTold::Open),
    Step::State(1, 0, true),
    Step::State(3, 0, true),
    Step::State(4, 0, false),
];

// The two seats, and then the one that they are joined into, meet their tables.
fn are_both_met(alloc: Global) -> Result<bool, Memory> {
    let (ledger, mut first) = SharedLedger::new(alloc, ROOTS)?;
    let before = are_met(&ledger, &mut first, BEFORE);
    let mut second = ledger.split(&mut first);
    let apart = are_met(&ledger, &mut second, SECOND)
        && are_met(&ledger, &mut first, FIRST)
        && are_met(&ledger, &mut second, SECOND_AGAIN);
    ledger.join(&mut first, second);
    Ok(before && apart && are_met(&ledger, &mut first, JOINED))
}

#[test]
fn seats_see_what_their_parents_saw(rt: HostRuntime) -> Result<(), Fail> {
    assert!(rt; are_both_met(rt.alloc())?);
    Ok(())
}
