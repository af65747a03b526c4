// Seats of a board of ticks.
ghost use Rattle.std.specs.Prelude.{◌≡◌};
ghost use Rattle.pulse_board.specs.Seats.{IsSeatOf};

use pulse_board::{Board, BoardSeat};
use std::test::Fail;
use std::thread::{Threads, join};

#[test]
fn ticks_are_counted_and_a_halt_stays(rt: HostRuntime) -> Result<(), Fail> {
    let (board, mut seat) = Board::new(rt.alloc())?;
    assert!(rt; board.tick(&mut seat) == 1 && board.tick(&mut seat) == 2);
    let mut other = board.split(&mut seat);
    assert!(rt; board.ticks(&mut other) == 2 && !board.halted(&mut other));
    board.halt(&mut seat);
    assert!(rt; board.halted(&mut other) && board.halted(&mut seat));
    board.join(&mut seat, other);
    assert!(rt; board.halted(&mut seat) && board.ticks(&mut seat) == 2);
    Ok(())
}

#[test]
fn seats_of_seats_tick_and_are_joined(rt: HostRuntime) -> Result<(), Fail> {
    let (board, mut first) = Board::new(rt.alloc())?;
    let mut second = board.split(&mut first);
    let mut third = board.split(&mut second);
    let mut fourth = board.split(&mut second);
    assert!(rt; board.tick(&mut fourth) == 1 && board.tick(&mut third) == 2);
    board.join(&mut second, fourth);
    board.join(&mut third, second);
    assert!(rt; board.tick(&mut third) == 3 && board.tick(&mut first) == 4);
    board.join(&mut first, third);
    assert!(rt; board.ticks(&mut first) == 4 && !board.halted(&mut first));
    Ok(())
}

// A tick for each place.
fn fill(board: &Board, mut seat: BoardSeat, mut numbers: Vec<u64>) -> (BoardSeat, Vec<u64>)
    requires { IsSeatOf board.now seat }
    ensures { IsSeatOf board.now result.0 }
{
    for number in numbers.iter_mut() {
        *number = board.tick(&mut seat);
    }
    (seat, numbers)
}

// The same by two threads, with a seat each.
fn fill_both<R: Threads + Sync>(
    rt: &R,
    board: &Board,
    mut seat: BoardSeat,
    first: Vec<u64>,
    second: Vec<u64>,
) -> (BoardSeat, Vec<u64>, Vec<u64>)
    requires { IsSeatOf board.now seat }
    ensures { IsSeatOf board.now result.0 }
{
    let other = board.split(&mut seat);
    let ((mut seat, first), (other, second)) = join(
        rt,
        || -> (BoardSeat, Vec<u64>)
            requires { IsSeatOf board.now seat }
            ensures { IsSeatOf board.entry.now result.0 }
        { fill(board, seat, first) },
        || -> (BoardSeat, Vec<u64>)
            requires { IsSeatOf board.now other }
            ensures { IsSeatOf board.entry.now result.0 }
        { fill(board, other, second) },
    );
    board.join(&mut seat, other);
    (seat, first, second)
}

#[test]
fn four_threads_tick_each_number_once(rt: HostRuntime) -> Result<(), Fail> {
    let (board, mut seat) = Board::new(rt.alloc())?;
    let a = vec![in rt.alloc(); 0u64; 1000]?;
    let b = vec![in rt.alloc(); 0u64; 1000]?;
    let c = vec![in rt.alloc(); 0u64; 1000]?;
    let d = vec![in rt.alloc(); 0u64; 1000]?;
    let other = board.split(&mut seat);
    let ((mut seat, mut all, b), (other, c, d)) = join(
        &rt,
        || -> (BoardSeat, Vec<u64>, Vec<u64>)
            requires { IsSeatOf board seat }
            ensures { IsSeatOf board result.0 }
        { fill_both(&rt, &board, seat, a, b) },
        || -> (BoardSeat, Vec<u64>, Vec<u64>)
            requires { IsSeatOf board other }
            ensures { IsSeatOf board result.0 }
        { fill_both(&rt, &board, other, c, d) },
    );
    board.join(&mut seat, other);
    assert!(rt; board.ticks(&mut seat) == 4000);
    all.extend_from_slice(b.as_slice())?;
    all.extend_from_slice(c.as_slice())?;
    all.extend_from_slice(d.as_slice())?;
    all.sort_unstable();
    let mut next = 0u64;
    for number in &all {
        next = next.wrapping_add(1);
        assert!(rt; *number == next);
    }
    assert!(rt; next == 4000);
    Ok(())
}
