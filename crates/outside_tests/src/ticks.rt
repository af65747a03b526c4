// Ticks of a script, and of a clock.
use std::cell::Cell;
use std::io;
use std::test::Fail;
use std::time::{Clock, Duration};
use storm_outside::{ClockTicks, ScriptTicks, Ticks, ticks_at};
use storm_values::Indexes;

// A call through the bound.
fn ask<T: Ticks>(ticks: &mut T) -> u32 {
    ticks.passed()
}

// The first call that looks at a clock again answers this: none of the fifteen before it does.
fn ask_at_the_next_look<T: Ticks>(ticks: &mut T) -> u32 {
    for _ in 0..15 {
        if ticks.passed() > 0 {
            return u32::MAX;
        }
    }
    ticks.passed()
}

#[test]
fn answers_of_a_script_and_then_none(rt: HostRuntime) -> Result<(), Fail> {
    let answers = Indexes::from_vec([0, 3].to_vec(rt.alloc())?);
    let mut ticks = ScriptTicks::new(answers);
    for want in [0, 3, 0, 0] {
        assert_eq!(rt; ask(&mut ticks), want);
    }
    assert_eq!(rt; ticks.handed_out(), 3);
    Ok(())
}

#[test]
fn an_empty_script_answers_none(rt: HostRuntime) {
    let mut ticks = ScriptTicks::new(Indexes::new(rt.alloc()));
    for _ in 0..2 {
        assert_eq!(rt; ask(&mut ticks), 0);
    }
    assert_eq!(rt; ticks.handed_out(), 0);
}

#[test]
fn the_systems_clock_answers_none_at_first(rt: HostRuntime) {
    let mut ticks = ClockTicks::new(&rt);
    assert_eq!(rt; ask(&mut ticks), 0);
    assert_eq!(rt; ticks.handed_out(), 0);
}

// A clock that is set by hand, and unreadable where it is set to none.
#[derive(Drop)]
struct SetClock {
    seconds: Cell<Option<u64>>,
}

impl Clock for &SetClock {
    fn monotonic(&self) -> io::Result<Duration> {
        match self.seconds.get() {
            Some(seconds) => Ok(Duration::from_secs(seconds)),
            None => Err(io::ErrorKind::Other.into()),
        }
    }

    fn since_1970(&self) -> io::Result<Duration> {
        self.monotonic()
    }
}

#[test]
fn a_tick_passes_each_ten_seconds(rt: HostRuntime) {
    let clock = SetClock {
        seconds: Cell::new(Some(7)),
    };
    let mut ticks = ClockTicks::new(&clock);
    assert_eq!(rt; ask(&mut ticks), 0);
    // what the clock reads, the ticks passed
    let table = [
        (Some(16), 0),
        (Some(17), 1),
        (Some(26), 0),
        (None, 0),
        (Some(49), 3),
        (Some(30), 0),
        (Some(57), 1),
    ];
    for (reads, want) in table {
        clock.seconds.set(reads);
        assert_eq!(rt; ask_at_the_next_look(&mut ticks), want);
    }
    assert_eq!(rt; ticks.handed_out(), 5);
}

#[test]
fn an_unreadable_clock_counts_from_its_first_reading(rt: HostRuntime) {
    let clock = SetClock {
        seconds: Cell::new(None),
    };
    let mut ticks = ClockTicks::new(&clock);
    assert_eq!(rt; ask(&mut ticks), 0);
    // what the clock reads, the ticks passed
    for (reads, want) in [(None, 0), (Some(40), 0), (Some(49), 0), (Some(50), 1)] {
        clock.seconds.set(reads);
        assert_eq!(rt; ask_at_the_next_look(&mut ticks), want);
    }
}

#[test]
fn at_most_so_many_ticks_at_once(rt: HostRuntime) {
    // whole seconds, the ticks handed out, the ticks due
    let table = [
        (9, 0, 0),
        (10, 0, 1),
        (10, 1, 0),
        (10, 7, 0),
        (42_949_672_949, 0, u32::MAX - 1),
        (42_949_672_950, 0, u32::MAX),
        (42_949_672_960, 0, u32::MAX),
        (42_949_672_960, u64::from(u32::MAX), 1),
    ];
    for (seconds, handed_out, want) in table {
        assert_eq!(rt; ticks_at(seconds, handed_out), want);
    }
}
