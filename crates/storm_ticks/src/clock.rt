// The ticks of a clock. It does not tell what it answers.
ghost use Rattle.std.specs.Prelude.{◌≡◌, ◌+◌, ◌-◌, ◌/◌, ◌^◌, ◌<◌, ◌≤◌, IsSome};
ghost use Rattle.std.specs.Time.{instant_nanos};
ghost use Rattle.storm_ticks.specs.Ticking.{handed_on, ticks_due, ticks_in};

use crate::ticks::Ticks;
use std::time::{Clock, Instant};

const SECONDS_A_TICK: u64 = 10;

/// After a look at the clock so many calls answer 0 without one, since a call comes each round, of
/// some microseconds, and a look costs as much as a message.
const CALLS_WITHOUT_A_LOOK: u32 = 15;

/// How many ticks are due when so many whole seconds went by and so many ticks were handed out, at
/// most 2^32 - 1 at once.
pub fn ticks_at(seconds: u64, handed_out: u64) -> u32
    ensures due { result ≡ ticks_due seconds handed_out }
    ensures not_ahead { handed_out ≤ ticks_in seconds → handed_out + result ≤ ticks_in seconds }
    ensures not_behind { ticks_in seconds < handed_out + 2 ^ 32
        → ticks_in seconds ≤ handed_out + result }
{
    let passed = seconds / SECONDS_A_TICK;
    u32::try_from(passed.saturating_sub(handed_out)).unwrap_or(u32::MAX)
}

// The whole seconds from a first reading to a later one, or 0 where the clock went back.
fn seconds_between(first: Instant, now: Instant) -> u64
    ensures { result ≡ (instant_nanos now - instant_nanos first) / 1_000_000_000 }
{
    now.duration_since(first).as_secs()
}

// The whole seconds since the first reading, or 0 where the clock cannot be read. The first reading
// is taken where there is none yet.
fn seconds_passed(clock: &impl Clock, first: &mut Option<Instant>) -> u64
    ensures kept { IsSome first.old → first.new ≡ first.old }
{
    let Ok(now) = Instant::now(clock) else {
        return 0;
    };
    match *first {
        Some(first) => seconds_between(first, now),
        None => {
            *first = Some(now);
            0
        }
    }
}

// No ticks, after so many that were handed out.
fn none_after(handed_out: u64) -> u32
    ensures none { result ≡ 0 }
    ensures counted { handed_on handed_out result ≡ handed_out }
{
    let _ = handed_out;
    0
}

/// One tick each 10 seconds of the monotonic clock since this was made, or since the clock could
/// first be read. It looks at the clock at its first call and then at each sixteenth. No tick
/// passes in a call between, nor in one that finds the clock unreadable; a later one makes up for
/// it.
#[derive(Drop)]
pub struct ClockTicks<R: Clock> {
    clock: R,
    first: Option<Instant>,
    handed_out: u64,
    // how many calls are to come before the next look
    without_a_look: u32,
}

impl<R: Clock> ClockTicks<R> {
    pub fn new(clock: R) -> Self
        ensures { ⟦<ClockTicks<R> as Ticks>⟧.handed_out result ≡ 0 }
    {
        let first = Instant::now(&clock).ok();
        ClockTicks {
            clock,
            first,
            handed_out: 0,
            without_a_look: 0,
        }
    }

    // The answer when so many whole seconds went by.
    fn passed_at(&mut self, seconds: u64) -> u32
        ensures due { result ≡ ticks_due seconds self.old.handed_out }
        ensures counted { self.new.handed_out ≡ handed_on self.old.handed_out result }
    {
        let ticks = ticks_at(seconds, self.handed_out);
        self.handed_out = self.handed_out.saturating_add(u64::from(ticks));
        ticks
    }

    /// How many ticks were handed out. The count ends at 2^64 - 1.
    pub fn handed_out(&self) -> u64
        ensures { ⟦<ClockTicks<R> as Ticks>⟧.handed_out self.now ≡ result }
    {
        self.handed_out
    }
}

impl<R: Clock> Ticks for ClockTicks<R> {
    ghost handed_out = { λ t. t.handed_out };

    ghost tells = { λ _ _. ⊥ };

    fn passed(&mut self) -> u32 {
        if self.without_a_look > 0 {
            self.without_a_look -= 1;
            return none_after(self.handed_out);
        }
        self.without_a_look = CALLS_WITHOUT_A_LOOK;
        let seconds = seconds_passed(&self.clock, &mut self.first);
        self.passed_at(seconds)
    }
}
