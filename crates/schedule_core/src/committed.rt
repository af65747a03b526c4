ghost use Rattle.std.specs.Prelude.{◌≡◌, length};
ghost use Rattle.event_worlds.specs.attempt_fates.Fates.{committed, is_committed};

use event_worlds::attempt_fates::{Attempt, End};

/// How many batches were committed.
pub fn committed_in(fates: &[Attempt]) -> u64
    ensures { result ≡ length (committed fates.now) }
{
    let mut count = 0;
    for attempt in fates {
        if is_committed(&attempt.end) {
            count += 1;
        }
    }
    count
}

fn is_committed(end: &End) -> bool
    ensures { result ≡ is_committed end.now }
{
    matches!(end, End::Committed(_))
}
