//! The partitions of a spout that are shut, as bits.
ghost use Rattle.std.specs.Prelude.{◌≡◌, ◌<◌};
ghost use Rattle.event_worlds.specs.Worlds.{open_with, shut_with};
ghost use Rattle.event_worlds.specs.record_offers.Offers.{is_shut};

/// Whether the bit of a partition is set.
pub(crate) fn has_shut(shut: u16, partition: u32) -> bool
    requires { partition < 16 }
    ensures { result ≡ is_shut shut partition }
{
    (shut >> partition) & 1 == 1
}

/// A partition is shut too.
pub(crate) fn with_shut(shut: u16, partition: u32) -> u16
    requires { partition < 16 }
    ensures { result ≡ shut_with partition shut }
{
    shut | (1 << partition)
}

/// A partition is open.
pub(crate) fn with_open(shut: u16, partition: u32) -> u16
    requires { partition < 16 }
    ensures { result ≡ open_with partition shut }
{
    let bit = 1 << partition;
    if shut & bit == 0 {
        return shut;
    }
    shut - bit
}
