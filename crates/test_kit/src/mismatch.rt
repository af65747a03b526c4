ghost use Rattle.std.specs.Prelude.{◌≡◌, ◌↔◌, IsOk};
ghost use Rattle.test_kit.specs.declared.mismatch.Mismatch.TheVariants as mismatch;

use std::alloc::{AllocError, Global};

/// Why a test fails.
#[derive(Debug, Drop)]
pub enum Mismatch {
    /// What was told of a case, and what was to be told.
    Told {
        of: String,
        told: String,
        want: String,
    },
    /// What else is wrong with a case: a line or a part of it that has not the form that is
    /// needed, or what differs.
    Case(String),
    Memory,
}

impl From<AllocError> for Mismatch {
    ghost from_gives = { λ _ e. e ≡ mismatch.Memory };

    fn from(_: AllocError) -> Self {
        Mismatch::Memory
    }
}

/// Whether what was told of a case is what was to be told. Want of memory comes in the
/// place of a mismatch alone.
pub fn compare(alloc: Global, of: &str, told: &str, want: &str) -> Result<(), Mismatch>
    ensures { IsOk result ↔ (told.now ≡ want.now) }
{
    if told == want {
        return Ok(());
    }
    Err(Mismatch::Told {
        of: String::from_str(alloc, of)?,
        told: String::from_str(alloc, told)?,
        want: String::from_str(alloc, want)?,
    })
}
