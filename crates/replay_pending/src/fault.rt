use thiserror::Error;

/// Why no root begins.
#[derive(Clone, Copy, Debug, PartialEq, Eq, Error)]
pub enum BeginFault {
    /// As many roots are pending as may be, which is this number.
    #[error("{0} roots are pending, which is as many as may be")]
    AtCap(u32),
    #[error("out of memory")]
    Memory,
}
