/// How a replay ended that nothing stopped.
#[derive(Clone, Copy, Debug, PartialEq, Eq)]
pub enum Ended {
    /// No record is left uncommitted.
    All,
    /// Some record is left uncommitted after the events, and so many batches were committed in the
    /// run.
    Unfinished(u64),
}
