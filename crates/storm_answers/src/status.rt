ghost use Rattle.std.specs.Prelude.{◌≡◌};
ghost use Rattle.storm_answers.specs.Statuses.{code_of};

/// How a command ended.
#[derive(Clone, Copy, Debug, PartialEq, Eq)]
pub enum Status {
    /// All was read to its end and accepted, and the whole output was taken.
    Done,
    /// Want of memory. Nothing is written.
    Memory,
    /// The words are no command.
    Words,
    /// The topology was refused.
    Topology,
    /// The input was refused.
    Input,
    /// A file was not read.
    ReadFault,
    /// The output was not taken. What was taken is a front of the text.
    WriteFault,
    /// All attempts of a batch ended, and none by a commit.
    Exhausted,
    /// The schedule commits fewer than all batches.
    Unfinished,
    /// The schedule was refused.
    Schedule,
    /// A store failed when the tables were read, with every batch committed, or before a run that
    /// goes on was begun.
    StoreFault,
    /// A store has a cell that its part does not take.
    BadCell,
    /// The keeper failed.
    KeepFault,
    /// What is kept is no meta, or that of a run over other input.
    Kept,
}

impl Status {
    /// The exit status of the program.
    pub fn code(self) -> u8
        ensures { result ≡ code_of self }
    {
        match self {
            Status::Done => 0,
            Status::Memory => 1,
            Status::Words => 2,
            Status::Topology => 3,
            Status::Input => 4,
            Status::ReadFault => 5,
            Status::WriteFault => 6,
            Status::Exhausted => 7,
            Status::Unfinished => 8,
            Status::Schedule => 9,
            Status::StoreFault => 10,
            Status::BadCell => 11,
            Status::KeepFault => 12,
            Status::Kept => 13,
        }
    }
}
