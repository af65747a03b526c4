ghost use Rattle.std.specs.Prelude.{◌≡◌};
ghost use Rattle.rotating_ledger.specs.Told.{ack_of, fail_note, init_of, merged, tells, told};

/// What is kept of a root: the XOR of its words, whether its init came, and whether a fail came.
/// A message is such a state of its own, and adds to what was there.
#[derive(Clone, Copy, Debug, PartialEq, Eq)]
pub struct AckState {
    pub word: u64,
    pub init: bool,
    pub failed: bool,
}

/// What the state of a root comes to.
#[derive(Clone, Copy, Debug, PartialEq, Eq)]
pub enum Told {
    Nothing,
    Complete,
    Fails,
}

impl Told {
    pub fn tells(self) -> bool
        ensures { result ≡ tells self }
    {
        match self {
            Told::Nothing => false,
            Told::Complete | Told::Fails => true,
        }
    }
}

impl AckState {
    /// The message that a root began, with the XOR of its first ids.
    pub fn init(word: u64) -> Self
        ensures { result ≡ init_of word }
    {
        AckState {
            word,
            init: true,
            failed: false,
        }
    }

    /// The message that a tuple was acked, with the XOR of its id and of the ids anchored to it.
    pub fn ack(word: u64) -> Self
        ensures { result ≡ ack_of word }
    {
        AckState {
            word,
            init: false,
            failed: false,
        }
    }

    /// The message that a tuple failed.
    pub fn fail() -> Self
        ensures { result ≡ fail_note }
    {
        AckState {
            word: 0,
            init: false,
            failed: true,
        }
    }

    /// Adds a message.
    pub fn merge(&mut self, message: AckState)
        ensures { self.new ≡ merged self.old message }
    {
        self.word ^= message.word;
        self.init = self.init || message.init;
        self.failed = self.failed || message.failed;
    }

    pub fn told(&self) -> Told
        ensures { result ≡ told self.now }
    {
        if !self.init {
            Told::Nothing
        } else if self.failed {
            Told::Fails
        } else if self.word == 0 {
            Told::Complete
        } else {
            Told::Nothing
        }
    }
}
