ghost use Rattle.std.specs.Prelude.{◌≡◌, ℕ, ◌+◌, IfOk};

use storm_values::{Memory, Seq};

/// A list of 64-bit words.
pub type Words = Seq<u64>;

/// A source of 64-bit words, which never fails. Nothing is promised of the words, but a source that
/// tells them answers them in turn.
pub trait Ids: Drop {
    // The source's words, by their numbers from 0, and how many of them it has given. A source that
    // does not tell its words has none.
    ghost tells: { Self → (ℕ → ℕ) → ℕ → Type 0 };

    fn next(&mut self) -> u64
        ensures told { (words : ℕ → ℕ) (given : ℕ) → tells self.old words given
            → (result ≡ words given) × tells self.new words (given + 1) };
}

/// Makes one source of words for each number.
pub trait IdMaker {
    type I: Ids;

    // The words of each source, by the source's number and the word's.
    ghost tells: { Self → (ℕ → ℕ → ℕ) → Type 0 };

    /// The source of a number, with no word given yet.
    fn make(&mut self, source: u32) -> Result<Self::I, Memory>
        ensures kept { (words : ℕ → ℕ → ℕ) → tells self.old words → tells self.new words }
        ensures made { IfOk result (λ ids. (words : ℕ → ℕ → ℕ) → tells self.old words
            → Self.I.tells ids (words source) 0) };
}
