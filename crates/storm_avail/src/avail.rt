ghost use Rattle.std.specs.Prelude.{◌≡◌, ℕ, List, drop, get_or};

/// Which partitions of a spout are shut. Nothing is promised of it, but one that tells its answers
/// gives them in turn.
pub trait Avail {
    /// The answers to come, after which each answer is 0. What is told with zeros behind it is told
    /// without them too. One that does not tell its answers has none.
    ghost tells: { Self → List ℕ → Type 0 };

    /// The partitions that are shut until the next call, as bits: partition q is shut where bit q
    /// is 1, counted from the lowest bit on. A bit for which there is no partition says nothing.
    fn shut(&mut self) -> u16
        ensures told { (answers : List ℕ) → tells self.old answers → result ≡ get_or answers 0 0 }
        ensures tells_the_rest { (answers : List ℕ) → tells self.old answers
            → tells self.new (drop 1 answers) };
}

/// All partitions are open, whenever it is asked.
#[derive(Debug, Clone, Copy, Drop)]
pub struct AllOpen;

impl Avail for AllOpen {
    ghost use Rattle.std.specs.Prelude.{[]};
    ghost use Rattle.storm_avail.specs.Answers.{AreSame};

    ghost tells = { λ _ answers. AreSame answers [] };

    fn shut(&mut self) -> u16 {
        0
    }
}
