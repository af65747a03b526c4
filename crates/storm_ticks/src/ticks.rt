ghost use Rattle.std.specs.Prelude.{◌≡◌, ℕ, ◌-◌, ◌^◌, List, drop, fold, min, sum};
ghost use Rattle.storm_ticks.specs.Ticking.{first_answer, handed_on};

/// The ticks of a run, which never fail. Nothing is promised of them, but one that tells its
/// answers gives them in turn.
pub trait Ticks {
    /// How many ticks were handed out: the sum of the answers so far, which ends at 2^64 - 1.
    ghost handed_out: { Self → ℕ };

    /// The answers to come, after which each answer is 0. One that does not tell its answers has
    /// none.
    ghost tells: { Self → List ℕ → Type 0 };

    /// How many ticks passed since the last call.
    fn passed(&mut self) -> u32
        ensures counted { handed_out self.new ≡ handed_on (handed_out self.old) result }
        ensures told { (answers : List ℕ) → tells self.old answers
            → result ≡ first_answer answers }
        ensures tells_the_rest { (answers : List ℕ) → tells self.old answers
            → tells self.new (drop 1 answers) };
}

/// A law: what any answers hand out one after another is their sum, up to 2^64 - 1.
pub fn handed_out_is_the_sum_of_answers()
    ensures { (answers : List ℕ) → fold handed_on 0 answers ≡ min (sum answers) (2 ^ 64 - 1) }
{}
