ghost use Rattle.std.specs.Prelude.{◌≡◌, ◌≤◌, ◌+◌, ◌⊎◌, ◌++◌, ◌∷◌, [], ℕ, List, Option, OnOk, IsErrOf};
ghost use Rattle.std.specs.Option.{option_map};
ghost use Rattle.commit_order.specs.Follows.{IsTaken};
ghost use Rattle.state_parts.specs.declared.answer.Commit.{Commit};
ghost use Rattle.tuple_account.specs.storm_values.Counts.{raised};

use state_parts::Commit;
use storm_stores::StoreFault;

/// Follows a run: it is told the commits that were done, each once, in their order.
pub trait Follow {
    /// The follower tells that it was told these commits. One that tells nothing has none.
    ghost tells: { Self → List Commit → Type 0 };

    /// The transaction that it takes next. One that takes any has none.
    ghost takes: { Self → Option ℕ };

    /// How often the follower has failed. The count ends at 2^64 - 1.
    ghost fault_count: { Self → ℕ };

    /// A commit was done. Where the follower fails it was told this one, or not.
    fn told(&mut self, commit: &Commit) -> Result<(), StoreFault>
        requires taken { IsTaken commit.now.root.txid (takes self.old) }
        ensures done { OnOk result ((commits : List Commit) → tells self.old commits →
            tells self.new (commits ++ commit.now ∷ [])) }
        ensures perhaps_done { IsErrOf result StoreFault.Failed → (commits : List Commit) →
            tells self.old commits →
            tells self.new commits ⊎ tells self.new (commits ++ commit.now ∷ []) }
        ensures takes_next { OnOk result
            (takes self.new ≡ option_map (λ txid. txid + 1) (takes self.old)) }
        ensures failed { IsErrOf result StoreFault.Failed →
            fault_count self.new ≡ raised (fault_count self.old) }
        ensures quiet { (IsErrOf result StoreFault.Failed → ⊥) →
            fault_count self.new ≡ fault_count self.old }
        ensures never_falls { fault_count self.old ≤ fault_count self.new };
}

/// Follows nothing: it keeps nothing of what it is told, and never fails.
#[derive(Clone, Copy, Debug, PartialEq, Eq)]
pub struct NoFollow;

impl Follow for NoFollow {
    ghost use Rattle.std.specs.Prelude.{None};

    ghost tells = { λ _ _. ⊥ };

    ghost takes = { λ _. None };

    ghost fault_count = { λ _. 0 };

    fn told(&mut self, _: &Commit) -> Result<(), StoreFault> {
        Ok(())
    }
}
