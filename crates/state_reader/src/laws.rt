//! What follows of books and values, each a call that does nothing.
ghost use Rattle.std.specs.Prelude.{◌≡◌, ◌≢◌, ◌≤◌, ℕ, List, length, take, IfSome, Some};
ghost use Rattle.tree_model.specs.bolt_ops.RowOp.{Custom};
ghost use Rattle.tree_model.specs.Tables.{base, state_at};
ghost use Rattle.tree_model.specs.topology_plan.Topology.{Topology};
ghost use Rattle.tree_model.specs.topology_plan.declared.parts.Fold.{Fold};
ghost use Rattle.state_reader.specs.Commits.{value_after, writes_of_all, Commit};
ghost use Rattle.state_reader.specs.Folds.{fold_at, folds_in};
ghost use Rattle.state_reader.specs.Views.{Begins};

/// A law: once a list that was told is a prefix of the reader's book, each earlier book that is no
/// longer is the first commits of that list.
pub fn earlier_books_begin_what_was_told()
    ensures { (earlier told book : List Commit) → Begins earlier book → Begins told book
        → length earlier ≤ length told → earlier ≡ take (length earlier) told }
{}

/// A law: by the folds of a topology, the value of a key of a state after some commits is the fold
/// of all their writes for it, as in the state's table by any operation. A custom fold alone has
/// another value here: its last amount.
pub fn values_are_folds_of_writes()
    ensures { (t : Topology) (custom : Custom) (number : ℕ) (commits : List Commit) (key : List ℕ)
        → fold_at (folds_in t) number ≢ Some Fold.Custom
        → IfSome (state_at t custom number)
        (λ state. value_after (fold_at (folds_in t) number) commits number key
        ≡ base state.by (writes_of_all commits) number key) }
{}
