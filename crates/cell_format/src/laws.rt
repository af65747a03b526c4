ghost use Rattle.std.specs.Prelude.{◌≡◌, ◌+◌, ◌++◌, ℕ, ℤ, List, [], Option, None, Some};
ghost use Rattle.cell_format.specs.Commits.{Holds, IsDone, IsPerhapsDone, amounts_at};
ghost use Rattle.cell_format.specs.Layout.{AreBytesOf, IsCell};
ghost use Rattle.tree_model.specs.storm_values.declared.value.Root.{Root};
ghost use Rattle.cell_format.specs.Standing.{AreOwn, IsWithin, Stands};
ghost use Rattle.cell_format.specs.declared.cell.Cell.{Cell};
ghost use Rattle.tree_model.specs.Tables.{Folding};
ghost use Rattle.tree_model.specs.topology_plan.declared.parts.Kind.{Kind};
ghost use Rattle.tree_model.specs.declared.write.Write.{Write};

/// A law: no bytes are those of two cells, and what a store has at a key is no two cells.
pub fn bytes_tell_cells_apart()
    ensures bytes { (a b : Cell) (bytes : List ℕ) → IsCell a → IsCell b
        → AreBytesOf a bytes → AreBytesOf b bytes → a ≡ b }
    ensures held { (kind : Kind) (held : Option (List ℕ)) (a b : Option Cell)
        → Holds kind held a → Holds kind held b → a ≡ b }
{}

/// A law: after a commit each cell of an opaque part that is of its transaction is of its attempt.
pub fn opaque_cells_have_the_attempt()
    ensures { (by : Folding) (root : Root) (amounts : List ℤ) (old new : Option (List ℕ)) (cell : Cell)
        → IsDone Kind.Opaque by root amounts old new → Holds Kind.Opaque new (Some cell)
        → cell.txid ≡ root.txid → cell.attempt ≡ root.attempt }
{}

/// A law: a part begins at 0; a commit of transaction t + 1 moves a part that stands at t to t + 1,
/// where no cell has a larger transaction; and where only some keys of it were done, or all, the
/// part still stands at t.
pub fn commits_move_parts_on()
    ensures begins { (kind : Kind) (by : Folding) (parts part : ℕ) (next : List Write)
        → Stands kind by parts part 0 [] next (λ _. None) }
    ensures moved { (kind : Kind) (by : Folding) (parts part t : ℕ) (root : Root)
        (done next more : List Write) (old new : List ℕ → Option (List ℕ))
        → root.txid ≡ t + 1 → Stands kind by parts part t done next old → AreOwn parts part next
        → ((key : List ℕ) → IsDone kind by root (amounts_at next key) (old key) (new key))
        → Stands kind by parts part (t + 1) (done ++ next) more new × IsWithin kind (t + 1) new }
    ensures begun { (kind : Kind) (by : Folding) (parts part t : ℕ) (root : Root)
        (done next : List Write) (old new : List ℕ → Option (List ℕ))
        → root.txid ≡ t + 1 → Stands kind by parts part t done next old → AreOwn parts part next
        → ((key : List ℕ) → IsPerhapsDone kind by root (amounts_at next key) (old key) (new key))
        → Stands kind by parts part t done next new }
    ensures done { (kind : Kind) (by : Folding) (parts part t : ℕ) (root : Root)
        (done next : List Write) (old new : List ℕ → Option (List ℕ))
        → root.txid ≡ t + 1 → Stands kind by parts part t done next old → AreOwn parts part next
        → ((key : List ℕ) → IsDone kind by root (amounts_at next key) (old key) (new key))
        → Stands kind by parts part t done next new }
{}
