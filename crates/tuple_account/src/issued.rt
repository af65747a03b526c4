ghost use Rattle.std.specs.Prelude.{◌≡◌, ◌≢◌, ◌≤◌, ℕ, List};
ghost use Rattle.std.specs.List.{AllByRecursion};
ghost use Rattle.tree_model.specs.bolt_ops.RowOp.{Custom};
ghost use Rattle.tree_model.specs.counted_items.Weights.{weigh, Within};
ghost use Rattle.tree_model.specs.storm_values.declared.value.Root.{Root};
ghost use Rattle.tree_model.specs.storm_values.declared.value.Value.{Value};
ghost use Rattle.tree_model.specs.topology_plan.Topology.{Topology};
ghost use Rattle.tree_model.specs.topology_plan.Valid.{IsValid};
ghost use Rattle.tree_model.specs.tuple_tickets.Trees.{mute};
ghost use Rattle.tree_model.specs.declared.messages.AckMsg.{AckMsg};
ghost use Rattle.tree_model.specs.declared.messages.Tuple.{Tuple};
ghost use Rattle.tree_model.specs.Lists.{is_failed, AreTrueOf, IsSingle, IsSteady, Covers};
ghost use Rattle.tree_model.specs.Trees.{node_count};
ghost use Rattle.tuple_account.specs.Accounts.{Account, is_begun, is_of, is_at, issued, issued_notes, notes_about, IsAccount, IsNode};
ghost use Rattle.tuple_account.specs.Issued.{Run, course_of_run};

/// A law: where each issued tuple was executed or waits, a root and a path have one tuple at most,
/// and each tuple has the node of its path.
pub fn tuples_grow_along_trees()
    ensures once { (t : Topology) (custom : Custom)
        → (rows_of : Root → List (List Value)) → (a : Account) → IsAccount t custom rows_of a
        → (root : Root) (path : List ℕ) → weigh (is_at root path) (issued t custom a) ≤ 1 }
    ensures nodes { (t : Topology) (custom : Custom)
        → (rows_of : Root → List (List Value)) → (a : Account) → IsAccount t custom rows_of a
        → AllByRecursion (IsNode t custom rows_of) (issued t custom a) }
{}

/// A law: a root has no more tuples than its rows' tree has nodes.
pub fn roots_have_few_tuples()
    ensures { (t : Topology) (custom : Custom)
        → (rows_of : Root → List (List Value)) → IsValid t
        → (a : Account) → IsAccount t custom rows_of a
        → (root : Root)
        → weigh (is_of root) (issued t custom a) ≤ node_count t custom (rows_of root) }
{}

/// A law: a list that is within the issued notes of a root is true, single and steady.
pub fn issued_lists_are_sound()
    ensures are_true { (t : Topology) (custom : Custom)
        → (rows_of : Root → List (List Value)) → (a : Account) → IsAccount t custom rows_of a
        → (root : Root) (list : List AckMsg)
        → Within list (notes_about root (issued_notes t custom a))
        → AreTrueOf t custom (rows_of root) root list }
    ensures are_single { (t : Topology) (custom : Custom)
        → (rows_of : Root → List (List Value)) → (a : Account) → IsAccount t custom rows_of a
        → (root : Root) (list : List AckMsg)
        → Within list (notes_about root (issued_notes t custom a))
        → IsSingle list }
    ensures are_steady { (t : Topology) (custom : Custom)
        → (rows_of : Root → List (List Value)) → (a : Account) → IsAccount t custom rows_of a
        → (root : Root) (list : List AckMsg)
        → Within list (notes_about root (issued_notes t custom a))
        → IsSteady list }
{}

/// A law: where no tuple waits and no executed one stayed mute, a list of a begun root with all of
/// its issued notes, and no failure, covers the tree.
pub fn lists_of_all_notes_cover()
    ensures { (t : Topology) (custom : Custom)
        → (rows_of : Root → List (List Value)) → (a : Account) → IsAccount t custom rows_of a
        → ((f : Tuple → ℕ) → a.waiting f ≡ 0)
        → AllByRecursion (λ (u : Run). course_of_run t custom u ≢ mute) a.runs
        → (root : Root) (list : List AckMsg) → 1 ≤ weigh (is_begun root) a.begun
        → Within (notes_about root (issued_notes t custom a)) list
        → weigh is_failed list ≡ 0 → Covers t custom (rows_of root) list }
{}
