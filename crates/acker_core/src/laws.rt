ghost use Rattle.std.specs.Prelude.{◌≡◌, ◌↔◌, ◌<◌, ◌∷◌, ◌++◌, ℕ, [], None, Some, List, fold};
ghost use Rattle.tree_model.specs.bolt_ops.RowOp.{Custom};
ghost use Rattle.tree_model.specs.storm_values.declared.value.Root.{Root};
ghost use Rattle.tree_model.specs.storm_values.declared.value.Value.{Value};
ghost use Rattle.rotating_ledger.specs.Held.{AreHeldOnce, Held, entry_of, value_of};
ghost use Rattle.tree_model.specs.topology_plan.Topology.{Topology};
ghost use Rattle.tree_model.specs.declared.messages.AckMsg.{AckMsg};
ghost use Rattle.tree_model.specs.Lists.{AreTrueOf, IsSingle, IsSteady, Covers, Coincides, NoneCancel, root_of};
ghost use Rattle.acker_core.specs.Entries.{Met, after, entries_of, list_with, tell, told_of};
ghost use Rattle.acker_core.specs.Traces.{entry_after, messages_of, ticks_since, AreUntold, IsUndisturbed};
ghost use Rattle.acker_core.specs.declared.verdict.Verdict.TheVariants.{Complete};

/// A law: of a true, single, steady list whose ids do not coincide, complete is told exactly where
/// the list covers the tuple tree.
pub fn complete_verdicts_cover()
    ensures { (t : Topology) (custom : Custom) (rows : List (List Value))
        (root : Root) (list : List AckMsg)
        → AreTrueOf t custom rows root list → IsSingle list → IsSteady list → (Coincides list → ⊥)
        → (tell root list ≡ Some (Complete root list)) ↔ Covers t custom rows list }
{}

/// A law: over any trace the entry of a root is what its own messages and the ticks alone make of
/// it. It is nothing at first, begins with a message or has one more, goes where something is told,
/// and at the tick that has the number of buckets since it began.
pub fn entries_go_by_their_roots()
    ensures { (buckets : ℕ) (root : Root) (entries : List (Held (List AckMsg)))
        (trace : List Met)
        → AreHeldOnce entries
        → entry_of root (fold (after buckets) entries trace)
        ≡ fold (entry_after buckets root) (entry_of root entries) trace }
{}

/// A law: nothing disturbs a root of whose messages no beginning tells anything, where fewer ticks
/// came since the first of them than there are buckets.
pub fn young_roots_are_undisturbed()
    ensures { (buckets : ℕ) (root : Root) (trace : List Met)
        → ticks_since root trace < buckets → AreUntold root (messages_of root trace)
        → IsUndisturbed buckets root [] trace }
{}

/// A law of a trace in which no rotation dropped the entry of a message's root and nothing was told
/// of it. The list of the root is all its messages that were met, with this one at the end, also
/// where the trace begins with entries of others. Where these messages are true, single and steady,
/// and no set of open edges has ids that cancel, this one completes the root exactly where they
/// cover its tuple tree: the whole tree was emitted and acked. It is enough that the ids of all open
/// edges do not cancel.
pub fn undisturbed_roots_complete()
    ensures list { (buckets : ℕ) (trace : List Met) (m : AckMsg)
        → IsUndisturbed buckets (root_of m) [] trace
        → list_with m (entries_of buckets trace) ≡ messages_of (root_of m) trace ++ m ∷ [] }
    ensures list_since { (buckets : ℕ) (entries : List (Held (List AckMsg)))
        (trace : List Met) (m : AckMsg)
        → value_of (root_of m) entries ≡ None → IsUndisturbed buckets (root_of m) entries trace
        → list_with m (fold (after buckets) entries trace)
        ≡ messages_of (root_of m) trace ++ m ∷ [] }
    ensures completes { (t : Topology) (custom : Custom) (rows : List (List Value))
        (buckets : ℕ) (trace : List Met) (m : AckMsg)
        → let list = messages_of (root_of m) trace ++ m ∷ [] in
        IsUndisturbed buckets (root_of m) [] trace
        → AreTrueOf t custom rows (root_of m) list → IsSingle list → IsSteady list
        → NoneCancel list
        → (told_of m (entries_of buckets trace) ≡ Some (Complete (root_of m) list))
        ↔ Covers t custom rows list }
    ensures unless_all_coincide { (t : Topology) (custom : Custom) (rows : List (List Value))
        (buckets : ℕ) (trace : List Met) (m : AckMsg)
        → let list = messages_of (root_of m) trace ++ m ∷ [] in
        IsUndisturbed buckets (root_of m) [] trace
        → AreTrueOf t custom rows (root_of m) list → IsSingle list → IsSteady list
        → (Coincides list → ⊥)
        → (told_of m (entries_of buckets trace) ≡ Some (Complete (root_of m) list))
        ↔ Covers t custom rows list }
{}
