ghost use Rattle.std.specs.Prelude.{◌≡◌, ◌≢◌, ◌≤◌, ◌<◌, ℕ, ◌+◌, ◌*◌, ◌^◌, List, [], length, None};
ghost use Rattle.std.specs.List.{AllByRecursion};
ghost use Rattle.tree_model.specs.bolt_ops.RowOp.{Custom};
ghost use Rattle.rotating_ledger.specs.Held.{Held};
ghost use Rattle.tree_model.specs.storm_values.declared.value.Root.{Root};
ghost use Rattle.tree_model.specs.storm_values.declared.value.Value.{Value};
ghost use Rattle.tree_model.specs.topology_plan.Topology.{Topology};
ghost use Rattle.tree_model.specs.topology_plan.Valid.{IsValid};
ghost use Rattle.tree_model.specs.declared.messages.AckMsg.{AckMsg};
ghost use Rattle.tree_model.specs.Trees.{node_count};
ghost use Rattle.tuple_account.specs.Drawn.{AreDrawn, started};
ghost use Rattle.tuple_account.specs.Ends.{Ended, Waits, Desk, HasCause, first_desk, lists_of};
ghost use Rattle.tuple_account.specs.Fits.{Fits};
ghost use Rattle.tuple_account.specs.Histories.{Opening, History, nothing};
ghost use Rattle.tuple_account.specs.Moves.{Station, Reached, AreRows, HasDrawn};
ghost use Rattle.tuple_account.specs.Places.{before};
ghost use Rattle.tuple_account.specs.Stuck.{IsStuck};

/// A law: at first, where nothing happened, the coordinator's account fits.
pub fn accounts_fit_at_first()
    ensures { (t : Topology) (start : ℕ) → Fits t (first_desk start) [] nothing }
{}

/// A law: where the coordinator's account fits what happened, each end has its cause, and the ids
/// of all lists in the fates are drawn. No source has more than 40 start words and, of the attempts
/// that ended and the at most 64 that are pending, a word for each node.
pub fn ends_have_causes()
    ensures causes { (t : Topology) (custom : Custom) (h : History) (b : Station)
        → Reached t custom h b
        → (rows_of : Root → List (List Value)) → AreRows rows_of h.begun
        → (desk : Desk) (fates : List Ended) → Fits t desk fates h
        → AllByRecursion (HasCause t custom rows_of desk.tick) fates }
    ensures drawn { (t : Topology) (custom : Custom) (h : History) (b : Station)
        → Reached t custom h b
        → (rows_of : Root → List (List Value)) → AreRows rows_of h.begun
        → (desk : Desk) (fates : List Ended) → Fits t desk fates h → IsValid t
        → (most : ℕ)
        → AllByRecursion (λ (o : Opening). node_count t custom o.begun.rows ≤ most) h.begun
        → ((s : ℕ) → started s h ≤ 40)
        → 40 + (length fates + 64) * most < 2 ^ 64
        → (counts : ℕ → ℕ) → ((s j : ℕ) → b.given s j ≡ before (counts s) j)
        → (words : ℕ → ℕ → ℕ) → HasDrawn words h
        → AreDrawn t custom rows_of words
        (40 + (length fates + 64) * most) (lists_of fates) }
{}

/// A law: where the coordinator's account fits what happened and no work is left, each pending
/// attempt is settled.
pub fn pending_attempts_are_settled()
    ensures { (t : Topology) (custom : Custom) (h : History) (b : Station)
        → Reached t custom h b
        → (entries : List (Held (List AckMsg))) → IsStuck t custom h b entries
        → (desk : Desk) (fates : List Ended) → Fits t desk fates h
        → AllByRecursion (λ (w : Waits). w.settled ≢ None) desk.pending }
{}
