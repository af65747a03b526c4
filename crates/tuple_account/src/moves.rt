ghost use Rattle.std.specs.Prelude.{◌≤◌, ℕ, ◌+◌, List, [], ◌∷◌, length, map};
ghost use Rattle.acker_core.specs.Entries.{met};
ghost use Rattle.acker_core.specs.declared.verdict.Verdict.{Verdict};
ghost use Rattle.tree_model.specs.bolt_ops.RowOp.{Custom};
ghost use Rattle.tree_model.specs.counted_items.Weights.{weigh, Same};
ghost use Rattle.rotating_ledger.specs.Held.{Held, rotated};
ghost use Rattle.tree_model.specs.storm_values.declared.value.Root.{Root};
ghost use Rattle.tree_model.specs.topology_plan.Topology.{Topology};
ghost use Rattle.tree_model.specs.declared.messages.AckMsg.{AckMsg};
ghost use Rattle.tree_model.specs.declared.messages.Parcel.TheVariants.{ToTask, ToAcker};
ghost use Rattle.tuple_account.specs.Histories.{Packet, of_parcel, of_verdict, Opening, Execution, History, IsOpening, IsExecution, nothing, joined, opens, opening_parcels, execution_parcels};
ghost use Rattle.tuple_account.specs.Moves.{Station, empty, beside, IsAlike, Moves, Reached, HasDrawn};
ghost use Rattle.tuple_account.specs.Parts.{holding, keeping, giving, telling, verdicts_of, starting, opening, executing, meeting, dropping, hearing};

/// A law: moves add up one after another and side by side, and do not look at which box holds what.
pub fn moves_add_up()
    ensures then { (t : Topology) (custom : Custom) (a b c : Station) (h k : History)
        → Moves t custom a h b → Moves t custom b k c → Moves t custom a (joined h k) c }
    ensures side_by_side { (t : Topology) (custom : Custom) (a b c d : Station) (h k : History)
        → Moves t custom a h b → Moves t custom c k d
        → Moves t custom (beside a c) (joined h k) (beside b d) }
    ensures framed { (t : Topology) (custom : Custom) (a b rest : Station) (h : History)
        → Moves t custom a h b → Moves t custom (beside a rest) h (beside b rest) }
    ensures alike { (t : Topology) (custom : Custom) (a b c d : Station) (h : History)
        → IsAlike a c → IsAlike b d → Moves t custom a h b → Moves t custom c h d }
    ensures words { (words : ℕ → ℕ → ℕ) (h k : History)
        → HasDrawn words h → HasDrawn words k → HasDrawn words (joined h k) }
{}

/// A law: each kind of work is a move of the parts that it touches: a hand-over of packets, the
/// draw of start words, the begin of a root, the execution of a tuple, an acker's step on a
/// message, a rotation, and a verdict that the coordinator takes.
pub fn work_moves()
    ensures hand_over { (t : Topology) (custom : Custom) (from to : List Packet)
        → Same from to → Moves t custom (holding from) nothing (holding to) }
    ensures start { (t : Topology) (custom : Custom) (source at count : ℕ)
        → Moves t custom (giving source at) (starting source at count)
        (giving source (at + count)) }
    ensures begin { (t : Topology) (custom : Custom) (o : Opening) → IsOpening t o
        → Moves t custom (giving o.begun.source o.begun.at) (opening o)
        (beside (holding (map of_parcel (opening_parcels t o)))
        (giving o.begun.source (o.begun.at + length o.begun.ids))) }
    ensures execute { (t : Topology) (custom : Custom) (e : Execution) → IsExecution t custom e
        → Moves t custom
        (beside (holding (of_parcel (ToTask e.run.task e.run.tuple) ∷ []))
        (giving e.run.task e.run.at))
        (executing e)
        (beside (holding (map of_parcel (execution_parcels t custom e)))
        (giving e.run.task (e.run.at + length e.run.ids))) }
    ensures meet { (t : Topology) (custom : Custom) (acker : ℕ) (m : AckMsg)
        (entries : List (Held (List AckMsg)))
        → Moves t custom
        (beside (holding (of_parcel (ToAcker acker m) ∷ [])) (keeping entries))
        (meeting acker m entries)
        (beside (holding (verdicts_of (telling m entries))) (keeping (met m entries))) }
    ensures rotate { (t : Topology) (custom : Custom) (buckets : ℕ)
        (entries : List (Held (List AckMsg)))
        → Moves t custom (keeping entries) (dropping buckets entries)
        (keeping (rotated buckets entries)) }
    ensures hear { (t : Topology) (custom : Custom) (v : Verdict)
        → Moves t custom (holding (of_verdict v ∷ [])) (hearing v) empty }
{}

/// A law: nothing is reached at first, and a move goes on from what is reached where it begins only
/// roots that were not begun, each once.
pub fn reached_goes_on()
    ensures first { (t : Topology) (custom : Custom) → Reached t custom nothing empty }
    ensures then { (t : Topology) (custom : Custom) (a b : Station) (h k : History)
        → Reached t custom h a → Moves t custom a k b
        → ((root : Root) → weigh (opens root) h.begun + weigh (opens root) k.begun ≤ 1)
        → Reached t custom (joined h k) b }
{}
