ghost use Rattle.std.specs.Prelude.{◌≡◌, ◌≤◌, ◌<◌, ℕ, ◌+◌, List, [], ◌∷◌};
ghost use Rattle.std.specs.List.{AllByRecursion};
ghost use Rattle.tree_model.specs.declared.messages.AckMsg.{AckMsg};
ghost use Rattle.tree_model.specs.bolt_ops.RowOp.{Custom};
ghost use Rattle.tree_model.specs.counted_items.Weights.{weigh};
ghost use Rattle.tree_model.specs.storm_values.declared.value.Root.{Root};
ghost use Rattle.tree_model.specs.topology_plan.Topology.{Topology};
ghost use Rattle.tuple_account.specs.Benches.{Bench, Works, IsFresh, OneMore, share_of};
ghost use Rattle.tuple_account.specs.Histories.{Packet, History, nothing, joined, opens, taken};
ghost use Rattle.tuple_account.specs.Moves.{Station, beside, Moves, Reached};
ghost use Rattle.tuple_account.specs.Parts.{holding, giving};
ghost use Rattle.tuple_account.specs.Places.{before};
ghost use Rattle.tuple_account.specs.Stretches.{Books, Tells, Share, DoesShare, Grows, Gathered, all_of, together, in_boxes, olds, news, histories, sum_below};

/// A law: what the functions of a worker say adds up, a hand-over is one packet less in the
/// outboxes and one more in a box's book, taking one and working on it is a move, as is work that
/// takes none, and all since its passes were split is the worker's share.
pub fn works_add_up()
    ensures then { (t : Topology) (custom : Custom) (n : ℕ) (a b c : Bench) (h k : History)
        → Works t custom n a h b → Works t custom n b k c → Works t custom n a (joined h k) c }
    ensures hand_over { (t : Topology) (custom : Custom) (n : ℕ) (a b : Bench) (i : ℕ) (x : Packet)
        → i < n → ((f : Packet → ℕ) → b.station.waiting f + f x ≡ a.station.waiting f)
        → OneMore a.sent i x b.sent → ((k : ℕ) (f : Packet → ℕ) → b.taken k f ≡ a.taken k f)
        → ((g : Root → AckMsg → ℕ) → a.station.kept g ≡ b.station.kept g)
        → ((s j : ℕ) → a.station.given s j ≡ b.station.given s j)
        → Works t custom n a nothing b }
    ensures take { (t : Topology) (custom : Custom) (n : ℕ) (a b : Bench) (i : ℕ) (x : Packet)
        (h : History)
        → i < n → ((f : Packet → ℕ) → taken f h ≡ f x)
        → OneMore a.taken i x b.taken → ((k : ℕ) (f : Packet → ℕ) → b.sent k f ≡ a.sent k f)
        → Moves t custom (beside (holding (x ∷ [])) a.station) h b.station
        → Works t custom n a h b }
    ensures work { (t : Topology) (custom : Custom) (n : ℕ) (a b : Bench) (h : History)
        → ((f : Packet → ℕ) → taken f h ≡ 0)
        → ((k : ℕ) (f : Packet → ℕ) → b.taken k f ≡ a.taken k f)
        → ((k : ℕ) (f : Packet → ℕ) → b.sent k f ≡ a.sent k f)
        → Moves t custom a.station h b.station → Works t custom n a h b }
    ensures share { (t : Topology) (custom : Custom) (n : ℕ) (a b : Bench) (h : History)
        → IsFresh a → Works t custom n a h b → DoesShare t custom n (share_of a h b) }
{}

/// A law: what several workers say of a stretch is one move of them and the boxes.
pub fn stretches_are_moves()
    ensures { (t : Topology) (custom : Custom) (n : ℕ) (earlier later : ℕ → Books)
        (shares : List Share)
        → AllByRecursion (DoesShare t custom n) shares
        → ((i : ℕ) → i < n → Tells (earlier i)) → ((i : ℕ) → i < n → Tells (later i))
        → ((i : ℕ) → i < n → Grows shares i (earlier i) (later i))
        → Moves t custom (beside (together (olds shares)) (in_boxes earlier n))
        (all_of (histories shares)) (beside (together (news shares)) (in_boxes later n)) }
{}

/// A law: after a stretch all is gathered: what was sent and what the outboxes hold is what was
/// issued, and what was taken is what was executed, met and heard.
pub fn stretches_stay_gathered()
    ensures { (t : Topology) (custom : Custom) (h : History) (rest : Station) (n : ℕ)
        (earlier later : ℕ → Books) (shares : List Share)
        → AllByRecursion (DoesShare t custom n) shares
        → ((i : ℕ) → i < n → Tells (earlier i)) → ((i : ℕ) → i < n → Tells (later i))
        → ((i : ℕ) → i < n → Grows shares i (earlier i) (later i))
        → Reached t custom h (beside rest (beside (together (olds shares)) (in_boxes earlier n)))
        → ((f : Packet → ℕ) → sum_below (λ i. (earlier i).taken f) n ≡ taken f h)
        → ((root : Root)
        → weigh (opens root) h.begun + weigh (opens root) (all_of (histories shares)).begun ≤ 1)
        → Reached t custom (joined h (all_of (histories shares)))
        (beside rest (beside (together (news shares)) (in_boxes later n)))
        × Gathered t custom (joined h (all_of (histories shares))) n later
        (beside rest (together (news shares))).waiting }
{}

/// A law: at weights that are 0 on what other boxes took, the taken book of a box is what was taken
/// in all.
pub fn books_tell_by_box()
    ensures { (t : Topology) (custom : Custom) (h : History) (n : ℕ) (books : ℕ → Books)
        (outboxes : (Packet → ℕ) → ℕ)
        → Gathered t custom h n books outboxes
        → (k : ℕ) (f : Packet → ℕ) → k < n
        → ((i : ℕ) → (i ≡ k → ⊥) → (books i).taken f ≡ 0)
        → (books k).taken f ≡ taken f h }
{}

/// A law: sources that each gave their first words gave together each word below their counts once.
pub fn sources_add_up()
    ensures { (counts : ℕ → ℕ) (n : ℕ) → ((s : ℕ) → n ≤ s → counts s ≡ 0)
        → (s j : ℕ) → sum_below (λ i. (giving i (counts i)).given s j) n ≡ before (counts s) j }
{}
