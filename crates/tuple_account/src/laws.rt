ghost use Rattle.std.specs.Prelude.{◌≡◌, ◌≤◌, ◌<◌, ℕ, ◌+◌, ◌*◌, ◌^◌, List, length, map};
ghost use Rattle.std.specs.List.{AllByRecursion, flat_map};
ghost use Rattle.tree_model.specs.bolt_ops.RowOp.{Custom};
ghost use Rattle.tree_model.specs.counted_items.Weights.{weigh, Within};
ghost use Rattle.rotating_ledger.specs.Held.{Held};
ghost use Rattle.tree_model.specs.storm_values.declared.value.Root.{Root};
ghost use Rattle.tree_model.specs.storm_values.declared.value.Value.{Value};
ghost use Rattle.tree_model.specs.topology_plan.Topology.{Topology};
ghost use Rattle.tree_model.specs.topology_plan.Valid.{IsValid};
ghost use Rattle.tree_model.specs.declared.messages.AckMsg.{AckMsg};
ghost use Rattle.tree_model.specs.Trees.{node_count};
ghost use Rattle.tuple_account.specs.Accounts.{is_of, is_at, IsNode};
ghost use Rattle.tuple_account.specs.Accounts as tuples;
ghost use Rattle.tuple_account.specs.Drawn.{AreDrawn, started};
ghost use Rattle.tuple_account.specs.Histories.{Packet, Opening, Receipt, Told, History, opens, rows_in, taken, told_in, dropped_in};
ghost use Rattle.tuple_account.specs.Moves.{Station, Reached, AreRows, HasDrawn, account_of};
ghost use Rattle.tuple_account.specs.Places.{before};
ghost use Rattle.tuple_account.specs.Sound.{IsSound, IsCaused, IsRouted, is_about, tells};
ghost use Rattle.tuple_account.specs.Stuck.{IsStuck};

/// A law: of all that led to a moment, a root and a path have one tuple at most, each tuple has the
/// node of its path in the rows that its root was begun with, and a root has no more tuples than
/// its rows' tree has nodes.
pub fn tuples_are_issued_once()
    ensures rows { (t : Topology) (custom : Custom) (h : History) (b : Station)
        → Reached t custom h b → AreRows (rows_in h.begun) h.begun }
    ensures once { (t : Topology) (custom : Custom) (h : History) (b : Station)
        → Reached t custom h b
        → (root : Root) (path : List ℕ)
        → weigh (is_at root path) (tuples.issued t custom (account_of h b)) ≤ 1 }
    ensures nodes { (t : Topology) (custom : Custom) (h : History) (b : Station)
        → Reached t custom h b
        → (rows_of : Root → List (List Value)) → AreRows rows_of h.begun
        → AllByRecursion (IsNode t custom rows_of) (tuples.issued t custom (account_of h b)) }
    ensures few { (t : Topology) (custom : Custom) (h : History) (b : Station)
        → Reached t custom h b
        → (rows_of : Root → List (List Value)) → AreRows rows_of h.begun → IsValid t
        → (root : Root)
        → weigh (is_of root) (tuples.issued t custom (account_of h b))
        ≤ node_count t custom (rows_of root) }
{}

/// A law: what waits or was taken is where it belongs: a tuple at a task of its component, a
/// message at the acker of its root.
pub fn packets_are_routed()
    ensures { (t : Topology) (custom : Custom) (h : History) (b : Station) → Reached t custom h b
        → (packets : List Packet)
        → ((f : Packet → ℕ) → weigh f packets ≤ b.waiting f + taken f h)
        → AllByRecursion (IsRouted t) packets }
{}

/// A law: the list of an entry that is kept, that told something or that was dropped is true of its
/// root, single and steady.
pub fn lists_are_sound()
    ensures held { (t : Topology) (custom : Custom) (h : History) (b : Station)
        → Reached t custom h b
        → (rows_of : Root → List (List Value)) → AreRows rows_of h.begun
        → (root : Root) (list : List AckMsg)
        → ((g : Root → AckMsg → ℕ)
        → weigh (g root) list ≤ b.kept g + (told_in g h + dropped_in g h))
        → IsSound t custom (rows_of root) root list }
    ensures told { (t : Topology) (custom : Custom) (h : History) (b : Station)
        → Reached t custom h b
        → (rows_of : Root → List (List Value)) → AreRows rows_of h.begun
        → AllByRecursion (λ (x : Told). IsSound t custom (rows_of x.root) x.root x.list) h.told }
{}

/// A law: each verdict that was told or heard has its cause: the list of a complete one is true,
/// single and steady, with an init, no failure and the word 0, and a fail is of a node that fails
/// at this attempt.
pub fn verdicts_have_causes()
    ensures told { (t : Topology) (custom : Custom) (h : History) (b : Station)
        → Reached t custom h b
        → (rows_of : Root → List (List Value)) → AreRows rows_of h.begun
        → AllByRecursion (λ (x : Told). IsCaused t custom rows_of x.verdict) h.told }
    ensures heard { (t : Topology) (custom : Custom) (h : History) (b : Station)
        → Reached t custom h b
        → (rows_of : Root → List (List Value)) → AreRows rows_of h.begun
        → AllByRecursion (IsCaused t custom rows_of) h.heard }
    ensures were_told { (t : Topology) (custom : Custom) (h : History) (b : Station)
        → Reached t custom h b
        → Within h.heard (map (λ (x : Told). x.verdict) h.told) }
{}

/// A law: of a root that was begun one verdict at most is told, and one at most is heard, and of
/// one that was not begun none: no more than it was begun.
pub fn each_root_has_one_verdict()
    ensures told { (t : Topology) (custom : Custom) (h : History) (b : Station)
        → Reached t custom h b
        → (root : Root) → weigh (tells root) h.told ≤ weigh (opens root) h.begun }
    ensures heard { (t : Topology) (custom : Custom) (h : History) (b : Station)
        → Reached t custom h b
        → (root : Root) → weigh (is_about root) h.heard ≤ weigh (opens root) h.begun }
{}

/// A law: where each source gave its first words, fewer than 2^64, the ids of the messages that
/// were met are drawn: they are the words that the draws name, each word in one message only.
pub fn ids_are_drawn_once()
    ensures drawn { (t : Topology) (custom : Custom) (h : History) (b : Station)
        → Reached t custom h b
        → (rows_of : Root → List (List Value)) → AreRows rows_of h.begun
        → (counts : ℕ → ℕ) → ((s j : ℕ) → b.given s j ≡ before (counts s) j)
        → (limit : ℕ) → ((s : ℕ) → counts s ≤ limit) → limit < 2 ^ 64
        → (list : List AckMsg) → Within list (map (λ (x : Receipt). x.message) h.met)
        → (words : ℕ → ℕ → ℕ) → HasDrawn words h
        → AreDrawn t custom rows_of words limit list }
    ensures told { (t : Topology) (custom : Custom) (h : History) (b : Station)
        → Reached t custom h b
        → Within (flat_map (λ (x : Told). x.list) h.told)
        (map (λ (x : Receipt). x.message) h.met) }
{}

/// A law: a source that gave its first words gave no more than its start words and, for each root
/// that was begun, as many as a root's tree has nodes at most.
pub fn words_given_are_few()
    ensures { (t : Topology) (custom : Custom) (h : History) (b : Station)
        → Reached t custom h b → IsValid t
        → (most : ℕ)
        → AllByRecursion (λ (o : Opening). node_count t custom o.begun.rows ≤ most) h.begun
        → (s count : ℕ) → ((j : ℕ) → b.given s j ≡ before count j)
        → count ≤ started s h + length h.begun * most }
{}

/// A law: at a moment at which no work is left, each root that was begun was told of.
pub fn stuck_roots_were_told()
    ensures { (t : Topology) (custom : Custom) (h : History) (b : Station)
        → Reached t custom h b
        → (entries : List (Held (List AckMsg))) → IsStuck t custom h b entries
        → (root : Root) → 1 ≤ weigh (opens root) h.begun → 1 ≤ weigh (tells root) h.told }
{}
