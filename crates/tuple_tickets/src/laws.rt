ghost use Rattle.std.specs.Prelude.{◌≡◌, ◌≢◌, ◌≤◌, ◌↔◌, ℕ, ◌%◌, List, [], length, Contains, Some};
ghost use Rattle.std.specs.Coded.{Coded};
ghost use Rattle.std.specs.List.{AllByRecursion};
ghost use Rattle.storm_values.specs.declared.value.Root.{Root};
ghost use Rattle.counted_items.specs.Weights.{weigh, Within};
ghost use Rattle.tuple_tickets.specs.declared.edge.Edge.{Edge};
ghost use Rattle.tuple_tickets.specs.Edges.{xor_ids};
ghost use Rattle.tuple_tickets.specs.Lists.{Message, consumes, is_init, is_failed, word, IsOpen, IsClosed, AreOpen, AreTrueOf, IsSingle, IsSteady, Covers, IsComplete, Coincides, NoneCancel};
ghost use Rattle.tuple_tickets.specs.Notes.{said_about, issued_notes};
ghost use Rattle.tuple_tickets.specs.Tickets.{Ticket, Run, Account, is_begun, is_of, is_at, issued, IsAccount, IsNode};
ghost use Rattle.tuple_tickets.specs.Trees.{Growth, node_at, mute};

/// A law: where each issued ticket was used or waits, a root and a path have one ticket at most,
/// and each ticket has the node of its path.
pub fn tickets_grow_along_trees<N>()
    ensures once { (g : Growth N) (a : Account N) → IsAccount g a
        → (root : Root) (path : List ℕ) → weigh (is_at root path) (issued g a) ≤ 1 }
    ensures nodes { (coded : Coded N) (g : Growth N) (a : Account N) → IsAccount g a
        → AllByRecursion (IsNode g) (issued g a) }
{}

/// A law: a root has no more tickets than its tree has paths.
pub fn roots_have_few_tickets<N>()
    ensures { (coded : Coded N) (g : Growth N) (a : Account N) → IsAccount g a
        → (root : Root) (paths : List (List ℕ))
        → ((path : List ℕ) (node : N) → node_at g root path ≡ Some node
        → Contains paths path)
        → weigh (is_of root) (issued g a) ≤ length paths }
{}

/// A law: a list that is within what the issued notes say of a root is true, single and steady.
pub fn issued_lists_are_sound<N>()
    ensures are_true { (coded : Coded N) (g : Growth N) (a : Account N) → IsAccount g a
        → (root : Root) (list : List Message) → Within list (said_about root (issued_notes g a))
        → AreTrueOf g root list }
    ensures are_single { (coded : Coded N) (g : Growth N) (a : Account N) → IsAccount g a
        → (root : Root) (list : List Message) → Within list (said_about root (issued_notes g a))
        → IsSingle list }
    ensures are_steady { (coded : Coded N) (g : Growth N) (a : Account N) → IsAccount g a
        → (root : Root) (list : List Message) → Within list (said_about root (issued_notes g a))
        → IsSteady list }
{}

/// A law: there is a list of a list's open edges, each list of them has exactly these edges and the
/// word's XOR, and is empty exactly where the list is closed.
pub fn words_are_of_open_edges()
    ensures are_there { (list : List Message) → (edges : List Edge) × AreOpen list edges }
    ensures open { (list : List Message) (edges : List Edge) → AreOpen list edges
        → (e : Edge) → IsOpen list e ↔ Contains edges e }
    ensures word { (list : List Message) (edges : List Edge) → AreOpen list edges
        → word list ≡ xor_ids edges }
    ensures closed { (list : List Message) (edges : List Edge) → AreOpen list edges
        → IsClosed list ↔ (edges ≡ []) }
{}

/// A law: a true, closed list with one init covers the tree and consumes each of its paths an odd
/// number of times, whatever is repeated and whatever the ids.
pub fn closed_lists_cover<N>()
    ensures covers { (g : Growth N) (root : Root) (list : List Message)
        → AreTrueOf g root list → IsClosed list → weigh is_init list ≡ 1
        → Covers g root list }
    ensures odd { (g : Growth N) (root : Root) (list : List Message)
        → AreTrueOf g root list → IsClosed list → weigh is_init list ≡ 1
        → (path : List ℕ) (node : N) → node_at g root path ≡ Some node
        → weigh (consumes path) list % 2 ≡ 1 }
{}

/// A law: a true, single, steady list that covers the tree is closed and has no failure.
pub fn covering_lists_are_closed<N>()
    ensures closed { (g : Growth N) (root : Root) (list : List Message)
        → AreTrueOf g root list → IsSingle list → IsSteady list → Covers g root list
        → IsClosed list }
    ensures none_failed { (g : Growth N) (root : Root) (list : List Message)
        → AreTrueOf g root list → IsSingle list → IsSteady list → Covers g root list
        → weigh is_failed list ≡ 0 }
{}

/// A law: where no set of open edges but the empty one has ids that XOR to 0,
/// there is no coincidence.
pub fn what_does_not_cancel_does_not_coincide()
    ensures { (list : List Message) → NoneCancel list → Coincides list → ⊥ }
{}

/// A law: a true, single, steady list without a coincidence has the word 0, an init and no failure
/// exactly where it covers the tree.
pub fn complete_lists_cover<N>()
    ensures { (g : Growth N) (root : Root) (list : List Message)
        → AreTrueOf g root list → IsSingle list → IsSteady list → (Coincides list → ⊥)
        → IsComplete list ↔ Covers g root list }
{}

/// A law: where no ticket waits and no used one stayed mute, a list with all that was said of a
/// begun root, and no failure, covers the tree.
pub fn lists_of_all_notes_cover<N>()
    ensures { (coded : Coded N) (g : Growth N) (a : Account N) → IsAccount g a
        → ((f : Ticket N → ℕ) → a.waiting f ≡ 0)
        → AllByRecursion (λ (u : Run N). g.course u.ticket.root u.ticket.node ≢ mute) a.runs
        → (root : Root) (list : List Message) → 1 ≤ weigh (is_begun root) a.begun
        → Within (said_about root (issued_notes g a)) list → weigh is_failed list ≡ 0
        → Covers g root list }
{}
