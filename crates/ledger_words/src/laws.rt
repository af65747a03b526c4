//! Laws of books that hold the messages of a root, each a call that does nothing.
ghost use Rattle.std.specs.Prelude.{◌≡◌, ◌≤◌, ◌↔◌, ℕ, List};
ghost use Rattle.tree_model.specs.bolt_ops.RowOp.{Custom};
ghost use Rattle.tree_model.specs.counted_items.Weights.{weigh};
ghost use Rattle.tree_model.specs.storm_values.declared.value.Root.{Root};
ghost use Rattle.tree_model.specs.storm_values.declared.value.Value.{Value};
ghost use Rattle.tree_model.specs.topology_plan.Topology.{Topology};
ghost use Rattle.shared_ledger.specs.declared.rule.Book.{Book};
ghost use Rattle.shared_ledger.specs.Books.{word_of, fails_of, inits_of};
ghost use Rattle.tree_model.specs.declared.messages.AckMsg.{AckMsg};
ghost use Rattle.tree_model.specs.Lists.{word, is_init, is_failed};
ghost use Rattle.tree_model.specs.Lists.{AreTrueOf, IsSingle, IsSteady, Covers, Coincides};
ghost use Rattle.ledger_words.specs.Notes.{HoldsNotes};

/// A law: a book that holds a list of messages has for the root the word of the list, and as many
/// inits and fails.
pub fn words_of_notes()
    ensures words { (number : ℕ) (book : Book) (list : List AckMsg)
        → HoldsNotes number book list → word_of number book ≡ word list }
    ensures fails { (number : ℕ) (book : Book) (list : List AckMsg)
        → HoldsNotes number book list → fails_of number book ≡ weigh is_failed list }
    ensures inits { (number : ℕ) (book : Book) (list : List AckMsg)
        → HoldsNotes number book list → inits_of number book ≡ weigh is_init list }
{}

/// A law: where a book holds a true, single, steady list with an init and without a coincidence,
/// and its word for the root is 0, the list covers the tree. Such a list covers the tree exactly
/// where the book has an init and no fail of the root, and the word 0.
pub fn zero_words_cover()
    ensures covers { (t : Topology) (custom : Custom) (rows : List (List Value)) (root : Root)
        (number : ℕ) (book : Book) (list : List AckMsg) → HoldsNotes number book list
        → AreTrueOf t custom rows root list → IsSingle list → IsSteady list
        → 1 ≤ weigh is_init list → (Coincides list → ⊥)
        → word_of number book ≡ 0 → Covers t custom rows list }
    ensures exactly { (t : Topology) (custom : Custom) (rows : List (List Value)) (root : Root)
        (number : ℕ) (book : Book) (list : List AckMsg) → HoldsNotes number book list
        → AreTrueOf t custom rows root list → IsSingle list → IsSteady list
        → (Coincides list → ⊥)
        → (1 ≤ inits_of number book) × (fails_of number book ≡ 0) × (word_of number book ≡ 0)
        ↔ Covers t custom rows list }
{}
