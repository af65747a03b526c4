//! What the rule says of all books together, each a call that does nothing.
ghost use Rattle.std.specs.Prelude.{◌≡◌, ◌≤◌, ℕ, List, true, false};
ghost use Rattle.std.specs.List.{AllByRecursion};
ghost use Rattle.counted_items.specs.Weights.{Same};
ghost use Rattle.pulse_board.specs.declared.rule.Book.{Book};
ghost use Rattle.pulse_board.specs.Books.{one_to};
ghost use Rattle.pulse_board.specs.Rule.{Kept, drawn_of, makers, halted_books};

/// A law: where no book is marked, the numbers in all books are 1 to some t, each in one book, and
/// no seat has seen more than t.
pub fn unmarked_books_count_all()
    ensures { (words : List ℕ) (books : List Book)
        → Kept words books → AllByRecursion (λ (b : Book). b.wrapped ≡ false) books
        → (t : ℕ) × Same (drawn_of books) (one_to t)
        × AllByRecursion (λ (b : Book). b.seen ≤ t) books }
{}

/// A law: a halt is seen only where some book has made one.
pub fn a_halt_was_made()
    ensures { (words : List ℕ) (books : List Book)
        → Kept words books → 1 ≤ halted_books books → 1 ≤ makers books }
{}
