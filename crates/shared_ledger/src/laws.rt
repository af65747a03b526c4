//! What the rule says of all books together, each a call that does nothing. Root r has the words
//! 2 * r and 2 * r + 1.
ghost use Rattle.std.specs.Prelude.{◌≡◌, ◌<◌, ◌≤◌, ◌+◌, ◌*◌, ◌↔◌, ℕ, true, List, ◌∷◌};
ghost use Rattle.std.specs.Prelude.{slice_index};
ghost use Rattle.std.specs.List.{AllByRecursion};
ghost use Rattle.pass_numbers.specs.Numbers.{IsWhole};
ghost use Rattle.shared_ledger.specs.declared.rule.Book.{Book};
ghost use Rattle.shared_ledger.specs.Books.{numbers_in, word_of, fails_of, has_seen};
ghost use Rattle.shared_ledger.specs.Rule.{Kept, words_of, all_fails, all_inits};

/// A law: a root's XOR word is the XOR of the words that all books have for it, and its fail word
/// is 1 exactly where some book has a fail of it.
pub fn words_are_of_all_books()
    ensures word { (roots root : ℕ) (words : List ℕ) (books : List Book)
        → Kept roots words books → root < roots
        → slice_index words (2 * root) ≡ words_of root books }
    ensures failed { (roots root : ℕ) (words : List ℕ) (books : List Book)
        → Kept roots words books → root < roots
        → (slice_index words (2 * root + 1) ≡ 1 ↔ 1 ≤ all_fails root books) }
{}

/// A law: where a seat has seen a root's `init`, some book has it.
pub fn inits_were_made()
    ensures { (roots root : ℕ) (words : List ℕ) (books : List Book)
        → Kept roots words books
        → AllByRecursion (λ (b : Book). has_seen root b ≡ true → 1 ≤ all_inits root books) books }
{}

/// A law: the book of a seat that has all numbers tells both words of a root, whatever the books of
/// the seats that are no more.
pub fn whole_books_tell_the_words()
    ensures word { (roots root : ℕ) (words : List ℕ) (book : Book) (spent : List Book)
        → Kept roots words (book ∷ spent) → root < roots → IsWhole (numbers_in book)
        → slice_index words (2 * root) ≡ word_of root book }
    ensures failed { (roots root : ℕ) (words : List ℕ) (book : Book) (spent : List Book)
        → Kept roots words (book ∷ spent) → root < roots → IsWhole (numbers_in book)
        → (slice_index words (2 * root + 1) ≡ 1 ↔ 1 ≤ fails_of root book) }
{}
