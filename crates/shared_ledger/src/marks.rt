//! Which of 1,024 roots are marked, by a bit each.
ghost use Rattle.std.specs.Prelude.{◌≡◌, ◌<◌, ℕ, ◌==◌, ◌||◌, false, length};
ghost use Rattle.shared_ledger.specs.Marking.{is_marked};

/// A bit for each root.
#[derive(Clone, Copy, Drop)]
pub(crate) struct Marks {
    words: [u64; 16],
    ghost sized: { length words ≡ 16 },
}

impl Marks {
    /// No root is marked.
    pub(crate) fn none() -> Marks
        ensures { (root : ℕ) → root < 1024 → is_marked result.words root ≡ false }
    {
        Marks { words: [0; 16] }
    }

    pub(crate) fn has(&self, root: u32) -> bool
        requires { root < 1024 }
        ensures { result ≡ is_marked self.now.words root }
    {
        (self.words[root as usize / 64] >> (root % 64)) & 1 == 1
    }

    pub(crate) fn add(&mut self, root: u32)
        requires { root < 1024 }
        ensures { (r : ℕ) → r < 1024 →
            is_marked self.new.words r ≡ ((root == r) || is_marked self.old.words r) }
    {
        self.words[root as usize / 64] |= 1 << (root % 64);
    }

    /// Marks what is marked in either.
    pub(crate) fn add_all(&mut self, others: &Marks)
        ensures { (r : ℕ) → r < 1024 → is_marked self.new.words r ≡
            (is_marked self.old.words r || is_marked others.now.words r) }
    {
        for place in 0..16usize {
            self.words[place] |= others.words[place];
        }
    }
}
