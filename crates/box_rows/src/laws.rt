ghost use Rattle.std.specs.Prelude.{◌≡◌, ◌≢◌, ◌<◌, ◌≤◌, ℕ, ◌+◌, List, [], ◌∷◌, length, map};
ghost use Rattle.event_worlds.specs.counted_items.Weights.{weigh};
ghost use Rattle.pass_numbers.specs.Numbers.{Numbered};
ghost use Rattle.box_rows.specs.AllRows.{AreAll, Row, numbers_by};
ghost use Rattle.box_rows.specs.declared.mail.Mail.{Mail};
ghost use Rattle.box_rows.specs.FitRows.{AreWhole, IsFitRow};
ghost use Rattle.box_rows.specs.Rows.{numbers_at, weigh_sent, weigh_taken};
ghost use Rattle.box_rows.specs.Splitting.{MailView, joined_views, numbers_in_box};
ghost use Rattle.task_queues.specs.Books.{cut_of, kept_of};
ghost use Rattle.task_queues.specs.declared.pass.Mailbox.{Mailbox};
ghost use Rattle.task_queues.specs.declared.pass.Pass.{Pass};
ghost use Rattle.event_worlds.specs.topology_plan.Topology.{Topology};
ghost use Rattle.event_worlds.specs.tuple_account.Histories.{Packet};

/// A law: a row that was split has the books that it had, and the new one has empty ones. The books
/// of joined rows are those of both.
pub fn rows_add_up()
    ensures kept { (f : Packet → ℕ) (vs : List MailView)
        → (weigh (weigh_sent f) (map kept_of vs) ≡ weigh (weigh_sent f) vs)
        × (weigh (weigh_taken f) (map kept_of vs) ≡ weigh (weigh_taken f) vs) }
    ensures cut { (f : Packet → ℕ) (vs : List MailView)
        → (weigh (weigh_sent f) (map cut_of vs) ≡ 0)
        × (weigh (weigh_taken f) (map cut_of vs) ≡ 0) }
    ensures joined { (f : Packet → ℕ) (vs us : List MailView) → length us ≤ length vs
        → (weigh (weigh_sent f) (joined_views vs us)
        ≡ weigh (weigh_sent f) vs + weigh (weigh_sent f) us)
        × (weigh (weigh_taken f) (joined_views vs us)
        ≡ weigh (weigh_taken f) vs + weigh (weigh_taken f) us) }
{}

/// A law: rows that have all numbers of a box, each once, have them after a split and after a join.
pub fn rows_keep_numbers()
    ensures split { (n : ℕ) (vs : List MailView) (others : List (List MailView))
        → numbers_in_box n vs ≢ []
        → Numbered (numbers_in_box n) (vs ∷ others)
        → Numbered (numbers_in_box n) (map kept_of vs ∷ map cut_of vs ∷ others) }
    ensures join { (n : ℕ) (vs us : List MailView) (others : List (List MailView))
        → length us ≤ length vs
        → Numbered (numbers_in_box n) (vs ∷ us ∷ others)
        → Numbered (numbers_in_box n) (joined_views vs us ∷ others) }
{}

/// A law: rows that have all numbers, each once, have them as long as no pass of them changes its
/// own.
pub fn steps_keep_numbers()
    ensures { (n : ℕ) (old new : List (Pass Mail)) (olds news : List Row)
        → map numbers_at new ≡ map numbers_at old → numbers_by news ≡ numbers_by olds
        → AreAll n old olds → AreAll n new news }
{}

/// A law: a row of passes that each have all numbers of their box is all that there is, and where
/// one row is left of all, its passes have all numbers. The passes of a fit row have them.
pub fn one_row_is_whole()
    ensures first { (row : List (Pass Mail)) → AreWhole row
        → (n : ℕ) → n < length row → AreAll n row [] }
    ensures fit { (t : Topology) (boxes : List (Mailbox Mail)) (row : List (Pass Mail))
        → IsFitRow t boxes row → AreWhole row }
    ensures last { (row : List (Pass Mail))
        → ((n : ℕ) → n < length row → AreAll n row []) → AreWhole row }
{}
