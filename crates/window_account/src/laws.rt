//! Laws of a window's account, each a call that does nothing.
ghost use Rattle.std.specs.Prelude.{◌≡◌, ◌+◌, ◌++◌, ℕ, Bool, true, List, [], ◌∷◌, fold, map, length, slice_get, Some};
ghost use Rattle.std.specs.List.{AllByRecursion, AllZip, flat_map};
ghost use Rattle.shared_ledger.specs.declared.rule.Book.{Book};
ghost use Rattle.shared_ledger.specs.declared.rule.Call.{Call};
ghost use Rattle.state_tallies.specs.Tallies.{capped};
ghost use Rattle.tree_model.specs.bolt_ops.RowOp.{Custom};
ghost use Rattle.tree_model.specs.storm_values.declared.value.Value.{Value};
ghost use Rattle.tree_model.specs.topology_plan.Topology.{Topology};
ghost use Rattle.tree_model.specs.topology_plan.Valid.{IsValid};
ghost use Rattle.tree_model.specs.declared.messages.AckMsg.{AckMsg};
ghost use Rattle.tree_model.specs.declared.messages.Tuple.{Tuple};
ghost use Rattle.tree_model.specs.Lists.{Covers};
ghost use Rattle.tracked_trees.specs.Reached.{is_good};
ghost use Rattle.tuple_account.specs.Accounts.{IsRun};
ghost use Rattle.tuple_account.specs.Issued.{Run, children_of, notes_of};
ghost use Rattle.window_account.specs.Calls.{IsFit, call_of, noted, tallied_in};
ghost use Rattle.window_account.specs.Noted.{IsJudged, IsNoted};
ghost use Rattle.window_account.specs.Stands.{Opens, Stands};

/// A law: where all records were begun and nothing was counted, as many depths are left as there
/// are components.
pub fn begun_records_stand()
    ensures { (t : Topology) (attempt : ℕ) (custom : Custom) (rows : List (List Value))
        (waiting : List Tuple) (lists : List (List AckMsg)) (calls : List Call)
        (counts : ℕ → List ℕ → ℕ)
        → Opens t attempt (length rows) rows waiting lists calls
        → ((state : ℕ) (key : List ℕ) → counts state key ≡ 0)
        → Stands t custom attempt 1 (length t.components) rows waiting lists calls counts }
{}

/// A law: where all tuples of a depth were executed, noted, called and counted, their children
/// stand one depth further down.
pub fn depths_follow()
    ensures { (t : Topology) (custom : Custom) (attempt depth levels : ℕ)
        (rows : List (List Value)) (old : List Tuple) (lists : List (List AckMsg))
        (calls : List Call) (counts : ℕ → List ℕ → ℕ)
        → Stands t custom attempt depth (levels + 1) rows old lists calls counts
        → (us : List Run) → map (λ (u : Run). u.tuple) us ≡ old
        → AllByRecursion (IsRun t custom) us
        → (new : List Tuple) → new ≡ flat_map (children_of t custom) us
        → AllByRecursion (IsFit t) new
        → (lists_new : List (List AckMsg))
        → lists_new ≡ fold noted lists (flat_map (notes_of t custom) us)
        → (calls_new : List Call)
        → calls_new ≡ calls ++ map call_of (flat_map (notes_of t custom) us)
        → (counts_new : ℕ → List ℕ → ℕ)
        → ((state : ℕ) (key : List ℕ) → capped (counts_new state key)
        ≡ capped (counts state key + tallied_in t state key old))
        → Stands t custom attempt (depth + 1) levels rows new lists_new calls_new counts_new }
{}

/// A law: after as many depths as there are components nothing waits; each record has its
/// messages, and one that is judged by them is acked exactly where its attempt is good, and then
/// they cover its tree.
pub fn ended_windows_are_judged()
    ensures noted { (t : Topology) (custom : Custom) → IsValid t → (attempt levels : ℕ)
        (rows : List (List Value)) (waiting : List Tuple) (lists : List (List AckMsg))
        (calls : List Call) (counts : ℕ → List ℕ → ℕ)
        → Stands t custom attempt (length t.components + 1) levels rows waiting lists calls counts
        → (i : ℕ) (row : List Value) → slice_get rows i ≡ Some row
        → (book : Book) (list : List AckMsg) → book.calls ≡ calls
        → slice_get lists i ≡ Some list → IsNoted t custom attempt book i row list }
    ensures covers { (t : Topology) (custom : Custom) → IsValid t → (attempt levels : ℕ)
        (rows : List (List Value)) (waiting : List Tuple) (lists : List (List AckMsg))
        (calls : List Call) (counts : ℕ → List ℕ → ℕ)
        → Stands t custom attempt (length t.components + 1) levels rows waiting lists calls counts
        → (i : ℕ) (row : List Value) → slice_get rows i ≡ Some row
        → (list : List AckMsg) (acked : Bool) → slice_get lists i ≡ Some list
        → IsJudged list acked → acked ≡ true → Covers t custom (row ∷ []) list }
    ensures acked { (t : Topology) (custom : Custom) → IsValid t → (attempt levels : ℕ)
        (rows : List (List Value)) (waiting : List Tuple) (lists : List (List AckMsg))
        (calls : List Call) (counts : ℕ → List ℕ → ℕ)
        → Stands t custom attempt (length t.components + 1) levels rows waiting lists calls counts
        → (acked : List Bool) → AllZip IsJudged lists acked
        → acked ≡ map (is_good t custom attempt) rows }
{}
