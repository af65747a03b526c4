ghost use Rattle.std.specs.Prelude.{◌≡◌, ◌++◌, ℕ, List, ℤ};
ghost use Rattle.tree_model.specs.bolt_ops.RowOp.{Custom, IsCustom};
ghost use Rattle.tree_model.specs.topology_plan.declared.parts.Fold.{Fold};
ghost use Rattle.tree_model.specs.declared.write.Pair.{Pair};
ghost use Rattle.tree_model.specs.declared.write.Write.{Write};
ghost use Rattle.tree_model.specs.Tables.{IsTable, folded};
ghost use Rattle.fold_tables.specs.Merging.{value_of, joined, merged, AreFew, AreFewWrites, AreMerged};

/// A law: the value of joined amounts is the merge of the values of each, where there are so few
/// that no sum comes to an end of 128 bits.
pub fn values_of_joined_amounts()
    ensures { (custom : Custom) (by : Fold) (xs ys : List ℤ)
        → IsCustom custom → AreFew (xs ++ ys)
        → value_of (folded custom by) (xs ++ ys) ≡ merged (joined custom by)
        (value_of (folded custom by) xs) (value_of (folded custom by) ys) }
{}

/// A law: the table of joined writes is the merge of the tables of each, where there are so few.
pub fn tables_of_joined_writes()
    ensures { (custom : Custom) (by : Fold) (xs ys : List Write) (state : ℕ)
        (earlier later pairs : List Pair)
        → IsCustom custom → AreFewWrites (xs ++ ys)
        → IsTable (folded custom by) xs state earlier → IsTable (folded custom by) ys state later
        → AreMerged (joined custom by) earlier later pairs
        → IsTable (folded custom by) (xs ++ ys) state pairs }
{}
