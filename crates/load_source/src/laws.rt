ghost use Rattle.std.specs.Prelude.{◌≡◌, ◌<◌, ℕ, None, All, length};
ghost use Rattle.load_source.specs.File.{load_text};
ghost use Rattle.load_source.specs.Records.{records_after};
ghost use Rattle.storm_values.specs.Rows.{IsRow};
ghost use Rattle.topology_plan.specs.Topology.{Topology};
ghost use Rattle.topology_reader.specs.FirstFault.{IsFilePlan, first_fault};

/// A law: the file of `load` has no fault, and its plan takes records of one field, 100 a batch,
/// with three buckets and four attempts.
pub fn load_file_is_fit()
    ensures no_fault { first_fault load_text ≡ None }
    ensures width { (plan : Topology) → IsFilePlan load_text plan → length plan.spout_fields ≡ 1 }
    ensures batch { (plan : Topology) → IsFilePlan load_text plan → plan.batch ≡ 100 }
    ensures buckets { (plan : Topology) → IsFilePlan load_text plan → plan.buckets ≡ 3 }
    ensures attempts { (plan : Topology) → IsFilePlan load_text plan → plan.attempts ≡ 4 }
{}

/// A law: the records are rows of one value, and as many as were asked for.
pub fn load_records_are_rows()
    ensures rows { (n x : ℕ) → All (IsRow 1) (records_after n x) }
    ensures count { (n x : ℕ) → length (records_after n x) ≡ n }
{}
