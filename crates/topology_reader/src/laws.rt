ghost use Rattle.std.specs.Prelude.{◌≡◌, ◌↔◌, ◌<◌, ◌+◌, ℕ, List, length, true, Some, None, take};
ghost use Rattle.topology_reader.specs.Prelude.{Data, json_of, most_topology_bytes, TopoFault, FileParts, Topology, IsValid, IsWired, form_fault, parts_said, IsInRange};
ghost use Rattle.topology_reader.specs.FirstFault.{first_fault, IsFilePlan, cycle_fault, meaning_fault};
ghost use Rattle.topology_form.specs.Faults.{fault_text};
ghost use Rattle.topology_reader.specs.ValidFile.{IsValidFile};
ghost use Rattle.topology_reader.specs.Wiring.{IsPath, name_at, reaches};

/// A law: the plan of a file without a fault is valid, and its subscriptions, groupings and
/// fields fit together. What the file says is valid too, in its own names. Nothing valid is
/// refused for what it says, where its numbers and names are in range, as they are in a file
/// without a fault of form.
pub fn plans_of_files_are_valid()
    ensures valid { (bytes : List ℕ) (t : Topology) → IsFilePlan bytes t → IsValid t }
    ensures wired { (bytes : List ℕ) (t : Topology) → IsFilePlan bytes t → IsWired t }
    ensures said { (bytes : List ℕ) (value : Data) → json_of bytes ≡ Some value
        → first_fault bytes ≡ None
        → IsValidFile (parts_said value) }
    ensures range { (value : Data) → form_fault value ≡ None → IsInRange (parts_said value) }
    ensures exactly { (p : FileParts) → IsInRange p → (meaning_fault p ≡ None) ↔ IsValidFile p }
{}

/// A law: a bolt reaches what it has a path to, each bolt on it feeding the next. A cycle is told
/// exactly where a bolt has a path to itself, and it names the first such bolt.
pub fn cycles_are_paths()
    ensures reached { (p : FileParts) (a b : ℕ) → (reaches p a b ≡ true) ↔ IsPath p a b }
    ensures none { (p : FileParts)
        → (cycle_fault p ≡ None) ↔ ((c : ℕ) → c < length p.bolts → IsPath p c c → ⊥) }
    ensures first { (p : FileParts) (fault : TopoFault) → cycle_fault p ≡ Some fault
        → (c : ℕ) × (c < length p.bolts) × (fault ≡ TopoFault.Cycle (name_at p c)) × IsPath p c c
        × ((b : ℕ) → b < c → IsPath p b b → ⊥) }
{}

/// A law: the most bytes of a file and one more decide in which words it is
/// refused, or which plan it has.
pub fn first_bytes_decide()
    ensures plan { (bytes : List ℕ) (t : Topology)
        → IsFilePlan (take (most_topology_bytes + 1) bytes) t ↔ IsFilePlan bytes t }
    ensures fault { (bytes : List ℕ) (fault : TopoFault)
        → first_fault (take (most_topology_bytes + 1) bytes) ≡ Some fault
        → (told : TopoFault) × (first_fault bytes ≡ Some told)
        × (fault_text fault ≡ fault_text told) }
    ensures fault_of_whole { (bytes : List ℕ) (fault : TopoFault) → first_fault bytes ≡ Some fault
        → (told : TopoFault) × (first_fault (take (most_topology_bytes + 1) bytes) ≡ Some told)
        × (fault_text told ≡ fault_text fault) }
{}
