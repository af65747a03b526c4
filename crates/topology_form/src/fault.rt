//! What can be wrong with a topology file, and what is printed of it.

ghost use Rattle.std.specs.Prelude.{◌≡◌, ◌++◌, codes, decimal, IfOk, string_bytes};
ghost use Rattle.topology_form.specs.Faults.{fault_text, shown};

use serde_json::Value;
use std::alloc::Global;
use storm_values::{MOST_TOPOLOGY_BYTES, MOST_WEIGHT, Memory, Txt};

/// Why a file has no plan: the first fault in the order of the checks.
#[derive(Debug, Drop)]
pub enum TopoFault {
    /// How many bytes there are.
    TooLong(usize),
    NotJson,
    /// The member that is not there.
    Missing(Txt),
    /// The member whose value, or an item of it, is not of its form.
    WrongKind(Txt),
    /// A text that is none of the words, or a member that no table has.
    UnknownName(Txt),
    /// The number or length that a member has, and the least and most that it may have.
    OutOfRange(Txt, i64, u32, u32),
    /// The name that stands twice.
    Twice(Txt),
    /// The name of an input that is neither the spout's nor a bolt's.
    NoSource(Txt),
    /// The first bolt that can be reached from itself.
    Cycle(Txt),
    /// The component whose sources have different fields.
    FieldsDiffer(Txt),
    /// A component and the field that it names.
    NoField(Txt, Txt),
    /// The transactional state under an opaque spout.
    NotExactlyOnce(Txt),
    /// The weight, which ends at 2^64 - 1.
    Weight(u64),
    Memory,
}

impl From<Memory> for TopoFault {
    ghost use Rattle.std.specs.Prelude.{◌≡◌};
    ghost use Rattle.topology_form.specs.declared.fault.TopoFault.TheVariants as fault;

    ghost from_gives = { λ _ made. made ≡ fault.Memory };

    fn from(_: Memory) -> TopoFault {
        TopoFault::Memory
    }
}

impl TopoFault {
    /// What is printed of the fault. Texts from the file stand as compact JSON strings, which take
    /// memory, so it is no `Display`.
    pub fn text(&self, alloc: Global) -> Result<String, Memory>
        ensures { IfOk result (λ text. string_bytes text ≡ fault_text self.now) }
    {
        match self {
            TopoFault::TooLong(_) => format!(in alloc; "longer than {MOST_TOPOLOGY_BYTES} bytes"),
            TopoFault::NotJson => String::from_str(alloc, "no JSON"),
            TopoFault::Missing(member) => after(alloc, "missing ", member),
            TopoFault::WrongKind(name) => after(alloc, "wrong kind ", name),
            TopoFault::UnknownName(text) => after(alloc, "unknown ", text),
            TopoFault::OutOfRange(member, found, least, most) => {
                ranged(alloc, member, *found, *least, *most)
            }
            TopoFault::Twice(text) => format!(in alloc; "{} twice", shown(alloc, text)?),
            TopoFault::NoSource(name) => after(alloc, "no source ", name),
            TopoFault::Cycle(bolt) => after(alloc, "cycle at ", bolt),
            TopoFault::FieldsDiffer(component) => after(alloc, "fields differ at ", component),
            TopoFault::NoField(component, field) => {
                let field = shown(alloc, field)?;
                format!(in alloc; "no field {field} at {}", shown(alloc, component)?)
            }
            TopoFault::NotExactlyOnce(state) => after(alloc, "not exactly once ", state),
            TopoFault::Weight(found) => too_heavy(alloc, *found, MOST_WEIGHT),
            TopoFault::Memory => String::from_str(alloc, "out of memory"),
        }
    }
}

/// A text as a compact JSON string.
fn shown(alloc: Global, text: &Txt) -> Result<String, Memory>
    ensures { IfOk result (λ made. string_bytes made ≡ shown text.now) }
{
    let value = Value::String(String::from_str(alloc, text.as_str())?);
    value.to_string(alloc)
}

fn after(alloc: Global, words: &str, text: &Txt) -> Result<String, Memory>
    ensures { IfOk result (λ made. string_bytes made ≡ words.now ++ shown text.now) }
{
    format!(in alloc; "{words}{}", shown(alloc, text)?)
}

fn ranged(alloc: Global, name: &Txt, found: i64, least: u32, most: u32) -> Result<String, Memory>
    ensures { IfOk result
        (λ made. string_bytes made ≡ fault_text (TopoFault.OutOfRange name.now found least most)) }
{
    let name = shown(alloc, name)?;
    format!(in alloc; "{name} is {found}, not from {least} to {most}")
}

fn too_heavy(alloc: Global, weight: u64, most: u64) -> Result<String, Memory>
    ensures { IfOk result (λ made. string_bytes made
        ≡ codes "weight " ++ decimal weight ++ codes ", most " ++ decimal most) }
{
    format!(in alloc; "weight {weight}, most {most}")
}
