//! One decoder an object: its members in the order of the format's lines, each taken out by its
//! form, and then the first member that is left over.

ghost use Rattle.std.specs.Prelude.{◌≡◌, ◌≢◌, Some, None, IfOk, IfErr};
ghost use Rattle.topology_form.specs.Prelude.{Data, view};
ghost use Rattle.topology_form.specs.Format.{form_fault, parts_said, has_partitions, partitions_if, a_spout, a_grouping, an_input, a_bolt, amount_for, grouped_by, a_state, some_numbers, a_file};
ghost use Rattle.topology_form.specs.Ranges.{IsInRange};
ghost use Rattle.topology_form.specs.Reading.{Takes, left_in};

use crate::fault::TopoFault;
use crate::forms::{Form, Name, Number, SomeNames, SomeObjects, Word};
use crate::object::{Object, ObjectOf, Reader};
use crate::operations::BoltOperation;
use crate::parts::{
    BodyPart, ComponentPart, FileParts, GroupingPart, GroupingWord, Input, SpoutPart, StatePart,
};
use serde_json::Value as Json;
use std::alloc::Global;
use storm_values::{
    LEAST_BUCKETS, MOST_ACKERS, MOST_ATTEMPTS, MOST_BATCH, MOST_BOLT_INPUTS, MOST_BOLTS,
    MOST_BUCKETS, MOST_FIELDS, MOST_PENDING, MOST_STATE_INPUTS, MOST_STATES, MOST_TASKS, Memory,
    Names, Seq, Txt,
};
use topology_plan::{Fold, Kind, MOST_PARTITIONS};

/// What a file's value says, or its first fault of form. The value's texts are moved,
/// and time is linear in it.
#[tactic(auto, unfolding(crate::specs::Format::form_fault, crate::specs::Format::parts_said))]
pub fn parts_from(alloc: Global, value: Json) -> Result<FileParts, TopoFault>
    ensures said { IfOk result
        (λ parts. (form_fault (view value) ≡ None) × (parts ≡ parts_said (view value))) }
    ensures fault { IfErr result
        (λ fault. fault ≢ TopoFault.Memory → form_fault (view value) ≡ Some fault) }
{
    ObjectOf(File).read(alloc, "topology", value)
}

/// A law: what a file without a fault of form says is in range.
pub fn files_are_in_range()
    ensures { (value : Data) → form_fault value ≡ None → IsInRange (parts_said value) }
{}

const KINDS: [(&str, Kind); 2] = [
    ("transactional", Kind::Transactional),
    ("opaque", Kind::Opaque),
];

const FIELDS: SomeNames = SomeNames(1, MOST_FIELDS);

/// Whether a spout of this kind has partitions in a file of this version.
fn has_partitions(version: u32, kind: Kind) -> bool
    ensures { result ≡ has_partitions version kind }
{
    match kind {
        Kind::Transactional => false,
        Kind::Opaque => version == 2,
    }
}

fn partitions_if(object: &mut Object, has: bool) -> Result<u32, TopoFault>
    ensures { Takes result (left_in object.new) (partitions_if has (left_in object.old)) }
{
    if has {
        object.required("partitions", &Number(1, MOST_PARTITIONS))
    } else {
        Ok(0)
    }
}

/// The spout in a file of this version.
#[derive(Drop)]
struct Spout {
    version: u32,
}

impl Reader<SpoutPart> for Spout {
    ghost reader = { λ spout. a_spout spout.version };

    fn read(&self, object: &mut Object) -> Result<SpoutPart, TopoFault> {
        let name = object.required("name", &Name)?;
        let kind = object.required("kind", &Word(&KINDS))?;
        let fields = object.required("fields", &FIELDS)?;
        let batch = object.required("batch", &Number(1, MOST_BATCH))?;
        let partitions = partitions_if(object, has_partitions(self.version, kind))?;
        Ok(SpoutPart {
            name,
            kind,
            fields,
            batch,
            partitions,
        })
    }
}

const GROUPINGS: [(&str, GroupingWord); 7] = [
    ("shuffle", GroupingWord::Shuffle),
    ("fields", GroupingWord::Fields),
    ("all", GroupingWord::All),
    ("global", GroupingWord::Global),
    ("direct", GroupingWord::Direct),
    ("none", GroupingWord::Shuffle),
    ("local_or_shuffle", GroupingWord::Shuffle),
];

fn grouping_from(object: &mut Object) -> Result<GroupingPart, TopoFault>
    ensures { Takes result (left_in object.new) (a_grouping (left_in object.old)) }
{
    match object.required("grouping", &Word(&GROUPINGS))? {
        GroupingWord::Shuffle => Ok(GroupingPart::Shuffle),
        GroupingWord::Fields => Ok(GroupingPart::Fields(object.required("key", &FIELDS)?)),
        GroupingWord::All => Ok(GroupingPart::All),
        GroupingWord::Global => Ok(GroupingPart::Global),
        GroupingWord::Direct => Ok(GroupingPart::Direct),
    }
}

struct BoltInput;

impl Reader<Input> for BoltInput {
    ghost reader = { λ _. an_input };

    fn read(&self, object: &mut Object) -> Result<Input, TopoFault> {
        Ok(Input {
            from: object.required("from", &Name)?,
            grouping: grouping_from(object)?,
        })
    }
}

struct Bolt;

impl Reader<ComponentPart> for Bolt {
    ghost reader = { λ _. a_bolt };

    fn read(&self, object: &mut Object) -> Result<ComponentPart, TopoFault> {
        let name = object.required("name", &Name)?;
        let tasks = object.required("tasks", &Number(1, MOST_TASKS))?;
        let operation = object.required("op", &ObjectOf(BoltOperation))?;
        let (operation, inputs) = object.required_beside(
            operation,
            "inputs",
            &SomeObjects(1, MOST_BOLT_INPUTS, ObjectOf(BoltInput)),
        )?;
        Ok(ComponentPart {
            name,
            tasks,
            inputs,
            body: BodyPart::Bolt(operation),
        })
    }
}

const FOLDS: [(&str, Fold); 5] = [
    ("count", Fold::Count),
    ("sum", Fold::Sum),
    ("last", Fold::Last),
    ("max", Fold::Max),
    ("custom", Fold::Custom),
];

fn amount_from(object: &mut Object, fold: Fold) -> Result<Option<Txt>, TopoFault>
    ensures { Takes result (left_in object.new) (amount_for fold (left_in object.old)) }
{
    match fold {
        Fold::Count => Ok(None),
        Fold::Sum | Fold::Last | Fold::Max | Fold::Custom => Ok(Some(object.required(
            "amount", &Name,
        )?)),
    }
}

fn grouped_by(alloc: Global, key: &Names, names: Names) -> Result<Seq<Input>, Memory>
    ensures { IfOk result (λ inputs. inputs ≡ grouped_by key.now names) }
{
    let mut inputs = Seq::new(alloc);
    for from in names.into_vec() {
        let grouping = GroupingPart::Fields(key.copy()?);
        inputs.push(Input { from, grouping })?;
    }
    Ok(inputs)
}

struct State;

impl Reader<ComponentPart> for State {
    ghost reader = { λ _. a_state };

    fn read(&self, object: &mut Object) -> Result<ComponentPart, TopoFault> {
        let name = object.required("name", &Name)?;
        let kind = object.required("kind", &Word(&KINDS))?;
        let tasks = object.required("parts", &Number(1, MOST_TASKS))?;
        let key = object.required("key", &FIELDS)?;
        let fold = object.required("fold", &Word(&FOLDS))?;
        let amount = amount_from(object, fold)?;
        let names = object.required("inputs", &SomeNames(1, MOST_STATE_INPUTS))?;
        let inputs = grouped_by(object.alloc, &key, names)?;
        Ok(ComponentPart {
            name,
            tasks,
            inputs,
            body: BodyPart::State(StatePart {
                kind,
                key,
                fold,
                amount,
            }),
        })
    }
}

/// The numbers of ackers, of batches in flight, of buckets and of attempts.
fn numbers_from(object: &mut Object) -> Result<(u32, u32, u32, u32), TopoFault>
    ensures { Takes result (left_in object.new) (some_numbers (left_in object.old)) }
{
    Ok((
        object.optional("ackers", 1, &Number(1, MOST_ACKERS))?,
        object.optional("pending", 1, &Number(1, MOST_PENDING))?,
        object.optional("buckets", 3, &Number(LEAST_BUCKETS, MOST_BUCKETS))?,
        object.optional("attempts", 10, &Number(1, MOST_ATTEMPTS))?,
    ))
}

struct File;

impl Reader<FileParts> for File {
    ghost reader = { λ _. a_file };

    fn read(&self, object: &mut Object) -> Result<FileParts, TopoFault> {
        let version = object.required("version", &Number(1, 2))?;
        let spout = object.required("spout", &ObjectOf(Spout { version }))?;
        let bolts = object.required("bolts", &SomeObjects(0, MOST_BOLTS, ObjectOf(Bolt)))?;
        let states = object.required("states", &SomeObjects(1, MOST_STATES, ObjectOf(State)))?;
        let (ackers, pending, buckets, attempts) = numbers_from(object)?;
        Ok(FileParts {
            spout,
            bolts,
            states,
            ackers,
            pending,
            buckets,
            attempts,
        })
    }
}
