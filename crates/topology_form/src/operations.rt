//! The operations of bolts: the word of each, and its members in the order of the format.
#![tactic(auto, unfolding(crate::specs::Operations::an_operation))]

ghost use Rattle.std.specs.Prelude.{◌≡◌};
ghost use Rattle.topology_form.specs.Operations.{a_field, an_operation, doing, making, operation_of};
ghost use Rattle.topology_form.specs.Reading.{Takes, left_in};

use crate::fault::TopoFault;
use crate::forms::{Constant, Name, Number, SomeNames, Word};
use crate::object::{Object, Reader};
use storm_values::{MOST_BELOW, MOST_FIELDS, Names, Txt};
use topology_plan::{Function, Test};

/// An operation, with fields by their names.
#[derive(Drop)]
pub struct Operation {
    /// The fields that it reads.
    pub reads: Names,
    /// The field that it makes.
    pub into: Option<Txt>,
    pub function: Function,
}

/// The word of `do`.
#[derive(Clone, Copy)]
pub enum OperationWord {
    Split,
    Project,
    Filter,
    Set,
    Len,
    Route,
    Flaky,
    Mute,
    Custom,
}

const OPERATIONS: [(&str, OperationWord); 9] = [
    ("split", OperationWord::Split),
    ("project", OperationWord::Project),
    ("filter", OperationWord::Filter),
    ("set", OperationWord::Set),
    ("len", OperationWord::Len),
    ("route", OperationWord::Route),
    ("flaky", OperationWord::Flaky),
    ("mute", OperationWord::Mute),
    ("custom", OperationWord::Custom),
];

const TESTS: [(&str, Test); 3] = [("eq", Test::Eq), ("ne", Test::Ne), ("lt", Test::Lt)];

const BELOW: Number = Number(1, MOST_BELOW);

pub(crate) struct BoltOperation;

impl Reader<Operation> for BoltOperation {
    ghost reader = { λ _. an_operation };

    fn read(&self, object: &mut Object) -> Result<Operation, TopoFault> {
        let word = object.required("do", &Word(&OPERATIONS))?;
        operation_from(object, word)
    }
}

fn operation_from(object: &mut Object, word: OperationWord) -> Result<Operation, TopoFault>
    ensures { Takes result (left_in object.new) (operation_of word (left_in object.old)) }
{
    match word {
        OperationWord::Split => making(object, Function::Split),
        OperationWord::Project => {
            let reads = object.required("fields", &SomeNames(1, MOST_FIELDS))?;
            Ok(doing(reads, Function::Project))
        }
        OperationWord::Filter => {
            let reads = a_field(object)?;
            let test = object.required("test", &Word(&TESTS))?;
            let value = object.required("value", &Constant)?;
            Ok(doing(reads, Function::Filter { test, value }))
        }
        OperationWord::Set => {
            let reads = a_field(object)?;
            let value = object.required("value", &Constant)?;
            Ok(doing(reads, Function::Set { value }))
        }
        OperationWord::Len => making(object, Function::Len),
        OperationWord::Route => Ok(doing(a_field(object)?, Function::Route)),
        OperationWord::Flaky => {
            let below = object.required("below", &BELOW)?;
            Ok(doing(Names::new(object.alloc), Function::Flaky { below }))
        }
        OperationWord::Mute => {
            let below = object.required("below", &BELOW)?;
            Ok(doing(Names::new(object.alloc), Function::Mute { below }))
        }
        OperationWord::Custom => Ok(doing(Names::new(object.alloc), Function::Custom)),
    }
}

fn doing(reads: Names, function: Function) -> Operation
    ensures { result ≡ doing reads function }
{
    Operation {
        reads,
        into: None,
        function,
    }
}

/// One field that is read, and one that is made.
fn making(object: &mut Object, function: Function) -> Result<Operation, TopoFault>
    ensures { Takes result (left_in object.new) (making function (left_in object.old)) }
{
    let reads = a_field(object)?;
    let into = object.required("as", &Name)?;
    Ok(Operation {
        reads,
        into: Some(into),
        function,
    })
}

fn a_field(object: &mut Object) -> Result<Names, TopoFault>
    ensures { Takes result (left_in object.new) (a_field (left_in object.old)) }
{
    let mut reads = Names::new(object.alloc);
    reads.push(object.required("field", &Name)?)?;
    Ok(reads)
}
