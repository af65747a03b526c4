#![tactic(auto, unfolding(crate::specs::Reading::required, crate::specs::Reading::optional))]

ghost use Rattle.std.specs.Prelude.{◌≡◌, ◌≢◌, Some, None, Ok, Err, option_map, IfOk, IfErr};
ghost use Rattle.topology_form.specs.Prelude.{get_member, as_object, view, WrongKind, Memory};
ghost use Rattle.topology_form.specs.Reading.{Gives, Takes, Reader, left_in, without, an_object, ends, required, optional};

use crate::fault::TopoFault;
use crate::forms::{Form, wrong_kind};
use serde_json::{Map, Value as Json};
use std::alloc::Global;
use storm_values::Txt;

/// The members of an object that are not read yet.
#[derive(Drop)]
pub struct Object {
    pub alloc: Global,
    members: Map<String, Json>,
}

impl Object {
    pub fn from_value(alloc: Global, name: &str, value: Json) -> Result<Self, TopoFault>
        ensures good { IfOk result (λ object. as_object (view value) ≡ Some (left_in object)) }
        ensures fault { IfErr result (λ fault. fault ≢ Memory
            → (as_object (view value) ≡ None) × (fault ≡ WrongKind name.now)) }
    {
        match value {
            Json::Object(members) => Ok(Object { alloc, members }),
            _ => Err(wrong_kind(alloc, name)),
        }
    }

    fn take(&mut self, name: &str) -> Option<Json>
        ensures found { option_map view result ≡ get_member name.now (left_in self.old) }
        ensures rest { left_in self.new ≡ without name.now (left_in self.old) }
    {
        self.members.remove(name)
    }

    /// What a member says that has to be there.
    pub fn required<T: Drop, F: Form<T>>(&mut self, name: &str, form: &F) -> Result<T, TopoFault>
        ensures { Takes result (left_in self.new)
            (required name.now (F.form form.now) (left_in self.old)) }
    {
        match self.take(name) {
            Some(value) => form.read(self.alloc, name, value),
            None => Err(TopoFault::Missing(Txt::from_str(self.alloc, name)?)),
        }
    }

    /// What a member says that has to be there, and what was read before it, which is let go here
    /// where the member has a fault: in a generic function that is one call for any type.
    pub fn required_beside<P: Drop, T: Drop, F: Form<T>>(
        &mut self,
        part: P,
        name: &str,
        form: &F,
    ) -> Result<(P, T), TopoFault>
        ensures ok { IfOk result (λ read. (read.0 ≡ part)
            × (required name.now (F.form form.now) (left_in self.old)
            ≡ Ok (read.1, left_in self.new))) }
        ensures fault { IfErr result (λ fault. fault ≢ Memory
            → required name.now (F.form form.now) (left_in self.old) ≡ Err fault) }
    {
        Ok((part, self.required(name, form)?))
    }

    pub fn optional<T: Drop, F: Form<T>>(
        &mut self,
        name: &str,
        default: T,
        form: &F,
    ) -> Result<T, TopoFault>
        ensures { Takes result (left_in self.new)
            (optional name.now default (F.form form.now) (left_in self.old)) }
    {
        match self.take(name) {
            Some(value) => form.read(self.alloc, name, value),
            None => Ok(default),
        }
    }
}

/// What the members of an object say.
pub trait Reader<T: Drop> {
    ghost reader: { Self → Reader T };

    fn read(&self, object: &mut Object) -> Result<T, TopoFault>
        ensures { Takes result (left_in object.new) (reader self.now (left_in object.old)) };
}

/// An object with these members and no other.
#[derive(Drop)]
pub struct ObjectOf<R>(pub R);

impl<T: Drop, R: Reader<T>> Form<T> for ObjectOf<R> {
    ghost form = { λ object. an_object (R.reader object.0) };

    fn read(&self, alloc: Global, name: &str, value: Json) -> Result<T, TopoFault> {
        let mut object = Object::from_value(alloc, name, value)?;
        let part = self.0.read(&mut object)?;
        ends(part, object)
    }
}

/// What was read, where no member is left.
fn ends<T: Drop>(part: T, object: Object) -> Result<T, TopoFault>
    ensures { Gives result (ends part (left_in object)) }
{
    let mut members = object.members;
    match members.pop_first() {
        Some((name, _)) => Err(TopoFault::UnknownName(Txt::from_string(name))),
        None => Ok(part),
    }
}
