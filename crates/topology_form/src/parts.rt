//! What a topology file says, before its names are looked up.

use crate::operations::Operation;
use storm_values::{Memory, Names, Seq, Txt};
use topology_plan::{Fold, Kind};

/// What a file says of a grouping. `none` and `local_or_shuffle` are `Shuffle` too.
#[derive(Drop)]
pub enum GroupingPart {
    Shuffle,
    Fields(Names),
    All,
    Global,
    Direct,
}

#[derive(Drop)]
pub struct Input {
    pub from: Txt,
    pub grouping: GroupingPart,
}

/// What the word of `grouping` says.
#[derive(Clone, Copy)]
pub enum GroupingWord {
    Shuffle,
    Fields,
    All,
    Global,
    Direct,
}

#[derive(Drop)]
pub struct SpoutPart {
    pub name: Txt,
    pub kind: Kind,
    pub fields: Names,
    pub batch: u32,
    /// 0 where the spout has none.
    pub partitions: u32,
}

#[derive(Drop)]
pub struct StatePart {
    pub kind: Kind,
    pub key: Names,
    pub fold: Fold,
    pub amount: Option<Txt>,
}

#[derive(Drop)]
pub enum BodyPart {
    Bolt(Operation),
    State(StatePart),
}

/// A bolt or a state. Each input of a state is grouped by the state's key.
#[derive(Drop)]
pub struct ComponentPart {
    pub name: Txt,
    /// A state's are its parts.
    pub tasks: u32,
    pub inputs: Seq<Input>,
    pub body: BodyPart,
}

/// All that a file says.
#[derive(Drop)]
pub struct FileParts {
    pub spout: SpoutPart,
    pub bolts: Seq<ComponentPart>,
    pub states: Seq<ComponentPart>,
    pub ackers: u32,
    pub pending: u32,
    pub buckets: u32,
    pub attempts: u32,
}
