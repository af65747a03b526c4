use crate::write::Write;
use storm_values::{Duplicate, Few, Memory, Path, Root, Row, Seq};
use tuple_tickets::{Edge, Edges};

/// A tuple on its way to a component.
#[derive(Debug, Drop)]
pub struct Tuple {
    pub root: Root,
    pub edge: Edge,
    /// The number of the component that it goes to.
    pub component: u32,
    pub row: Row,
}

/// Where the ids of a message's first or produced edges come from: they are, in order, the words of
/// this source from the place `first` on.
#[derive(Clone, Copy, Debug, PartialEq, Eq)]
pub struct Draw {
    pub source: u32,
    /// How many words the source had given before; it ends at 2^64 - 1.
    pub first: u64,
}

/// A root was begun, with these edges of its first tuples.
#[derive(Debug, Drop)]
pub struct Init {
    pub root: Root,
    pub edges: Edges,
    pub draw: Draw,
}

/// The tuple of an edge was executed: it made tuples of these edges, or it wrote.
#[derive(Debug, Drop)]
pub struct Done {
    pub root: Root,
    pub consumed: Edge,
    pub produced: Edges,
    pub draw: Draw,
    pub writes: Few<Write>,
}

/// The tuple at a path failed.
#[derive(Debug, Drop)]
pub struct FailNote {
    pub root: Root,
    pub path: Path,
}

/// What an acker is told.
#[derive(Debug, Drop)]
pub enum AckMsg {
    Init(Init),
    Done(Done),
    Failed(FailNote),
}

/// What goes from a task or the coordinator to a task or an acker, by its number.
#[derive(Debug, Drop)]
pub enum Parcel {
    ToTask(u32, Tuple),
    ToAcker(u32, AckMsg),
}

pub type Parcels = Seq<Parcel>;

impl Duplicate for Tuple {
    fn copy(&self) -> Result<Tuple, Memory> {
        Ok(Tuple {
            root: self.root,
            edge: self.edge.copy()?,
            component: self.component,
            row: self.row.copy()?,
        })
    }
}

impl Duplicate for Init {
    fn copy(&self) -> Result<Init, Memory> {
        Ok(Init {
            root: self.root,
            edges: self.edges.copy()?,
            draw: self.draw,
        })
    }
}

impl Duplicate for Done {
    fn copy(&self) -> Result<Done, Memory> {
        Ok(Done {
            root: self.root,
            consumed: self.consumed.copy()?,
            produced: self.produced.copy()?,
            draw: self.draw,
            writes: self.writes.copy()?,
        })
    }
}

impl Duplicate for FailNote {
    fn copy(&self) -> Result<FailNote, Memory> {
        Ok(FailNote {
            root: self.root,
            path: self.path.copy()?,
        })
    }
}

impl Duplicate for AckMsg {
    fn copy(&self) -> Result<AckMsg, Memory> {
        match self {
            AckMsg::Init(init) => Ok(AckMsg::Init(init.copy()?)),
            AckMsg::Done(done) => Ok(AckMsg::Done(done.copy()?)),
            AckMsg::Failed(note) => Ok(AckMsg::Failed(note.copy()?)),
        }
    }
}

impl Duplicate for Parcel {
    fn copy(&self) -> Result<Parcel, Memory> {
        match self {
            Parcel::ToTask(task, tuple) => Ok(Parcel::ToTask(*task, tuple.copy()?)),
            Parcel::ToAcker(acker, msg) => Ok(Parcel::ToAcker(*acker, msg.copy()?)),
        }
    }
}
