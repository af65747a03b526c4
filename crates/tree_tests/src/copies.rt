// Messages and parcels are copied with what they hold.
use std::alloc::Global;
use std::test::Fail;
use tree_model::storm_values::{Duplicate, Few, Memory, Path, Root, Row};
use tree_model::{AckMsg, Done, Draw, Edge, Edges, FailNote, Init, Parcel, Tuple};

const ROOT: Root = Root {
    txid: 3,
    attempt: 2,
};

const DRAW: Draw = Draw {
    source: 1,
    first: 4,
};

#[test]
fn parcels_are_copied(rt: HostRuntime) -> Result<(), Fail> {
    let alloc = rt.alloc();
    let tuple = Tuple {
        root: ROOT,
        edge: edge(alloc, 5)?,
        component: 6,
        row: Row::new(alloc),
    };
    let tuple = tuple.copy()?;
    assert_eq!(rt; tuple.component, 6);
    let _parcel = Parcel::ToTask(7, tuple).copy()?;
    Ok(())
}

#[test]
fn messages_are_copied(rt: HostRuntime) -> Result<(), Fail> {
    let alloc = rt.alloc();
    let init = Init {
        root: ROOT,
        edges: edges(alloc)?,
        draw: DRAW,
    };
    let init = init.copy()?;
    assert_eq!(rt; init.edges.len(), 1);
    let _message = AckMsg::Init(init).copy()?;
    let done = Done {
        root: ROOT,
        consumed: edge(alloc, 5)?,
        produced: edges(alloc)?,
        draw: DRAW,
        writes: Few::new(alloc),
    };
    let done = done.copy()?;
    assert_eq!(rt; done.draw.first, 4);
    let _message = AckMsg::Done(done).copy()?;
    Ok(())
}

#[test]
fn notes_of_failures_are_copied(rt: HostRuntime) -> Result<(), Fail> {
    let note = FailNote {
        root: ROOT,
        path: Path::from_slice(rt.alloc(), &[1, 2])?,
    };
    let note = note.copy()?;
    assert_eq!(rt; note.path.len(), 2);
    let _parcel = Parcel::ToAcker(2, AckMsg::Failed(note)).copy()?;
    Ok(())
}

fn edge(alloc: Global, id: u64) -> Result<Edge, Memory> {
    Ok(Edge {
        path: Path::from_slice(alloc, &[0])?,
        id,
    })
}

fn edges(alloc: Global) -> Result<Edges, Memory> {
    let mut edges = Edges::new(alloc);
    edges.push(edge(alloc, 5)?)?;
    Ok(edges)
}
