use acker_core::{Acker, Check, Verdict, check_list, followed_order};
use message_lists::Notes;
use std::alloc::Global;
use std::test::Fail;
use tree_model::storm_values::{Few, Memory, Path, Root};
use tree_model::tuple_tickets::{Edge, Edges};
use tree_model::{AckMsg, Done, Draw, FailNote, Init};

const ROOT: Root = Root {
    txid: 1,
    attempt: 1,
};

const DRAW: Draw = Draw {
    source: 0,
    first: 0,
};

// The edges with these ids, each at the path that is one number of its own.
fn edges_of(alloc: Global, ids: &[(u32, u64)]) -> Result<Edges, Memory> {
    let mut edges = Edges::new(alloc);
    for (place, id) in ids {
        edges.push(Edge {
            path: Path::from_slice(alloc, &[*place])?,
            id: *id,
        })?;
    }
    Ok(edges)
}

fn init(alloc: Global, ids: &[(u32, u64)]) -> Result<AckMsg, Memory> {
    Ok(AckMsg::Init(Init {
        root: ROOT,
        edges: edges_of(alloc, ids)?,
        draw: DRAW,
    }))
}

fn done(alloc: Global, consumed: (u32, u64), produced: &[(u32, u64)]) -> Result<AckMsg, Memory> {
    let (place, id) = consumed;
    Ok(AckMsg::Done(Done {
        root: ROOT,
        consumed: Edge {
            path: Path::from_slice(alloc, &[place])?,
            id,
        },
        produced: edges_of(alloc, produced)?,
        draw: DRAW,
        writes: Few::new(alloc),
    }))
}

fn failed(alloc: Global, place: u32) -> Result<AckMsg, Memory> {
    Ok(AckMsg::Failed(FailNote {
        root: ROOT,
        path: Path::from_slice(alloc, &[place])?,
    }))
}

// The length of a complete verdict's list, 100 and more for a fail at this path, 0 for none.
fn shown(verdict: Option<Verdict>) -> u64 {
    match verdict {
        Some(Verdict::Complete { list, .. }) => list.len() as u64,
        Some(Verdict::Fails { path, .. }) => match path.as_slice().first() {
            Some(place) => 100 + u64::from(*place),
            None => 100,
        },
        None => 0,
    }
}

#[test]
fn only_the_last_message_completes(rt: HostRuntime) -> Result<(), Fail> {
    let alloc = rt.alloc();
    let mut acker = Acker::new(alloc, 3)?;
    // edge 5 has the children 3 and 6
    assert_eq!(rt; shown(acker.step(init(alloc, &[(0, 5)])?)?), 0);
    assert_eq!(rt;
        shown(acker.step(done(alloc, (0, 5), &[(1, 3), (2, 6)])?)?),
        0
    );
    assert_eq!(rt; shown(acker.step(done(alloc, (1, 3), &[])?)?), 0);
    assert_eq!(rt; shown(acker.step(done(alloc, (2, 6), &[])?)?), 4);
    // the same before the init
    assert_eq!(rt;
        shown(acker.step(done(alloc, (0, 5), &[(1, 3), (2, 6)])?)?),
        0
    );
    assert_eq!(rt; shown(acker.step(done(alloc, (1, 3), &[])?)?), 0);
    assert_eq!(rt; shown(acker.step(done(alloc, (2, 6), &[])?)?), 0);
    assert_eq!(rt; shown(acker.step(init(alloc, &[(0, 5)])?)?), 4);
    Ok(())
}

#[test]
fn a_fail_is_told_with_the_first_path(rt: HostRuntime) -> Result<(), Fail> {
    let alloc = rt.alloc();
    let mut acker = Acker::new(alloc, 3)?;
    assert_eq!(rt; shown(acker.step(failed(alloc, 7)?)?), 0);
    assert_eq!(rt; shown(acker.step(failed(alloc, 8)?)?), 0);
    // the word is 0
    assert_eq!(rt; shown(acker.step(init(alloc, &[(0, 5), (1, 5)])?)?), 107);
    Ok(())
}

#[test]
fn an_entry_goes_at_the_third_tick_of_three_buckets(rt: HostRuntime) -> Result<(), Fail> {
    let alloc = rt.alloc();
    let mut acker = Acker::new(alloc, 3)?;
    assert_eq!(rt; shown(acker.step(init(alloc, &[(0, 5)])?)?), 0);
    acker.tick();
    acker.tick();
    acker.tick();
    assert_eq!(rt; shown(acker.step(done(alloc, (0, 5), &[])?)?), 0);
    // the new entry has the word 5 and no init
    assert_eq!(rt; shown(acker.step(init(alloc, &[(0, 5)])?)?), 2);
    Ok(())
}

// The places and ids of the edges that are left.
fn left_of(alloc: Global, check: &Check) -> Result<Vec<(u32, u64)>, Memory> {
    let mut left = Vec::new(alloc);
    if let Check::Left(edges) = check {
        for edge in edges.as_slice() {
            let place = edge.path.as_slice().first().copied().unwrap_or(0);
            left.push((place, edge.id))?;
        }
    }
    Ok(left)
}

#[test]
fn open_edges_are_left_in_order(rt: HostRuntime) -> Result<(), Fail> {
    let alloc = rt.alloc();
    let mut list = Notes::new(alloc);
    assert_eq!(rt; left_of(alloc, &check_list(alloc, &list)?)?.len(), 0);
    // three times, and two ids of one path
    list.push(init(alloc, &[(4, 9), (0, 6), (0, 5)])?)?;
    list.push(done(alloc, (4, 9), &[(4, 9), (2, 1)])?)?;
    let left = left_of(alloc, &check_list(alloc, &list)?)?;
    assert_eq!(rt;
        left.as_slice(),
        [(0, 5), (0, 6), (2, 1), (4, 9)].as_slice()
    );
    // each once more
    list.push(done(alloc, (2, 1), &[(4, 9), (0, 5), (0, 6)])?)?;
    assert!(rt; matches!(check_list(alloc, &list)?, Check::Closed(_)));
    Ok(())
}

#[test]
fn edges_of_one_id_are_told_apart(rt: HostRuntime) -> Result<(), Fail> {
    let alloc = rt.alloc();
    let mut list = Notes::new(alloc);
    list.push(init(alloc, &[(0, 5), (1, 5)])?)?;
    let left = left_of(alloc, &check_list(alloc, &list)?)?;
    assert_eq!(rt; left.as_slice(), [(0, 5), (1, 5)].as_slice());
    list.push(done(alloc, (1, 5), &[(0, 5)])?)?;
    assert!(rt; matches!(check_list(alloc, &list)?, Check::Closed(_)));
    Ok(())
}

// A message of the tree below: the edge that it consumes and the ids of those that it produced. The
// init consumes none.
struct Told {
    path: &'static [u32],
    id: u64,
    produced: &'static [u64],
}

// A tree of eight nodes, five deep, in path order.
const TREE: [Told; 9] = [
    Told {
        path: &[],
        id: 0,
        produced: &[5, 6],
    },
    Told {
        path: &[0],
        id: 5,
        produced: &[7],
    },
    Told {
        path: &[0, 0],
        id: 7,
        produced: &[8, 12],
    },
    Told {
        path: &[0, 0, 0],
        id: 8,
        produced: &[9],
    },
    Told {
        path: &[0, 0, 0, 0],
        id: 9,
        produced: &[10, 11],
    },
    Told {
        path: &[0, 0, 0, 0, 0],
        id: 10,
        produced: &[],
    },
    Told {
        path: &[0, 0, 0, 0, 1],
        id: 11,
        produced: &[],
    },
    Told {
        path: &[0, 0, 1],
        id: 12,
        produced: &[],
    },
    Told {
        path: &[1],
        id: 6,
        produced: &[],
    },
];

fn message(alloc: Global, told: &Told) -> Result<AckMsg, Memory> {
    let path = Path::from_slice(alloc, told.path)?;
    let mut edges = Edges::new(alloc);
    let mut number = 0;
    for id in told.produced {
        edges.push(Edge {
            path: path.child(number)?,
            id: *id,
        })?;
        number = number.saturating_add(1);
    }
    if path.is_empty() {
        return Ok(AckMsg::Init(Init {
            root: ROOT,
            edges,
            draw: DRAW,
        }));
    }
    Ok(AckMsg::Done(Done {
        root: ROOT,
        consumed: Edge { path, id: told.id },
        produced: edges,
        draw: DRAW,
        writes: Few::new(alloc),
    }))
}

// The list of the tree's messages with these numbers.
fn list_of(alloc: Global, numbers: &[usize]) -> Result<Notes, Memory> {
    let mut list = Notes::new(alloc);
    for number in numbers {
        if let Some(told) = TREE.get(*number) {
            list.push(message(alloc, told)?)?;
        }
    }
    Ok(list)
}

// The numbers of the dones of a list in path order, and whether they were found by their paths.
// There are none where the list is not closed.
fn order_of(alloc: Global, numbers: &[usize]) -> Result<(Vec<usize>, bool), Memory> {
    let list = list_of(alloc, numbers)?;
    let mut shown = Vec::new(alloc);
    if let Check::Closed(order) = check_list(alloc, &list)? {
        for place in order.as_slice() {
            shown.push(numbers.get(*place).copied().unwrap_or(0))?;
        }
    }
    let found = followed_order(alloc, &list)?;
    Ok((shown, found.is_some()))
}

#[test]
fn dones_are_found_in_path_order(rt: HostRuntime) -> Result<(), Fail> {
    let alloc = rt.alloc();
    let (order, found) = order_of(alloc, &[0, 1, 2, 3, 4, 5, 6, 7, 8])?;
    assert!(rt; found && order.as_slice() == [1, 2, 3, 4, 5, 6, 7, 8].as_slice());
    let (order, found) = order_of(alloc, &[8, 7, 6, 5, 4, 3, 2, 1, 0])?;
    assert!(rt; found && order.as_slice() == [1, 2, 3, 4, 5, 6, 7, 8].as_slice());
    let (order, found) = order_of(alloc, &[4, 1, 8, 6, 0, 3, 7, 5, 2])?;
    assert!(rt; found && order.as_slice() == [1, 2, 3, 4, 5, 6, 7, 8].as_slice());
    Ok(())
}

#[test]
fn lists_of_no_tree_are_sorted(rt: HostRuntime) -> Result<(), Fail> {
    let alloc = rt.alloc();
    // a done that comes three times leaves no edge, and twice it does
    let (order, found) = order_of(alloc, &[0, 1, 8, 6, 4, 3, 4, 7, 5, 2, 4])?;
    assert!(rt; !found && order.as_slice() == [1, 2, 3, 4, 4, 4, 5, 6, 7, 8].as_slice());
    let (order, found) = order_of(alloc, &[0, 1, 8, 6, 4, 3, 4, 7, 5, 2])?;
    assert!(rt; !found && order.is_empty());
    // a done is wanted
    let (order, found) = order_of(alloc, &[0, 1, 2, 3, 4, 6, 7, 8])?;
    assert!(rt; !found && order.is_empty());
    Ok(())
}
