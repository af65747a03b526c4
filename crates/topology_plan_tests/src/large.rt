// Files with many bolts, and their weights.
use std::alloc::Global;
use std::fmt::Write;
use std::test::Fail;
use storm_values::Memory;
use test_kit::Mismatch;
use topology_reader::read_topology;
use topology_test_kit::check_told;

// How many bolts stand in a chain, how many tasks each has, how many the last has, their grouping,
// and what is printed of the fault.
const CHAINS: [(u32, u32, u32, &str, &str); 12] = [
    (32, 1, 1, "shuffle", "no fault"),
    // 31 * 32, 31, and the state's one part
    (32, 32, 31, "global", "no fault"),
    (
        32,
        32,
        32,
        "global",
        "\"tasks in all\" is 1025, not from 1 to 1024",
    ),
    // 64, 64 * 4, and the state's 64 * 4: 576
    (2, 64, 4, "all", "no fault"),
    // 64, 64 * 31, and as many of the state: 4,032
    (2, 64, 31, "all", "no fault"),
    (2, 64, 32, "all", "weight 4160, most 4096"),
    // 2 to 1,024, each twice the one before, and 1,024 of the state: 3,070
    (10, 2, 2, "all", "no fault"),
    (11, 2, 2, "all", "weight 6142, most 4096"),
    // powers of 4 up to the 31st, and that of the state
    (31, 4, 4, "all", "weight 10760600709663905108, most 4096"),
    // the sum passes the most, but no product does
    (32, 4, 3, "all", "weight 18446744073709551615, most 4096"),
    // 4 to the 32nd is the most and one
    (32, 4, 4, "all", "weight 18446744073709551615, most 4096"),
    (23, 11, 11, "all", "weight 18446744073709551615, most 4096"),
];

// A file of bolts and of a state that takes from the names of a list.
fn file(alloc: Global, bolts: &str, inputs: &str) -> Result<String, Memory> {
    format!(in alloc;
        r#"{{"version":1,
 "spout":{{"name":"s","kind":"transactional","fields":["a"],"batch":1}},
 "bolts":[{bolts}],
 "states":[{{"name":"t","kind":"transactional","parts":1,"key":["a"],"fold":"count","inputs":[{inputs}]}}]}}"#
    )
}

fn write_bolt(text: &mut String, number: u32, tasks: u32, inputs: &str) -> Result<(), Memory> {
    let between = if text.is_empty() { "" } else { "," };
    writeln!(
        text,
        r#"{between}{{"name":"b{number}","tasks":{tasks},"op":{{"do":"custom"}},"inputs":[{inputs}]}}"#
    )
}

// The name of a bolt, or of the spout before the first.
fn source(alloc: Global, number: u32) -> Result<String, Memory> {
    if number == 0 {
        return String::from_str(alloc, "s");
    }
    format!(in alloc; "b{number}")
}

fn input(alloc: Global, number: u32, grouping: &str) -> Result<String, Memory> {
    let from = source(alloc, number)?;
    format!(in alloc; r#"{{"from":"{from}","grouping":"{grouping}"}}"#)
}

// A chain of bolts, and a state after the last.
fn chain(
    alloc: Global,
    bolts: u32,
    tasks: u32,
    last: u32,
    grouping: &str,
) -> Result<String, Memory> {
    let mut text = String::new(alloc);
    for before in 0..bolts {
        let number = before + 1;
        let tasks = if number == bolts { last } else { tasks };
        write_bolt(
            &mut text,
            number,
            tasks,
            input(alloc, before, grouping)?.as_str(),
        )?;
    }
    file(
        alloc,
        text.as_str(),
        format!(in alloc; "\"b{bolts}\"")?.as_str(),
    )
}

// Layers of two bolts that each feed both bolts of the next, and a state that
// takes from the last two.
fn lattice(alloc: Global, layers: u32) -> Result<String, Memory> {
    let mut text = String::new(alloc);
    let mut inputs = input(alloc, 0, "shuffle")?;
    let mut names = String::new(alloc);
    for layer in 0..layers.min(16) {
        let (left, right) = (2 * layer + 1, 2 * layer + 2);
        write_bolt(&mut text, left, 1, inputs.as_str())?;
        write_bolt(&mut text, right, 1, inputs.as_str())?;
        let from_left = input(alloc, left, "shuffle")?;
        let from_right = input(alloc, right, "shuffle")?;
        inputs = format!(in alloc; "{from_left},{from_right}")?;
        names = format!(in alloc; "\"b{left}\",\"b{right}\"")?;
    }
    file(alloc, text.as_str(), names.as_str())
}

// Bolts that each take from the spout and from all bolts before, and a state that
// takes from all of them.
fn mesh(alloc: Global, bolts: u32) -> Result<String, Memory> {
    let mut text = String::new(alloc);
    let mut inputs = input(alloc, 0, "shuffle")?;
    let mut names = String::from_str(alloc, "\"s\"")?;
    for number in 1..=bolts.min(32) {
        write_bolt(&mut text, number, 1, inputs.as_str())?;
        let more = input(alloc, number, "shuffle")?;
        inputs = format!(in alloc; "{inputs},{more}")?;
        names = format!(in alloc; "{names},\"b{number}\"")?;
    }
    file(alloc, text.as_str(), names.as_str())
}

#[test]
fn weights_of_chains(rt: HostRuntime) -> Result<(), Mismatch> {
    let alloc = rt.alloc();
    for (bolts, tasks, last, grouping, want) in CHAINS {
        let text = chain(alloc, bolts, tasks, last, grouping)?;
        check_told(alloc, text.as_str(), want)?;
    }
    Ok(())
}

#[test]
fn the_longest_chain(rt: HostRuntime) -> Result<(), Fail> {
    let alloc = rt.alloc();
    let plan = read_topology(alloc, chain(alloc, 32, 32, 31, "shuffle")?.as_bytes())?;
    assert!(rt; (plan.components(), plan.tasks()) == (33, 1_024));
    assert!(rt; (plan.weight(), plan.depth()) == (33, 33));
    Ok(())
}

#[test]
fn sixty_four_tasks_by_four(rt: HostRuntime) -> Result<(), Fail> {
    let alloc = rt.alloc();
    let plan = read_topology(alloc, chain(alloc, 2, 64, 4, "all")?.as_bytes())?;
    assert!(rt; (plan.components(), plan.tasks()) == (3, 69));
    assert!(rt; (plan.weight(), plan.depth()) == (576, 3));
    Ok(())
}

// Two bolts with 1, 2, 4 and on, and the state with the sum of the last two: 2 * (2^n - 1) + 2^n.
#[test]
fn weights_of_lattices(rt: HostRuntime) -> Result<(), Mismatch> {
    let alloc = rt.alloc();
    check_told(alloc, lattice(alloc, 10)?.as_str(), "no fault")?;
    check_told(
        alloc,
        lattice(alloc, 11)?.as_str(),
        "weight 6142, most 4096",
    )?;
    check_told(
        alloc,
        lattice(alloc, 16)?.as_str(),
        "weight 196606, most 4096",
    )
}

// 1, 2, 4 and on, and the state with 1 more than their sum: 2^n - 1 + 2^n.
#[test]
fn weights_of_meshes(rt: HostRuntime) -> Result<(), Mismatch> {
    let alloc = rt.alloc();
    check_told(alloc, mesh(alloc, 11)?.as_str(), "no fault")?;
    check_told(alloc, mesh(alloc, 12)?.as_str(), "weight 8191, most 4096")?;
    check_told(
        alloc,
        mesh(alloc, 32)?.as_str(),
        "weight 8589934591, most 4096",
    )
}
