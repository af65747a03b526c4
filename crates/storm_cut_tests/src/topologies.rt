// A topology that is cut short, or without one byte.
use crate::pieces::{front, without};
use sample_topologies::WORD_COUNT;
use std::alloc::Global;
use std::sync::Wait;
use std::thread::Threads;
use storm_test_kit::{CALM, CHECK, PLAIN, REPLAY, RUN, RUN_ALONE, Scene, check_refusal};
use test_kit::Mismatch;

// The words of the commands that read a topology.
const COMMANDS: [&[&str]; 5] = [&CHECK, &PLAIN, &RUN_ALONE, &RUN, &REPLAY];

const VALID: &str = "valid components 2 tasks 4 weight 2 depth 2\n";

// Every command over a topology ends with this status and this line. The other files are refused
// too, but a topology is refused before them.
fn check_each<R: Threads + Wait + Sync>(
    rt: &R,
    alloc: Global,
    topology: &str,
    fault: Option<&str>,
) -> Result<(), Mismatch> {
    for words in COMMANDS {
        let scene = Scene {
            words,
            topology: Some(topology),
            input: Some("[]"),
            schedule: Some("jump"),
        };
        match fault {
            Some(line) => check_refusal(rt, alloc, scene, CALM, 3, line)?,
            None => check_valid(rt, alloc, scene)?,
        }
    }
    Ok(())
}

fn check_valid<R: Threads + Wait + Sync>(
    rt: &R,
    alloc: Global,
    scene: Scene<'_>,
) -> Result<(), Mismatch> {
    if scene.words.len() == 2 {
        return check_refusal(rt, alloc, scene, CALM, 0, VALID);
    }
    check_refusal(rt, alloc, scene, CALM, 4, "input: line 1: 0 items\n")
}

// Only the last byte, which ends the line, can be cut off.
#[test]
fn a_topology_is_cut_short(rt: HostRuntime) -> Result<(), Mismatch> {
    assert!(rt; WORD_COUNT.len() == 410);
    for len in 0..411 {
        let fault = if len < 409 {
            Some("topology: no JSON\n")
        } else {
            None
        };
        check_each(&rt, rt.alloc(), front(WORD_COUNT, len), fault)?;
    }
    Ok(())
}

/// The first and the last place of a byte that is left out, and the fault: a text, a word of the
/// topology without this byte, between quotation marks, and the rest. Where there is no word the text
/// is all, and where it is empty there is no fault.
type LeftOut = (usize, usize, &'static str, &'static str, &'static str);

// By the order of the faults: no JSON, the form of each object along its table and then what does
// not belong there, sources, and fields. A name of which all uses are one may be another.
const LEFT_OUT: [LeftOut; 98] = [
    (0, 1, "no JSON", "", ""),
    (2, 8, "missing \"version\"", "", ""),
    (9, 12, "no JSON", "", ""),
    (13, 14, "", "", ""),
    (15, 15, "no JSON", "", ""),
    (16, 20, "missing \"spout\"", "", ""),
    (21, 24, "no JSON", "", ""),
    (25, 28, "missing \"name\"", "", ""),
    (29, 31, "no JSON", "", ""),
    (32, 36, "no source \"lines\"", "", ""),
    (37, 39, "no JSON", "", ""),
    (40, 43, "missing \"kind\"", "", ""),
    (44, 46, "no JSON", "", ""),
    (47, 59, "unknown ", "transactional", ""),
    (60, 62, "no JSON", "", ""),
    (63, 68, "missing \"fields\"", "", ""),
    (69, 72, "no JSON", "", ""),
    (73, 80, "no field \"sentence\" at \"split\"", "", ""),
    (81, 84, "no JSON", "", ""),
    (85, 89, "missing \"batch\"", "", ""),
    (90, 94, "no JSON", "", ""),
    (95, 96, "", "", ""),
    (97, 97, "no JSON", "", ""),
    (98, 102, "missing \"bolts\"", "", ""),
    (103, 107, "no JSON", "", ""),
    (108, 111, "missing \"name\"", "", ""),
    (112, 114, "no JSON", "", ""),
    (115, 119, "no source \"split\"", "", ""),
    (120, 122, "no JSON", "", ""),
    (123, 127, "missing \"tasks\"", "", ""),
    (128, 131, "no JSON", "", ""),
    (132, 135, "", "", ""),
    (136, 136, "no JSON", "", ""),
    (137, 138, "missing \"op\"", "", ""),
    (139, 142, "no JSON", "", ""),
    (143, 144, "missing \"do\"", "", ""),
    (145, 147, "no JSON", "", ""),
    (148, 152, "unknown ", "split", ""),
    (153, 155, "no JSON", "", ""),
    (156, 160, "missing \"field\"", "", ""),
    (161, 163, "no JSON", "", ""),
    (164, 171, "no field ", "sentence", " at \"split\""),
    (172, 174, "no JSON", "", ""),
    (175, 176, "missing \"as\"", "", ""),
    (177, 179, "no JSON", "", ""),
    (180, 183, "no field \"word\" at \"counts\"", "", ""),
    (184, 186, "no JSON", "", ""),
    (187, 190, "", "", ""),
    (191, 191, "no JSON", "", ""),
    (192, 197, "missing \"inputs\"", "", ""),
    (198, 202, "no JSON", "", ""),
    (203, 206, "missing \"from\"", "", ""),
    (207, 209, "no JSON", "", ""),
    (210, 214, "no source ", "lines", ""),
    (215, 217, "no JSON", "", ""),
    (218, 225, "missing \"grouping\"", "", ""),
    (226, 228, "no JSON", "", ""),
    (229, 235, "unknown ", "shuffle", ""),
    (236, 241, "no JSON", "", ""),
    (242, 243, "", "", ""),
    (244, 244, "no JSON", "", ""),
    (245, 250, "missing \"states\"", "", ""),
    (251, 255, "no JSON", "", ""),
    (256, 259, "missing \"name\"", "", ""),
    (260, 262, "no JSON", "", ""),
    (263, 268, "", "", ""),
    (269, 271, "no JSON", "", ""),
    (272, 275, "missing \"kind\"", "", ""),
    (276, 278, "no JSON", "", ""),
    (279, 291, "unknown ", "transactional", ""),
    (292, 294, "no JSON", "", ""),
    (295, 299, "missing \"parts\"", "", ""),
    (300, 304, "no JSON", "", ""),
    (305, 307, "missing \"key\"", "", ""),
    (308, 311, "no JSON", "", ""),
    (312, 315, "no field ", "word", " at \"counts\""),
    (316, 318, "no JSON", "", ""),
    (319, 322, "", "", ""),
    (323, 323, "no JSON", "", ""),
    (324, 327, "missing \"fold\"", "", ""),
    (328, 330, "no JSON", "", ""),
    (331, 335, "unknown ", "count", ""),
    (336, 338, "no JSON", "", ""),
    (339, 344, "missing \"inputs\"", "", ""),
    (345, 348, "no JSON", "", ""),
    (349, 353, "no source ", "split", ""),
    (354, 358, "no JSON", "", ""),
    (359, 360, "", "", ""),
    (361, 361, "no JSON", "", ""),
    (362, 367, "unknown ", "ackers", ""),
    (368, 372, "no JSON", "", ""),
    (373, 379, "unknown ", "pending", ""),
    (380, 384, "no JSON", "", ""),
    (385, 391, "unknown ", "buckets", ""),
    (392, 396, "no JSON", "", ""),
    (397, 404, "unknown ", "attempts", ""),
    (405, 408, "no JSON", "", ""),
    (409, 409, "", "", ""),
];

fn fault_of(alloc: Global, row: LeftOut, place: usize) -> Result<Option<String>, Mismatch> {
    let (first, _, text, word, rest) = row;
    if text.is_empty() {
        return Ok(None);
    }
    if word.is_empty() {
        return Ok(Some(format!(in alloc; "topology: {text}\n")?));
    }
    let left = without(alloc, word, place.saturating_sub(first))?;
    let line = format!(in alloc; "topology: {text}\"{left}\"{rest}\n")?;
    Ok(Some(line))
}

fn leave_out<R: Threads + Wait + Sync>(
    rt: &R,
    alloc: Global,
    row: LeftOut,
    place: usize,
) -> Result<(), Mismatch> {
    let topology = without(alloc, WORD_COUNT, place)?;
    match fault_of(alloc, row, place)? {
        Some(line) => check_each(rt, alloc, topology.as_str(), Some(line.as_str())),
        None => check_each(rt, alloc, topology.as_str(), None),
    }
}

fn leave_out_each<R: Threads + Wait + Sync>(
    rt: &R,
    alloc: Global,
    row: LeftOut,
) -> Result<(), Mismatch> {
    let (first, last, ..) = row;
    for place in first..=last {
        leave_out(rt, alloc, row, place)?;
    }
    Ok(())
}

// Whether the rows have every place of the topology.
fn have_every_place(rows: &[LeftOut]) -> bool {
    let mut next = 0;
    for row in rows {
        if row.0 != next {
            return false;
        }
        next = row.1.saturating_add(1);
    }
    next == WORD_COUNT.len()
}

#[test]
fn a_byte_of_a_topology_is_left_out(rt: HostRuntime) -> Result<(), Mismatch> {
    assert!(rt; have_every_place(&LEFT_OUT));
    for row in &LEFT_OUT {
        leave_out_each(&rt, rt.alloc(), *row)?;
    }
    Ok(())
}
