// Keepers in files of the system.
use crate::keepers::{FIRST, SECOND};
use crate::steps::Answer::{Done, Fault, Kept, Nothing};
use crate::steps::Call::{Load, Save};
use crate::steps::{Step, check_steps};
use crate::trouble::Trouble;
use resume_meta::{FileKeeper, MetaFault};
use std::alloc::Global;
use std::fs;
use std::rt::Files;

// Whether the calls of a keeper in this folder have these answers, and so many of them fail.
fn check<R: Files + Drop>(
    rt: R,
    alloc: Global,
    folder: &str,
    steps: &[Step],
    faults: u64,
) -> Result<(), Trouble> {
    let mut keeper = FileKeeper::new(rt, alloc, folder)?;
    check_steps(alloc, &mut keeper, steps)?;
    if keeper.faults() != faults {
        return Err(Trouble::Faults(keeper.faults()));
    }
    Ok(())
}

const FRESH: [Step; 4] = [
    (Load, Nothing),
    (Load, Nothing),
    (Save(FIRST), Done),
    (Load, Kept(FIRST)),
];

// Another keeper of the same folder.
const AGAIN: [Step; 4] = [
    (Load, Kept(FIRST)),
    (Save(SECOND), Done),
    (Save(FIRST), Done),
    (Load, Kept(FIRST)),
];

#[test]
fn a_meta_lies_in_a_file(rt: HostRuntime) -> Result<(), Trouble> {
    let folder = "resume_tests_fresh";
    let _gone = fs::remove_dir_all(&rt, folder);
    check(&rt, rt.alloc(), folder, &FRESH, 0)?;
    check(&rt, rt.alloc(), folder, &AGAIN, 0)?;
    let bytes = fs::read(&rt, "resume_tests_fresh/meta")?;

    // The file took the name of the old one, so that nothing else lies there.
    let beside = fs::read(&rt, "resume_tests_fresh/meta.new");
    fs::remove_dir_all(&rt, folder)?;
    if bytes.as_slice() != FIRST.as_bytes() || beside.is_ok() {
        return Err(Trouble::Text);
    }
    Ok(())
}

// A save that broke off left a longer file beside a shorter one.
const LEFT: [Step; 3] = [
    (Load, Kept(FIRST)),
    (Save(FIRST), Done),
    (Load, Kept(FIRST)),
];

const BAD: [Step; 3] = [
    (Load, Fault(MetaFault::Bad)),
    (Save(FIRST), Done),
    (Load, Kept(FIRST)),
];

#[test]
fn files_that_are_left_are_written_over(rt: HostRuntime) -> Result<(), Trouble> {
    let folder = "resume_tests_left";
    let _gone = fs::remove_dir_all(&rt, folder);
    fs::create_dir(&rt, folder)?;
    fs::write(&rt, "resume_tests_left/meta", FIRST)?;
    fs::write(&rt, "resume_tests_left/meta.new", SECOND)?;
    check(&rt, rt.alloc(), folder, &LEFT, 0)?;
    fs::write(&rt, "resume_tests_left/meta", "meta")?;
    check(&rt, rt.alloc(), folder, &BAD, 0)?;
    fs::remove_dir_all(&rt, folder)?;
    Ok(())
}

const BROKEN: [Step; 3] = [
    (Load, Fault(MetaFault::Keep)),
    (Save(FIRST), Fault(MetaFault::Keep)),
    (Load, Fault(MetaFault::Keep)),
];

#[test]
fn folders_and_files_at_the_wrong_place(rt: HostRuntime) -> Result<(), Trouble> {
    let folder = "resume_tests_folder";
    let _gone = fs::remove_dir_all(&rt, folder);
    fs::create_dir_all(&rt, "resume_tests_folder/meta/other")?;
    check(&rt, rt.alloc(), folder, &BROKEN, 3)?;
    fs::remove_dir_all(&rt, folder)?;
    fs::write(&rt, "resume_tests_file", FIRST)?;
    check(&rt, rt.alloc(), "resume_tests_file", &BROKEN, 3)?;
    fs::remove_file(&rt, "resume_tests_file")?;
    Ok(())
}
