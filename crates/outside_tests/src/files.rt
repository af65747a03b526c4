// Files and outputs, in memory and of the system.
ghost use Rattle.std.specs.Prelude.{◌<◌, ◌-◌, ◌^◌};

use std::alloc::Global;
use std::fs;
use std::test::Fail;
use storm_outside::{
    Failed, FileShelf, InFault, MemShelf, MemSink, OutSink, Shelf, Sink, read_all, write_all,
    write_piece,
};
use storm_values::{Bytes, Memory, Txt};

const TEXT: &str = "abcdefgh";

// A shelf with one file, which gives three bytes at a time.
fn shelf(alloc: Global) -> Result<MemShelf, Memory> {
    let mut shelf = MemShelf::new(alloc, 3);
    let bytes = Bytes::from_vec(TEXT.as_bytes().to_vec(alloc)?);
    shelf.add(Txt::from_str(alloc, "name")?, bytes)?;
    Ok(shelf)
}

#[test]
fn a_shelf_fails_at_each_read(rt: HostRuntime) -> Result<(), Fail> {
    let alloc = rt.alloc();
    // the bytes asked for less one, the read that fails, what is read
    let table = [
        (9, 1, None),
        (9, 2, None),
        (9, 3, None),
        (9, 4, None),
        (9, 5, Some("abcdefgh")),
        (4, 2, None),
        (4, 3, Some("abcde")),
    ];
    for (most, number, want) in table {
        let mut shelf = shelf(alloc)?;
        shelf.fail_read(number)?;
        shelf.fetch("name")?;
        let got = read_all(alloc, &mut shelf, most);
        match want {
            Some(text) => assert_eq!(rt; got?.as_slice(), text.as_bytes()),
            None => assert_eq!(rt; got.err(), Some(InFault::Failed)),
        }
        assert_eq!(rt; shelf.faults(), u64::from(want.is_none()), "read {number}");
    }
    Ok(())
}

#[test]
fn a_fetch_fails_by_its_number_or_its_name(rt: HostRuntime) -> Result<(), Fail> {
    let mut shelf = shelf(rt.alloc())?;
    shelf.fail_fetch(2)?;
    let calls = [
        ("name", true, 0),
        ("name", false, 1),
        ("name", true, 1),
        ("other", false, 2),
    ];
    for (name, want, faults) in calls {
        assert_eq!(rt; shelf.fetch(name).is_ok(), want);
        assert_eq!(rt; shelf.faults(), faults);
    }
    assert!(rt; shelf.has("name"));
    assert!(rt; !shelf.has("other"));
    Ok(())
}

#[test]
fn a_sink_fails_at_each_write(rt: HostRuntime) -> Result<(), Fail> {
    let alloc = rt.alloc();
    // the room, the write that fails, what is taken
    let table = [
        (8, 1, ""),
        (8, 2, "abc"),
        (8, 3, "abcdef"),
        (8, 4, "abcdefgh"),
        (7, 4, "abcdefg"),
    ];
    for (room, number, want) in table {
        let mut sink = MemSink::new(alloc, 3, room)?;
        sink.fail_write(number)?;
        let written = write_all(&mut sink, TEXT.as_bytes());
        assert_eq!(rt; sink.bytes(), want.as_bytes());
        assert_eq!(rt; written.is_ok(), want.len() == TEXT.len());
        assert_eq!(rt; sink.faults(), u64::from(written.is_err()));
    }
    Ok(())
}

#[test]
fn a_file_is_read_and_printed(rt: HostRuntime) -> Result<(), Fail> {
    let path = "outside_tests_test.txt";
    fs::write(&rt, path, TEXT)?;
    let mut shelf = FileShelf::new(&rt);
    shelf.fetch(path)?;
    let bytes = read_all(rt.alloc(), &mut shelf, 100)?;
    fs::remove_file(&rt, path)?;
    assert_eq!(rt; bytes.as_slice(), TEXT.as_bytes());
    assert_eq!(rt; shelf.fetch(path), Err(Failed));
    assert_eq!(rt; shelf.faults(), 1);

    let mut sink = OutSink::new(&rt);
    write_all(&mut sink, bytes.as_slice())?;
    assert_eq!(rt; sink.faults(), 0);
    Ok(())
}

// The file of a name is fetched and read.
fn read_file(alloc: Global, shelf: &mut impl Shelf, name: &str, most: u64) -> Result<Bytes, Fail>
    requires { most < 2 ^ 64 - 1 }
{
    shelf.fetch(name)?;
    Ok(read_all(alloc, shelf, most)?)
}

#[test]
fn a_file_is_longer_than_one_read(rt: HostRuntime) -> Result<(), Fail> {
    let alloc = rt.alloc();
    let path = "outside_tests_long.txt";
    let line = "a line of 23 characters";
    let long = line.repeat(alloc, 1_000)?;
    fs::write(&rt, path, long.as_str())?;
    let mut shelf = FileShelf::new(&rt);
    let whole = read_file(alloc, &mut shelf, path, 30_000)?;
    let front = read_file(alloc, &mut shelf, path, 11_499)?;
    fs::remove_file(&rt, path)?;
    assert!(rt; whole.as_slice() == long.as_bytes());
    assert!(rt; front.as_slice() == line.repeat(alloc, 500)?.as_bytes());
    Ok(())
}

#[test]
fn files_are_fetched_in_turn(rt: HostRuntime) -> Result<(), Fail> {
    let alloc = rt.alloc();
    let names = ["outside_tests_one.txt", "outside_tests_two.txt"];
    for name in names {
        fs::write(&rt, name, name)?;
    }
    let mut shelf = FileShelf::new(&rt);
    for name in [names[0], names[1], names[1], names[0]] {
        let bytes = read_file(alloc, &mut shelf, name, 100)?;
        assert_eq!(rt; bytes.as_slice(), name.as_bytes());
    }
    // a fetch begins anew in the middle of a file, and fails over another one that is there
    shelf.fetch(names[1])?;
    assert_eq!(rt; shelf.read(&mut [0; 5])?, 5);
    assert_eq!(rt;
        read_file(alloc, &mut shelf, names[0], 100)?.as_slice(),
        names[0].as_bytes()
    );
    for name in names {
        fs::remove_file(&rt, name)?;
        assert_eq!(rt; shelf.fetch(name), Err(Failed));
    }
    assert_eq!(rt; shelf.faults(), 2);
    Ok(())
}

#[test]
fn a_folder_is_no_file(rt: HostRuntime) -> Result<(), Fail> {
    let path = "outside_tests_folder";
    fs::create_dir(&rt, path)?;
    let mut shelf = FileShelf::new(&rt);
    // the system opens a folder, and lets no byte of it be read
    shelf.fetch(path)?;
    let got = read_all(rt.alloc(), &mut shelf, 100);
    fs::remove_dir(&rt, path)?;
    assert_eq!(rt; got.err(), Some(InFault::Failed));
    assert_eq!(rt; shelf.faults(), 1);
    Ok(())
}

#[test]
fn a_write_of_nothing_is_a_fault(rt: HostRuntime) -> Result<(), Fail> {
    let mut buf = [0; 3];
    let mut room = buf.as_mut_slice();
    let mut faults = 0;
    assert_eq!(rt; write_piece(&mut room, TEXT.as_bytes(), &mut faults), Ok(3));
    assert_eq!(rt; faults, 0);
    assert_eq!(rt;
        write_piece(&mut room, TEXT.as_bytes(), &mut faults),
        Err(Failed)
    );
    assert_eq!(rt; faults, 1);
    Ok(())
}
