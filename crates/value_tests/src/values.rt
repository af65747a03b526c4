ghost use Rattle.std.specs.Prelude.{◌≡◌, [], ◌∷◌, IfOk};

use std::alloc::Global;
use std::cmp::Ordering;
use std::test::Fail;
use storm_values::{
    Bytes, Duplicate, Few, Indexes, InputFault, LineFault, MOST_INPUT_BYTES, MOST_LINES, Memory,
    Names, Path, Row, Rows, Seq, Txt, Value, key_hash, key_hash_in, key_text, key_text_in,
    read_input, row_from_line,
};

#[test]
fn hashes_of_keys(rt: HostRuntime) -> Result<(), Fail> {
    let alloc = rt.alloc();
    for (text, hash) in [("a", 0xaf63_dc4c_8601_ec8c), ("", 0xcbf2_9ce4_8422_2325)] {
        let key = [Value::Text(Txt::from_str(alloc, text)?)];
        assert_eq!(rt; key_hash(&key), hash, "at {text}");
    }
    let row = [Value::Int(-5), Value::Text(Txt::from_str(alloc, "a\"b")?)];
    assert_eq!(rt; key_hash_in(&row, &[0, 1]), key_hash(&row));
    Ok(())
}

// Keys of the row [-5,"a\"b","é"], by the numbers of their fields, with their texts.
const KEYS: [(&[u32], &str); 6] = [
    (&[1, 0], "[\"a\\\"b\",-5]"),
    (&[1, 3, 1], "[\"a\\\"b\",\"a\\\"b\"]"),
    (&[2], "[\"é\"]"),
    (&[1], "[\"a\\\"b\"]"),
    (&[0], "[-5]"),
    (&[], "[]"),
];

fn is_key_text(alloc: Global, row: &[Value], fields: &[u32], text: &str) -> Result<bool, Memory> {
    let mut room = String::from_str(alloc, "x")?;
    let key = key_text_in(alloc, &mut room, row, fields)?;
    Ok(key.as_str() == text)
}

#[test]
fn texts_of_keys(rt: HostRuntime) -> Result<(), Memory> {
    let alloc = rt.alloc();
    let row = [
        Value::Int(-5),
        Value::Text(Txt::from_str(alloc, "a\"b")?),
        Value::Text(Txt::from_str(alloc, "é")?),
    ];
    assert!(rt; key_text(alloc, &row)?.as_str() == "[-5,\"a\\\"b\",\"é\"]");
    for (fields, text) in KEYS {
        assert!(rt; is_key_text(alloc, &row, fields, text)?);
    }
    Ok(())
}

#[test]
fn texts_of_any_length_keep_their_bytes(rt: HostRuntime) -> Result<(), Fail> {
    let alloc = rt.alloc();
    for text in [
        "",
        "é",
        "these are thirty bytes in all.",
        "these are thirty-one bytes here",
    ] {
        let made = Txt::from_str(alloc, text)?;
        assert_eq!(rt; (made.as_str(), made.len()), (text, text.len()));
        assert!(rt; made.copy()?.as_str() == text, "at {text}");
        let moved = Txt::from_string(String::from_str(alloc, text)?);
        assert!(rt; moved.as_str() == text, "at {text}");
    }
    Ok(())
}

// Of these numbers four lie in place, and the fifth moves them out.
#[test]
fn paths_keep_their_numbers(rt: HostRuntime) -> Result<(), Fail> {
    let alloc = rt.alloc();
    let path = Path::from_slice(alloc, &[0, 1, 2])?
        .child(3)?
        .child(4)?
        .child(5)?;
    let front = Path::from_slice(alloc, &[0, 1])?;
    assert_eq!(rt; (path.len(), *path.at(3), *path.at(5)), (6, 3, 5));
    assert_eq!(rt; front.compare(&path), Ordering::Less);
    assert_eq!(rt; path.copy()?.compare(&path), Ordering::Equal);
    Ok(())
}

#[test]
fn reads_lines_with_any_end(rt: HostRuntime) -> Result<(), Fail> {
    let alloc = rt.alloc();
    let rows = read_input(alloc, b"[\"a\"]\r\n[\"b\"]", 1)?;
    assert_eq!(rt; rows.len(), 2);
    Ok(())
}

#[test]
fn tells_the_first_fault_of_a_line(rt: HostRuntime) -> Result<(), Fail> {
    let alloc = rt.alloc();
    let long = vec![in alloc; b' '; 4097]?;
    for (line, fault) in [
        (long.as_slice(), LineFault::TooLong),
        (b"[", LineFault::NotJson),
        (b"[\"\xff\"]", LineFault::NotJson),
        (b"{}", LineFault::NotArray),
        (b"[1,2.5]", LineFault::BadItem(1)),
        (b"[9223372036854775808]", LineFault::BadItem(0)),
        (b"[1,\"a\"]", LineFault::WrongCount(2)),
    ] {
        assert_eq!(rt; row_from_line(alloc, line, 1).err(), Some(fault));
    }
    Ok(())
}

#[test]
fn tells_the_first_fault_of_an_input(rt: HostRuntime) -> Result<(), Fail> {
    let alloc = rt.alloc();
    let big = vec![in alloc; b' '; MOST_INPUT_BYTES + 1]?;
    for (bytes, fault) in [
        (big.as_slice(), InputFault::TooBig),
        (
            b"[\"a\"]\n[1.5]",
            InputFault::Line(2, LineFault::BadItem(0)),
        ),
    ] {
        assert_eq!(rt; read_input(alloc, bytes, 1).err(), Some(fault));
    }
    let text = format!(in alloc; "{}", InputFault::Line(2, LineFault::BadItem(0)))?;
    assert!(rt; text.as_str() == "line 2: item 0 is no text and no whole number");
    Ok(())
}

// A million lines: with checks at run time it may take longer than the time that a test has.
#[test]
fn tells_one_line_too_many(rt: HostRuntime) -> Result<(), Fail> {
    let alloc = rt.alloc();
    let mut many = Vec::new(alloc);
    for _ in 0..=MOST_LINES {
        many.extend_from_slice(b"[\"\"]\n")?;
    }
    assert_eq!(rt;
        read_input(alloc, many.as_slice(), 1).err(),
        Some(InputFault::TooMany)
    );
    let text = format!(in alloc; "{}", InputFault::TooMany)?;
    assert!(rt; text.as_str() == "more than 1000000 lines");
    Ok(())
}

#[test]
fn orders_numbers_before_texts(rt: HostRuntime) -> Result<(), Fail> {
    let text = Value::Text(Txt::from_str(rt.alloc(), "")?);
    assert_eq!(rt; Value::Int(9).compare(&text), Ordering::Less);
    Ok(())
}

fn copied_list<E: Duplicate>(alloc: Global, item: E) -> Result<Seq<E>, Memory>
    ensures { IfOk result (λ list. list ≡ item ∷ []) }
{
    let mut list = Seq::new(alloc);
    list.push(item)?;
    list.copy()
}

#[test]
fn lists_keep_their_items(rt: HostRuntime) -> Result<(), Fail> {
    let alloc = rt.alloc();
    let bytes: Seq<u8> = copied_list(alloc, 7)?;
    let indexes: Indexes = copied_list(alloc, 7)?;
    assert_eq!(rt; (*bytes.at(0), *indexes.at(0)), (7, 7));
    let names: Names = copied_list(alloc, Txt::from_str(alloc, "é")?)?;
    assert_eq!(rt; names.at(0).len(), 2);
    let rows: Rows = copied_list(alloc, Row::one(alloc, Value::Int(7)))?;
    assert_eq!(rt; rows.at(0).len(), 1);
    Ok(())
}

#[test]
fn short_lists_keep_their_items(rt: HostRuntime) -> Result<(), Fail> {
    let alloc = rt.alloc();
    for room in [0, 1, 2] {
        let mut list: Few<u32> = Few::with_capacity(alloc, room)?;
        for item in [7, 8, 9] {
            list.push(item)?;
            assert_eq!(rt; list.copy()?.len(), list.len());
        }
        assert_eq!(rt; list.as_slice(), [7, 8, 9].as_slice());
        assert_eq!(rt; list.into_vec()?.as_slice(), [7, 8, 9].as_slice());
    }
    let mut list: Few<u32> = Few::new(alloc);
    assert!(rt; list.is_empty());
    list.push(7)?;
    assert_eq!(rt; *list.at(0), 7);
    Ok(())
}

// Of these bytes 46 lie in place, and the last one moves them out.
#[test]
fn bytes_are_copied(rt: HostRuntime) -> Result<(), Fail> {
    let alloc = rt.alloc();
    let mut bytes = Bytes::from_slice(alloc, &[7; 46])?;
    assert_eq!(rt; bytes.copy()?.as_slice(), [7; 46].as_slice());
    bytes.push(8)?;
    let copy = bytes.copy()?;
    assert_eq!(rt; (copy.len(), *copy.at(45), *copy.at(46)), (47, 7, 8));
    Ok(())
}
