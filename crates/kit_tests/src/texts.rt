// Texts are changed, cut and compared.
use test_kit::{Mismatch, changed, columns, compare, lines_without};

fn is_case(outcome: Result<String, Mismatch>) -> bool {
    matches!(outcome, Err(Mismatch::Case(_)))
}

#[test]
fn a_part_that_stands_once_is_changed(rt: HostRuntime) -> Result<(), Mismatch> {
    let alloc = rt.alloc();
    let text = changed(alloc, "one two three", "two", "2 2")?;
    compare(alloc, "a part", text.as_str(), "one 2 2 three")?;
    assert!(rt; is_case(changed(alloc, "one two three", "four", "4")));
    assert!(rt; is_case(changed(alloc, "one two one", "one", "1")));
    Ok(())
}

#[test]
fn columns_stand_between_bars(rt: HostRuntime) -> Result<(), Mismatch> {
    let columns = columns(rt.alloc(), "one | two|| three ")?;
    assert!(rt; columns.as_slice() == ["one", "two", "", "three"].as_slice());
    Ok(())
}

#[test]
fn lines_that_begin_otherwise_are_left(rt: HostRuntime) -> Result<(), Mismatch> {
    let alloc = rt.alloc();
    let left = lines_without(alloc, "a 1\nb a\na 2\nc", "a ")?;
    compare(alloc, "lines", left.as_str(), "b a\nc\n")
}

#[test]
fn other_texts_are_told_apart(rt: HostRuntime) -> Result<(), Mismatch> {
    match compare(rt.alloc(), "case", "told", "want") {
        Err(Mismatch::Told { of, told, want }) => {
            let texts = [of.as_str(), told.as_str(), want.as_str()];
            assert!(rt; texts == ["case", "told", "want"]);
            Ok(())
        }
        other => other,
    }
}
