// A publisher and its readers in one thread.
ghost use Rattle.std.specs.Prelude.{◌≡◌, []};
ghost use Rattle.state_reader.specs.Publishers.{list_of};

use crate::commits::{COUNTS, LASTS, LONG, SHORT, SUMS, TOPS, all, none, one, plan, seen};
use state_reader::{Publisher, Reader, Readers, Seen};
use std::alloc::{AllocError, Global};
use std::sync::Wait;
use std::test::Fail;
use tree_model::storm_values::Memory;

// What the first reader, the second and the publisher see after one commit, which the second has
// learned.
fn learn_one<R: Wait>(
    rt: &R,
    alloc: Global,
    publisher: &mut Publisher,
    readers: &mut Readers,
) -> Result<[Seen; 4], Memory>
    requires { list_of publisher.old ≡ [] }
{
    let mut first = readers.pop().ok_or(AllocError)?;
    let mut second = readers.pop().ok_or(AllocError)?;
    let before = first.get(rt, COUNTS, SHORT);
    publisher.publish(rt, 1, &one(alloc, COUNTS, SHORT, 1)?)?;
    second.learn(publisher.tell()?);
    Ok([
        before,
        first.get(rt, COUNTS, SHORT),
        second.get(rt, COUNTS, SHORT),
        publisher.latest(COUNTS, SHORT),
    ])
}

#[test]
fn the_second_reader_learns_a_commit(rt: HostRuntime) -> Result<(), Fail> {
    let (mut publisher, mut readers) = Publisher::new(rt.alloc(), &rt, &plan(rt.alloc())?, 2)?;
    let looks = learn_one(&rt, rt.alloc(), &mut publisher, &mut readers);
    let left = readers.pop().is_some();
    publisher.end(&rt);
    assert!(rt; !left);
    assert_eq!(rt; looks?, [none(0), seen(1, 1), seen(1, 1), seen(1, 1)]);
    Ok(())
}

// The values of all states after two commits for a key.
fn publish_two<R: Wait>(
    rt: &R,
    alloc: Global,
    publisher: &mut Publisher,
    reader: &mut Reader,
    key: &str,
) -> Result<[Seen; 4], Memory>
    requires { list_of publisher.old ≡ [] }
{
    publisher.publish(rt, 1, &all(alloc, key, 5)?)?;
    publisher.publish(rt, 2, &all(alloc, key, -2)?)?;
    reader.learn(publisher.tell()?);
    Ok([
        reader.get(rt, COUNTS, key),
        reader.get(rt, SUMS, key),
        reader.get(rt, LASTS, key),
        publisher.latest(TOPS, key),
    ])
}

#[test]
fn each_state_answers_by_its_fold(rt: HostRuntime) -> Result<(), Fail> {
    for key in [SHORT, LONG] {
        let (mut publisher, mut readers) = Publisher::new(rt.alloc(), &rt, &plan(rt.alloc())?, 1)?;
        let mut reader = readers.pop().expect(&rt, "a reader");
        let looks = publish_two(&rt, rt.alloc(), &mut publisher, &mut reader, key);
        let top = reader.get(&rt, TOPS, key);
        let other = reader.get(&rt, TOPS, "[]");
        let beyond = reader.get(&rt, 4, key);
        publisher.end(&rt);
        assert_eq!(rt; looks?, [seen(2, 2), seen(2, 3), seen(2, -2), seen(2, 5)]);
        assert_eq!(rt; top, seen(2, 5));
        assert_eq!(rt; other, none(2));
        assert_eq!(rt; beyond, none(2));
    }
    Ok(())
}

// Whether three lists can be told that nobody learns, no fourth, and one more when they are gone.
fn tells_three(publisher: &mut Publisher) -> Result<bool, Memory> {
    let first = publisher.tell()?;
    let second = publisher.tell()?;
    let third = publisher.tell()?;
    let full = publisher.tell().is_err();
    drop(first);
    drop(second);
    drop(third);
    Ok(full && publisher.tell().is_ok())
}

#[test]
fn there_is_place_for_three_that_were_told(rt: HostRuntime) -> Result<(), Fail> {
    let (mut publisher, _readers) = Publisher::new(rt.alloc(), &rt, &plan(rt.alloc())?, 1)?;
    let three = tells_three(&mut publisher);
    publisher.end(&rt);
    assert!(rt; three?);
    Ok(())
}
