// Readers in threads beside the publisher's.
use crate::commits::{SHORT, SUMS, none, one, plan, seen};
use state_reader::{Publisher, Reader, Seen};
use std::alloc::Global;
use std::sync::Wait;
use std::test::Fail;
use std::thread::{Threads, join_mut};

// How many commits there are.
const COUNT: i64 = 3000;

// Publishes a commit of each amount from 1. It gives up where one fails.
fn publish_all<R: Wait>(rt: &R, alloc: Global, publisher: &mut Publisher) {
    for amount in 1..=COUNT {
        let Some(txid) = publisher.latest(SUMS, SHORT).commits.checked_add(1) else {
            break;
        };
        let Ok(writes) = one(alloc, SUMS, SHORT, amount) else {
            break;
        };
        if publisher.publish(rt, txid, &writes).is_err() {
            break;
        }
    }
}

// A look for each place.
fn look_often<R: Wait>(rt: &R, reader: &mut Reader, looks: &mut Vec<Seen>) {
    for place in looks.iter_mut() {
        *place = reader.get(rt, SUMS, SHORT);
    }
}

// Two readers, each in a thread of its own.
fn look_both<R: Threads + Wait + Sync>(
    rt: &R,
    first: &mut Reader,
    first_looks: &mut Vec<Seen>,
    second: &mut Reader,
    second_looks: &mut Vec<Seen>,
) {
    join_mut(
        rt,
        &mut || look_often(rt, first, first_looks),
        &mut || look_often(rt, second, second_looks),
    );
}

// Whether counts never fall, and each value is that of the first commits.
fn are_prefixes(looks: &[Seen]) -> bool {
    let mut last = 0;
    for look in looks {
        let count = i128::from(look.commits);
        let sum = count.wrapping_mul(count.wrapping_add(1)) / 2;
        let right = if look.commits == 0 {
            none(0)
        } else {
            seen(look.commits, sum)
        };
        if look.commits < last || *look != right {
            return false;
        }
        last = look.commits;
    }
    true
}

#[test]
fn two_readers_beside_the_publisher(rt: HostRuntime) -> Result<(), Fail> {
    let plan = plan(rt.alloc())?;
    let mut first_looks = vec![in rt.alloc(); none(0); 2000]?;
    let mut second_looks = vec![in rt.alloc(); none(0); 2000]?;
    let (mut publisher, mut readers) = Publisher::new(rt.alloc(), &rt, &plan, 2)?;
    let mut first = readers.pop().expect(&rt, "a reader");
    let mut second = readers.pop().expect(&rt, "a second reader");
    join_mut(
        &rt,
        &mut || publish_all(&rt, rt.alloc(), &mut publisher),
        &mut || {
            look_both(
                &rt,
                &mut first,
                &mut first_looks,
                &mut second,
                &mut second_looks,
            );
        },
    );
    let told = publisher.tell();
    let latest = publisher.latest(SUMS, SHORT);
    let learned = told.is_ok();
    if let Ok(told) = told {
        first.learn(told);
    }
    let after = first.get(&rt, SUMS, SHORT);
    publisher.end(&rt);
    assert!(rt; learned);
    assert!(rt; are_prefixes(first_looks.as_slice()));
    assert!(rt; are_prefixes(second_looks.as_slice()));
    assert_eq!(rt; latest, seen(3000, 4_501_500));
    assert_eq!(rt; after, latest);
    Ok(())
}
