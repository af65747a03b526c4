// The XOR words of roots, and values that rotate.
use rotating_ledger::{Dropped, Ledger, Rotating, Told};
use std::alloc::Global;
use std::test::Fail;
use storm_values::{Memory, Root};

const ROOT: Root = Root {
    txid: 1,
    attempt: 1,
};

#[derive(Clone, Copy)]
enum Call {
    Init(u64),
    Ack(u64),
    Fail,
}

fn send(ledger: &mut Ledger, root: Root, call: Call) -> Result<Told, Memory> {
    match call {
        Call::Init(word) => ledger.init(root, word),
        Call::Ack(word) => ledger.ack(root, word),
        Call::Fail => ledger.fail(root),
    }
}

// The roots' attempts and the values that were dropped, in order.
fn values(alloc: Global, dropped: Dropped<u64>) -> Result<Vec<(u64, u64)>, Memory> {
    let mut values = Vec::new(alloc);
    for (root, value) in dropped {
        values.push((root.txid, value))?;
    }
    Ok(values)
}

#[test]
fn roots_tell_by_word_init_and_fail(rt: HostRuntime) -> Result<(), Fail> {
    // edge 5 has the children 3 and 6, whose tuples have none
    let tree = [
        (Call::Init(5), Told::Nothing),
        (Call::Ack(5 ^ 3 ^ 6), Told::Nothing),
        (Call::Ack(3), Told::Nothing),
        (Call::Ack(6), Told::Complete),
    ];
    let init_last = [
        (Call::Ack(5 ^ 3 ^ 6), Told::Nothing),
        (Call::Ack(3), Told::Nothing),
        (Call::Ack(6), Told::Nothing),
        (Call::Init(5), Told::Complete),
    ];
    let fail_first = [
        (Call::Fail, Told::Nothing),
        (Call::Ack(5), Told::Nothing),
        (Call::Init(5), Told::Fails),
        (Call::Init(5), Told::Nothing),
    ];
    let fail_last = [
        (Call::Init(5), Told::Nothing),
        (Call::Fail, Told::Fails),
        (Call::Fail, Told::Nothing),
        (Call::Init(0), Told::Fails),
    ];
    for row in [tree, init_last, fail_first, fail_last] {
        let mut ledger = Ledger::new(rt.alloc(), 3)?;
        for (message, want) in row {
            assert_eq!(rt; send(&mut ledger, ROOT, message)?, want);
        }
    }
    Ok(())
}

#[test]
fn an_entry_goes_at_the_third_tick_of_three_buckets(rt: HostRuntime) -> Result<(), Fail> {
    // ticks between the init and the ack, what the ack tells, what an init after it tells
    let table = [
        (2, Told::Complete, Told::Nothing),
        (3, Told::Nothing, Told::Complete),
    ];
    for (ticks, ack, init) in table {
        let mut ledger = Ledger::new(rt.alloc(), 3)?;
        assert_eq!(rt; ledger.init(ROOT, 5)?, Told::Nothing);
        for _ in 0..ticks {
            ledger.tick();
        }
        assert_eq!(rt; ledger.ack(ROOT, 5)?, ack);
        assert_eq!(rt; ledger.init(ROOT, 5)?, init);
    }
    Ok(())
}

// Puts a value of a root that is not held.
fn put_new(held: &mut Rotating<u64>, txid: u64, value: u64) -> Result<(), u64> {
    let root = Root { txid, attempt: 1 };
    match held.get(root) {
        Some(_) => Err(value),
        None => held.put(root, value),
    }
}

// Writes the value of a root that is held.
fn write(held: &mut Rotating<u64>, txid: u64, value: u64) -> bool {
    match held.get(Root { txid, attempt: 1 }) {
        Some(place) => {
            *place = value;
            true
        }
        None => false,
    }
}

#[test]
fn values_are_dropped_in_the_order_of_their_puts(rt: HostRuntime) -> Result<(), Fail> {
    let alloc = rt.alloc();
    let mut held = Rotating::new(alloc, 2)?;
    for txid in [4, 2, 9] {
        put_new(&mut held, txid, txid)?;
    }
    assert_eq!(rt;
        held.take(Root {
            txid: 2,
            attempt: 1
        }),
        Some(2)
    );
    assert_eq!(rt;
        held.take(Root {
            txid: 2,
            attempt: 1
        }),
        None
    );
    put_new(&mut held, 2, 21)?;
    assert_eq!(rt; put_new(&mut held, 2, 22), Err(22));
    let none: [(u64, u64); 0] = [];
    assert_eq!(rt; values(alloc, held.rotate())?.as_slice(), none.as_slice());
    put_new(&mut held, 1, 10)?;
    assert!(rt; write(&mut held, 9, 91));
    assert_eq!(rt;
        values(alloc, held.rotate())?.as_slice(),
        [(4, 4), (9, 91), (2, 21)].as_slice()
    );
    assert_eq!(rt;
        values(alloc, held.rotate())?.as_slice(),
        [(1, 10)].as_slice()
    );
    Ok(())
}
