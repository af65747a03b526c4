use crate::inputs::{Ends, Trouble, spans_of};
use record_offers::possible;
use std::alloc::Global;
use storm_values::Memory;

const LAST: u64 = u64::MAX;

// Size, partitions, records, transaction, spans, and whether that is possible.
const STARTS: [(u32, u32, u64, u64, Ends, bool); 23] = [
    (2, 0, 5, 0, &[], true),
    (2, 0, 5, 1, &[(1, 2)], true),
    (2, 0, 5, 3, &[(1, 5)], true),
    (2, 0, 5, 4, &[(1, 5)], false),
    (2, 0, 5, 2, &[(1, 5)], false),
    (2, 0, 5, 1, &[], false),
    (2, 0, 5, 0, &[(1, 2)], false),
    (2, 0, 5, 1, &[(2, 2)], false),
    (2, 0, 5, 2, &[(1, 2), (3, 4)], false),
    (2, 0, 0, 0, &[], true),
    (2, 0, 0, 1, &[], false),
    (u32::MAX, 0, LAST, 1, &[(1, 4_294_967_295)], true),
    (2, 2, 5, 0, &[], true),
    (2, 2, 5, 1, &[(2, 2)], true),
    (2, 2, 5, 1, &[(1, 1), (3, 3)], true),
    (2, 2, 5, 2, &[(1, 3), (5, 5)], true),
    (2, 2, 5, 1, &[(3, 3)], false),
    (2, 2, 5, 1, &[(1, 3)], false),
    (2, 2, 5, 2, &[(1, 1)], false),
    (2, 2, 5, 3, &[(1, 6)], false),
    (2, 2, 5, 0, &[(1, 1)], false),
    (2, 2, 5, 1, &[(0, 1)], false),
    (1, 16, LAST, LAST, &[(LAST, LAST)], false),
];

fn is_so(alloc: Global, line: (u32, u32, u64, u64, Ends, bool)) -> Result<bool, Memory> {
    let (size, partitions, records, txid, ends, wanted) = line;
    let gone = spans_of(alloc, ends)?;
    let size = size.max(1);
    let partitions = partitions.min(16);
    Ok(possible(size, partitions, records, txid, gone.as_slice()) == wanted)
}

#[test]
fn starts_that_are_possible(rt: HostRuntime) -> Result<(), Trouble> {
    for (at, line) in STARTS.iter().enumerate() {
        if !is_so(rt.alloc(), *line)? {
            return Err(Trouble::Line(at));
        }
    }
    Ok(())
}
