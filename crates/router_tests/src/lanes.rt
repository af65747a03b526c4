// Where one lane sends a row.
use groupings::{Lane, Targets};
use std::alloc::Global;
use std::test::Fail;
use storm_values::{Indexes, Memory, Row, Txt, Value};
use topology_plan::Grouping;

/// Where a row of one value goes among the tasks 10 to 13.
fn route_one(alloc: Global, by: Grouping, value: Value) -> Result<Targets, Memory> {
    let mut row = Row::new(alloc);
    row.push(value)?;
    let mut lane = Lane {
        first: 10,
        tasks: 4,
        by,
        turn: 3,
    };
    Ok(lane.route(&row))
}

#[test]
fn goes_by_the_grouping(rt: HostRuntime) -> Result<(), Fail> {
    let alloc = rt.alloc();
    for (text, task) in [("a", 10), ("", 11)] {
        let key = Indexes::from_vec(vec![in alloc; 0]?);
        let value = Value::Text(Txt::from_str(alloc, text)?);
        assert_eq!(rt;
            route_one(alloc, Grouping::Fields(key), value)?,
            Targets::One(task)
        );
        let value = Value::Text(Txt::from_str(alloc, text)?);
        assert_eq!(rt;
            route_one(alloc, Grouping::Direct(0), value)?,
            Targets::One(task)
        );
    }
    for (number, task) in [(-1, 13), (0, 10), (5, 11), (-4, 10), (i64::MIN, 10)] {
        let found = route_one(alloc, Grouping::Direct(0), Value::Int(number))?;
        assert_eq!(rt; found, Targets::One(task), "at {number}");
    }
    let all = Targets::All {
        first: 10,
        count: 4,
    };
    assert_eq!(rt; route_one(alloc, Grouping::All, Value::Int(0))?, all);
    assert_eq!(rt;
        route_one(alloc, Grouping::Global, Value::Int(0))?,
        Targets::One(10)
    );
    assert_eq!(rt;
        route_one(alloc, Grouping::Shuffle, Value::Int(0))?,
        Targets::One(13)
    );
    Ok(())
}
