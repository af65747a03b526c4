// What the tuple trees of a word count write, and the tables by definition.
use sample_operations::Backwards;
use std::test::Fail;
use topology_reader::read_topology;
use tree_model::storm_values::read_input;
use tree_model::{count_nodes, plain_tables, writes_of};

/// The counts of words, with three tasks and two parts.
const WORD_COUNT: &str =
    "{\"version\":1,\"spout\":{\"name\":\"lines\",\"kind\":\"transactional\",\"fields\":[\"sentence\"],\"batch\":2},\"bolts\":[{\"name\":\"split\",\"tasks\":3,\"op\":{\"do\":\"split\",\"field\":\"sentence\",\"as\":\"word\"},\"inputs\":[{\"from\":\"lines\",\"grouping\":\"shuffle\"}]}],\"states\":[{\"name\":\"counts\",\"kind\":\"transactional\",\"parts\":2,\"key\":[\"word\"],\"fold\":\"count\",\"inputs\":[\"split\"]}],\"ackers\":2,\"pending\":4,\"buckets\":3,\"attempts\":4}";

#[test]
fn writes_words_in_path_order(rt: HostRuntime) -> Result<(), Fail> {
    let alloc = rt.alloc();
    let plan = read_topology(alloc, WORD_COUNT.as_bytes())?;
    let input = b"[\"the cat\"]\n[\"the dog the\"]\n";
    let rows = read_input(alloc, input, plan.spout_fields())?;
    let writes = writes_of(alloc, &plan, rows.as_slice(), &Backwards)?;
    let expected = [
        ("[\"the\"]", 0),
        ("[\"cat\"]", 1),
        ("[\"the\"]", 0),
        ("[\"dog\"]", 1),
        ("[\"the\"]", 0),
    ];
    assert!(rt; writes.len() == expected.len());
    for (write, (key, part)) in writes.as_slice().iter().zip(&expected) {
        assert!(rt; (write.state, write.part, write.amount) == (1, *part, 1));
        assert!(rt; write.key.as_str() == *key);
    }
    Ok(())
}

const THREE: &[u8] = b"[\"the cat\"]\n[\"the dog the\"]\n[\"\"]\n";

#[test]
fn counts_nodes(rt: HostRuntime) -> Result<(), Fail> {
    let alloc = rt.alloc();
    let plan = read_topology(alloc, WORD_COUNT.as_bytes())?;
    let rows = read_input(alloc, THREE, plan.spout_fields())?;
    assert!(rt; count_nodes(alloc, &plan, &rows, &Backwards)? == 8);
    Ok(())
}

#[test]
fn counts_words(rt: HostRuntime) -> Result<(), Fail> {
    let alloc = rt.alloc();
    let plan = read_topology(alloc, WORD_COUNT.as_bytes())?;
    let rows = read_input(alloc, THREE, plan.spout_fields())?;
    let tables = plain_tables(alloc, &plan, &rows, &Backwards)?;
    assert!(rt; tables.len() == 1);
    let table = tables.at(0);
    assert!(rt; table.name.as_str() == "counts");
    let expected = [("[\"cat\"]", 1), ("[\"dog\"]", 1), ("[\"the\"]", 3)];
    assert!(rt; table.pairs.len() == expected.len());
    for (pair, (key, value)) in table.pairs.as_slice().iter().zip(&expected) {
        assert!(rt; pair.key.as_str() == *key);
        assert!(rt; pair.value == *value);
    }
    Ok(())
}
