// Topologies, and records with their report.
use std::alloc::Global;
use test_kit::{Mismatch, changed};

/// The word count, in batches of two records.
pub const WORD_COUNT: &str = "{\"version\":1,
 \"spout\":{\"name\":\"lines\",\"kind\":\"transactional\",\"fields\":[\"sentence\"],\"batch\":2},
 \"bolts\":[{\"name\":\"split\",\"tasks\":2,
   \"op\":{\"do\":\"split\",\"field\":\"sentence\",\"as\":\"word\"},
   \"inputs\":[{\"from\":\"lines\",\"grouping\":\"shuffle\"}]}],
 \"states\":[{\"name\":\"counts\",\"kind\":\"transactional\",\"parts\":2,\"key\":[\"word\"],
   \"fold\":\"count\",\"inputs\":[\"split\"]}],
 \"ackers\":2,\"pending\":4,\"buckets\":3,\"attempts\":4}
";

/// Three records.
pub const SENTENCES: &str = "[\"the cow jumped over the moon\"]
[\"the man went to the store\"]
[\"four score and seven years ago\"]
";

/// The report of the word count over them.
pub const COUNTED_SENTENCES: &str = "attempt 1.1 records 1-2 ticks 0-0 committed
attempt 2.1 records 3-3 ticks 0-0 committed
cell counts [\"ago\"] 1
cell counts [\"and\"] 1
cell counts [\"cow\"] 1
cell counts [\"four\"] 1
cell counts [\"jumped\"] 1
cell counts [\"man\"] 1
cell counts [\"moon\"] 1
cell counts [\"over\"] 1
cell counts [\"score\"] 1
cell counts [\"seven\"] 1
cell counts [\"store\"] 1
cell counts [\"the\"] 4
cell counts [\"to\"] 1
cell counts [\"went\"] 1
cell counts [\"years\"] 1
ok 3 records 2 batches
";

/// The tables of the word count over them, and the tail of their report.
pub const TABLES_OF_SENTENCES: &str = "cell counts [\"ago\"] 1
cell counts [\"and\"] 1
cell counts [\"cow\"] 1
cell counts [\"four\"] 1
cell counts [\"jumped\"] 1
cell counts [\"man\"] 1
cell counts [\"moon\"] 1
cell counts [\"over\"] 1
cell counts [\"score\"] 1
cell counts [\"seven\"] 1
cell counts [\"store\"] 1
cell counts [\"the\"] 4
cell counts [\"to\"] 1
cell counts [\"went\"] 1
cell counts [\"years\"] 1
ok 3 records 2 batches
";

/// The word count with one task, one part and one acker. The task is the source 0 of ids, the part
/// 1 and the coordinator 2.
pub const SMALL_WORD_COUNT: &str = r#"{"version":1,
 "spout":{"name":"lines","kind":"transactional","fields":["sentence"],"batch":1},
 "bolts":[{"name":"split","tasks":1,
   "op":{"do":"split","field":"sentence","as":"word"},
   "inputs":[{"from":"lines","grouping":"shuffle"}]}],
 "states":[{"name":"counts","kind":"transactional","parts":1,"key":["word"],
   "fold":"count","inputs":["split"]}],
 "ackers":1,"pending":4,"buckets":3,"attempts":4}"#;

/// The last value of each key.
pub const LAST_VALUE: &str = r#"{"version":1,
 "spout":{"name":"pairs","kind":"transactional","fields":["k","v"],"batch":1},
 "bolts":[],
 "states":[{"name":"last","kind":"transactional","parts":1,"key":["k"],
   "fold":"last","amount":"v","inputs":["pairs"]}],
 "ackers":2,"pending":2}"#;

/// The last value of each key, behind a bolt that is handed in.
pub const TURNED: &str = r#"{"version":1,
 "spout":{"name":"pairs","kind":"transactional","fields":["k","v"],"batch":1},
 "bolts":[{"name":"turn","tasks":1,"op":{"do":"custom"},
   "inputs":[{"from":"pairs","grouping":"shuffle"}]}],
 "states":[{"name":"last","kind":"transactional","parts":1,"key":["k"],
   "fold":"last","amount":"v","inputs":["turn"]}],
 "ackers":2,"pending":2}"#;

/// Three copies of each sentence, and the words of all of them by one task.
pub const COPIES_TO_ALL: &str = r#"{"version":1,
 "spout":{"name":"lines","kind":"transactional","fields":["sentence"],"batch":1},
 "bolts":[{"name":"copy","tasks":3,
   "op":{"do":"project","fields":["sentence"]},
   "inputs":[{"from":"lines","grouping":"all"}]},
  {"name":"split","tasks":2,
   "op":{"do":"split","field":"sentence","as":"word"},
   "inputs":[{"from":"copy","grouping":"global"}]}],
 "states":[{"name":"counts","kind":"transactional","parts":1,"key":["word"],
   "fold":"count","inputs":["split"]}]}"#;

/// Two tasks side by side, in one batch of two records.
pub const SIDE_BY_SIDE: &str = r#"{"version":1,
 "spout":{"name":"words","kind":"transactional","fields":["word"],"batch":2},
 "bolts":[{"name":"pass","tasks":2,
   "op":{"do":"project","fields":["word"]},
   "inputs":[{"from":"words","grouping":"shuffle"}]}],
 "states":[{"name":"counts","kind":"transactional","parts":1,"key":["word"],
   "fold":"count","inputs":["pass"]}]}"#;

/// Every fold but one, and operations that choose, drop and add.
pub const PAIRS: &str = r#"{"version":1,
 "spout":{"name":"pairs","kind":"transactional","fields":["k","v"],"batch":2},
 "bolts":[
  {"name":"small","tasks":2,"op":{"do":"filter","field":"v","test":"lt","value":10},
   "inputs":[{"from":"pairs","grouping":"fields","key":["k"]}]},
  {"name":"chosen","tasks":3,"op":{"do":"route","field":"v"},
   "inputs":[{"from":"small","grouping":"shuffle"}]},
  {"name":"sized","tasks":2,"op":{"do":"len","field":"k","as":"n"},
   "inputs":[{"from":"chosen","grouping":"direct"}]}],
 "states":[
  {"name":"sums","kind":"transactional","parts":2,"key":["k"],
   "fold":"sum","amount":"v","inputs":["sized"]},
  {"name":"most","kind":"transactional","parts":1,"key":["n"],
   "fold":"max","amount":"v","inputs":["sized"]},
  {"name":"all","kind":"transactional","parts":1,"key":["k","v"],
   "fold":"count","inputs":["pairs"]}]}"#;

/// A count of words behind one bolt that fails no attempt. The state is the component 1.
pub const STEADY: &str = r#"{"version":1,
 "spout":{"name":"words","kind":"transactional","fields":["word"],"batch":1},
 "bolts":[{"name":"shaky","tasks":1,"op":{"do":"flaky","below":1},
   "inputs":[{"from":"words","grouping":"shuffle"}]}],
 "states":[{"name":"counts","kind":"transactional","parts":1,"key":["word"],
   "fold":"count","inputs":["shaky"]}],
 "ackers":1,"pending":1,"buckets":3,"attempts":4}"#;

/// The same with a bolt that fails the attempts below 3.
pub const FAILS_TWICE: &str = r#"{"version":1,
 "spout":{"name":"words","kind":"transactional","fields":["word"],"batch":1},
 "bolts":[{"name":"shaky","tasks":1,"op":{"do":"flaky","below":3},
   "inputs":[{"from":"words","grouping":"shuffle"}]}],
 "states":[{"name":"counts","kind":"transactional","parts":1,"key":["word"],
   "fold":"count","inputs":["shaky"]}],
 "ackers":1,"pending":1,"buckets":3,"attempts":4}"#;

/// The same with a bolt that fails the attempts below 9, of which there are four.
pub const FAILS_ALWAYS: &str = r#"{"version":1,
 "spout":{"name":"words","kind":"transactional","fields":["word"],"batch":1},
 "bolts":[{"name":"shaky","tasks":1,"op":{"do":"flaky","below":9},
   "inputs":[{"from":"words","grouping":"shuffle"}]}],
 "states":[{"name":"counts","kind":"transactional","parts":1,"key":["word"],
   "fold":"count","inputs":["shaky"]}],
 "ackers":1,"pending":1,"buckets":3,"attempts":4}"#;

/// A count of words behind one bolt that is mute in the first attempt.
pub const MUTE_ONCE: &str = r#"{"version":1,
 "spout":{"name":"words","kind":"transactional","fields":["word"],"batch":1},
 "bolts":[{"name":"shaky","tasks":1,"op":{"do":"mute","below":2},
   "inputs":[{"from":"words","grouping":"shuffle"}]}],
 "states":[{"name":"counts","kind":"transactional","parts":1,"key":["word"],
   "fold":"count","inputs":["shaky"]}],
 "ackers":1,"pending":1,"buckets":3,"attempts":4}"#;

/// The same with a bolt that is mute in the attempts below 9, of which there are four.
pub const MUTE_ALWAYS: &str = r#"{"version":1,
 "spout":{"name":"words","kind":"transactional","fields":["word"],"batch":1},
 "bolts":[{"name":"shaky","tasks":1,"op":{"do":"mute","below":9},
   "inputs":[{"from":"words","grouping":"shuffle"}]}],
 "states":[{"name":"counts","kind":"transactional","parts":1,"key":["word"],
   "fold":"count","inputs":["shaky"]}],
 "ackers":1,"pending":1,"buckets":3,"attempts":4}"#;

/// A count of the words of two partitions, with batches of two records.
pub const TWO_PARTITIONS: &str = r#"{"version":2,
 "spout":{"name":"words","kind":"opaque","fields":["word"],"batch":2,"partitions":2},
 "bolts":[],
 "states":[{"name":"counts","kind":"opaque","parts":1,"key":["word"],
   "fold":"count","inputs":["words"]}],
 "pending":2}"#;

/// A count of the words of one partition behind a bolt that fails the attempts below 2, with
/// batches of one record.
pub const DROPS_ONCE: &str = r#"{"version":2,
 "spout":{"name":"words","kind":"opaque","fields":["word"],"batch":1,"partitions":1},
 "bolts":[{"name":"shaky","tasks":1,"op":{"do":"flaky","below":2},
   "inputs":[{"from":"words","grouping":"shuffle"}]}],
 "states":[{"name":"counts","kind":"opaque","parts":1,"key":["word"],
   "fold":"count","inputs":["shaky"]}],
 "ackers":1,"pending":2,"buckets":3,"attempts":4}"#;

/// The same with two attempts, which both fail.
pub const DROPS_ALWAYS: &str = r#"{"version":2,
 "spout":{"name":"words","kind":"opaque","fields":["word"],"batch":1,"partitions":1},
 "bolts":[{"name":"shaky","tasks":1,"op":{"do":"flaky","below":9},
   "inputs":[{"from":"words","grouping":"shuffle"}]}],
 "states":[{"name":"counts","kind":"opaque","parts":1,"key":["word"],
   "fold":"count","inputs":["shaky"]}],
 "ackers":1,"pending":2,"buckets":3,"attempts":2}"#;

/// The same with a bolt for the word `a` that fails one attempt, and one for `b` that fails two.
pub const DROPS_THEN_FAILS: &str = r#"{"version":2,
 "spout":{"name":"words","kind":"opaque","fields":["word"],"batch":1,"partitions":1},
 "bolts":[
  {"name":"first","tasks":1,"op":{"do":"filter","field":"word","test":"eq","value":"a"},
   "inputs":[{"from":"words","grouping":"shuffle"}]},
  {"name":"once","tasks":1,"op":{"do":"flaky","below":2},
   "inputs":[{"from":"first","grouping":"shuffle"}]},
  {"name":"second","tasks":1,"op":{"do":"filter","field":"word","test":"eq","value":"b"},
   "inputs":[{"from":"words","grouping":"shuffle"}]},
  {"name":"twice","tasks":1,"op":{"do":"flaky","below":3},
   "inputs":[{"from":"second","grouping":"shuffle"}]}],
 "states":[{"name":"counts","kind":"opaque","parts":1,"key":["word"],
   "fold":"count","inputs":["once","twice"]}],
 "ackers":1,"pending":2,"buckets":3,"attempts":2}"#;

/// A count of words behind one bolt.
const ONE_BOLT: &str = r#"{"version":1,
 "spout":{"name":"words","kind":"SPOUT","fields":["word"],"batch":1},
 "bolts":[{"name":"bolt","tasks":1,"op":OP,
   "inputs":[{"from":"words","grouping":"shuffle"}]}],
 "states":[{"name":"counts","kind":"STATE","parts":1,"key":["word"],
   "fold":"count","inputs":["bolt"]}]}"#;

/// A count of words behind one bolt, with kinds of its spout and its state, and the operation of
/// its bolt.
pub fn one_bolt(alloc: Global, spout: &str, state: &str, op: &str) -> Result<String, Mismatch> {
    let with_spout = changed(alloc, ONE_BOLT, "SPOUT", spout)?;
    let with_state = changed(alloc, with_spout.as_str(), "STATE", state)?;
    changed(alloc, with_state.as_str(), "OP", op)
}
