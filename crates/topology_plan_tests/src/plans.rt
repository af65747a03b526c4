// The plans of valid files.
use crate::described::described;
use std::alloc::Global;
use storm_values::Memory;
use test_kit::{Mismatch, changed, compare};
use topology_reader::read_topology;

const WORD_COUNT: &str = r#"{"version":1,
 "spout":{"name":"lines","kind":"transactional","fields":["sentence"],"batch":2},
 "bolts":[{"name":"split","tasks":2,
   "op":{"do":"split","field":"sentence","as":"word"},
   "inputs":[{"from":"lines","grouping":"shuffle"}]}],
 "states":[{"name":"counts","kind":"transactional","parts":2,"key":["word"],
   "fold":"count","inputs":["split"]}],
 "ackers":2,"pending":4,"buckets":3,"attempts":4}"#;

const WORD_COUNT_PLAN: &str = "components 2 tasks 4 weight 2 depth 2
ackers 2 pending 4 buckets 3 attempts 4
transactional spout fields 1 batch 2 partitions 0; to 0 shuffle
split from 0 tasks 2 fields word split 0; to 1 fields [0]
counts from 2 tasks 2 fields transactional key [0] count
tasks of 0 0 1 1
";

const FLAKY: &str = r#"{"version":1,
 "spout":{"name":"words","kind":"transactional","fields":["word"],"batch":1},
 "bolts":[{"name":"shaky","tasks":1,"op":{"do":"flaky","below":3},
   "inputs":[{"from":"words","grouping":"shuffle"}]}],
 "states":[{"name":"counts","kind":"transactional","parts":1,"key":["word"],
   "fold":"count","inputs":["shaky"]}],
 "ackers":1,"pending":1,"buckets":3,"attempts":4}"#;

const FLAKY_PLAN: &str = "components 2 tasks 2 weight 2 depth 2
ackers 1 pending 1 buckets 3 attempts 4
transactional spout fields 1 batch 1 partitions 0; to 0 shuffle
shaky from 0 tasks 1 fields word flaky 3; to 1 fields [0]
counts from 1 tasks 1 fields transactional key [0] count
tasks of 0 1
";

const LAST_VALUE: &str = r#"{"version":1,
 "spout":{"name":"pairs","kind":"transactional","fields":["k","v"],"batch":1},
 "bolts":[],
 "states":[{"name":"last","kind":"transactional","parts":1,"key":["k"],
   "fold":"last","amount":"v","inputs":["pairs"]}],
 "ackers":2,"pending":2}"#;

const LAST_VALUE_PLAN: &str = "components 1 tasks 1 weight 1 depth 1
ackers 2 pending 2 buckets 3 attempts 10
transactional spout fields 2 batch 1 partitions 0; to 0 fields [0]
last from 0 tasks 1 fields transactional key [0] last 1
tasks of 0
";

// The last value with a bolt between.
const TURNED: &str = r#"{"version":1,
 "spout":{"name":"pairs","kind":"transactional","fields":["k","v"],"batch":1},
 "bolts":[{"name":"turn","tasks":1,"op":{"do":"custom"},"inputs":[{"from":"pairs","grouping":"shuffle"}]}],
 "states":[{"name":"last","kind":"transactional","parts":1,"key":["k"],
   "fold":"last","amount":"v","inputs":["turn"]}],
 "ackers":2,"pending":2}"#;

const TURNED_PLAN: &str = "components 2 tasks 2 weight 2 depth 2
ackers 2 pending 2 buckets 3 attempts 10
transactional spout fields 2 batch 1 partitions 0; to 0 shuffle
turn from 0 tasks 1 fields k v custom; to 1 fields [0]
last from 1 tasks 1 fields transactional key [0] last 1
tasks of 0 1
";

const COPIES_TO_ALL: &str = r#"{"version":1,
 "spout":{"name":"lines","kind":"transactional","fields":["sentence"],"batch":1},
 "bolts":[{"name":"copy","tasks":3,
   "op":{"do":"project","fields":["sentence"]},
   "inputs":[{"from":"lines","grouping":"all"}]},
  {"name":"split","tasks":2,
   "op":{"do":"split","field":"sentence","as":"word"},
   "inputs":[{"from":"copy","grouping":"global"}]}],
 "states":[{"name":"counts","kind":"transactional","parts":1,"key":["word"],
   "fold":"count","inputs":["split"]}]}"#;

const COPIES_TO_ALL_PLAN: &str = "components 3 tasks 6 weight 9 depth 3
ackers 1 pending 1 buckets 3 attempts 10
transactional spout fields 1 batch 1 partitions 0; to 0 all
copy from 0 tasks 3 fields sentence project [0]; to 1 global
split from 3 tasks 2 fields word split 0; to 2 fields [0]
counts from 5 tasks 1 fields transactional key [0] count
tasks of 0 0 0 1 1 2
";

const SIDE_BY_SIDE: &str = r#"{"version":1,
 "spout":{"name":"words","kind":"transactional","fields":["word"],"batch":2},
 "bolts":[{"name":"pass","tasks":2,
   "op":{"do":"project","fields":["word"]},
   "inputs":[{"from":"words","grouping":"shuffle"}]}],
 "states":[{"name":"counts","kind":"transactional","parts":1,"key":["word"],
   "fold":"count","inputs":["pass"]}]}"#;

const SIDE_BY_SIDE_PLAN: &str = "components 2 tasks 3 weight 2 depth 2
ackers 1 pending 1 buckets 3 attempts 10
transactional spout fields 1 batch 2 partitions 0; to 0 shuffle
pass from 0 tasks 2 fields word project [0]; to 1 fields [0]
counts from 2 tasks 1 fields transactional key [0] count
tasks of 0 0 1
";

// Every grouping, a bolt that takes from a later one, and the most partitions.
const MIXED: &str = r#"{"version":2,
 "spout":{"name":"s","kind":"opaque","fields":["text","size"],"batch":7,"partitions":16},
 "bolts":[
  {"name":"late","tasks":2,"op":{"do":"len","field":"text","as":"bytes"},
   "inputs":[{"from":"twin","grouping":"fields","key":["text","size"]}]},
  {"name":"even","tasks":3,"op":{"do":"filter","field":"size","test":"ne","value":0},
   "inputs":[{"from":"s","grouping":"none"}]},
  {"name":"mark","tasks":1,"op":{"do":"set","field":"text","value":"big"},
   "inputs":[{"from":"s","grouping":"local_or_shuffle"}]},
  {"name":"pick","tasks":4,"op":{"do":"route","field":"size"},
   "inputs":[{"from":"mark","grouping":"all"},{"from":"even","grouping":"global"}]},
  {"name":"twin","tasks":5,"op":{"do":"project","fields":["size","text"]},
   "inputs":[{"from":"pick","grouping":"direct"}]}],
 "states":[
  {"name":"sums","kind":"opaque","parts":6,"key":["bytes","text"],"fold":"sum","amount":"size","inputs":["late"]},
  {"name":"tops","kind":"opaque","parts":1,"key":["text"],"fold":"max","amount":"size","inputs":["even","s","pick"]}],
 "pending":64}"#;

const MIXED_PLAN: &str = "components 7 tasks 22 weight 29 depth 5
ackers 1 pending 64 buckets 3 attempts 10
opaque spout fields 2 batch 7 partitions 16; to 1 shuffle; to 2 shuffle; to 6 fields [0]
late from 0 tasks 2 fields size text bytes len 1; to 5 fields [2, 1]
even from 2 tasks 3 fields text size filter 1 ne 0; to 3 global; to 6 fields [0]
mark from 5 tasks 1 fields text size set 0 'big'; to 3 all
pick from 6 tasks 4 fields text size route 1; to 4 direct 1; to 6 fields [0]
twin from 10 tasks 5 fields size text project [1, 0]; to 0 fields [1, 0]
sums from 15 tasks 6 fields opaque key [2, 1] sum 0
tops from 21 tasks 1 fields opaque key [0] max 1
tasks of 0 0 1 1 1 2 3 3 3 3 4 4 4 4 4 5 5 5 5 5 5 6
";

// Files and the texts of their plans.
const PLANS: [(&str, &str); 7] = [
    (WORD_COUNT, WORD_COUNT_PLAN),
    (FLAKY, FLAKY_PLAN),
    (LAST_VALUE, LAST_VALUE_PLAN),
    (TURNED, TURNED_PLAN),
    (COPIES_TO_ALL, COPIES_TO_ALL_PLAN),
    (SIDE_BY_SIDE, SIDE_BY_SIDE_PLAN),
    (MIXED, MIXED_PLAN),
];

// Files with a word changed, and the texts of their plans with one changed.
const WORDS: [(&str, &str, &str, &str, &str, &str); 3] = [
    (FLAKY, "flaky", "mute", FLAKY_PLAN, "flaky", "mute"),
    (MIXED, "\"ne\"", "\"eq\"", MIXED_PLAN, " ne ", " eq "),
    (MIXED, "\"ne\"", "\"lt\"", MIXED_PLAN, " ne ", " lt "),
];

fn plan_text(alloc: Global, file: &str) -> Result<String, Memory> {
    match read_topology(alloc, file.as_bytes()) {
        Ok(plan) => described(alloc, &plan),
        Err(fault) => fault.text(alloc),
    }
}

#[test]
fn plans_of_files(rt: HostRuntime) -> Result<(), Mismatch> {
    let alloc = rt.alloc();
    for (file, want) in PLANS {
        compare(alloc, file, plan_text(alloc, file)?.as_str(), want)?;
    }
    Ok(())
}

#[test]
fn plans_of_files_with_another_word(rt: HostRuntime) -> Result<(), Mismatch> {
    let alloc = rt.alloc();
    for (file, word, other, plan, plan_word, plan_other) in WORDS {
        let file = changed(alloc, file, word, other)?;
        let want = changed(alloc, plan, plan_word, plan_other)?;
        let told = plan_text(alloc, file.as_str())?;
        compare(alloc, file.as_str(), told.as_str(), want.as_str())?;
    }
    Ok(())
}
