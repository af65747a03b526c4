// Each grouping and each operation, and several bolts, at several scales. In a topology `BATCH` and
// `SCALE` stand for its scale.
use std::alloc::Global;
use test_kit::{Mismatch, changed};

/// A topology and an input.
pub type Example = (&'static str, &'static str);

/// The most records of a batch, and the numbers of ackers and of pending attempts.
pub type Scale = (&'static str, &'static str);

// The words of sentences.
const WORD_COUNT: Example = (
    r#"{"version":1,
 "spout":{"name":"lines","kind":"transactional","fields":["sentence"],"batch":BATCH},
 "bolts":[{"name":"split","tasks":2,
   "op":{"do":"split","field":"sentence","as":"word"},
   "inputs":[{"from":"lines","grouping":"shuffle"}]}],
 "states":[{"name":"counts","kind":"transactional","parts":2,"key":["word"],
   "fold":"count","inputs":["split"]}]SCALE}"#,
    r#"["the cow jumped over the moon"]
["the man went to the store"]
["four score and seven years ago"]
"#,
);

// A task in turn.
const SHUFFLE: Example = (
    r#"{"version":1,
 "spout":{"name":"lines","kind":"transactional","fields":["word"],"batch":BATCH},
 "bolts":[{"name":"sized","tasks":3,"op":{"do":"len","field":"word","as":"bytes"},
   "inputs":[{"from":"lines","grouping":"shuffle"}]}],
 "states":[{"name":"counts","kind":"transactional","parts":2,"key":["word"],
   "fold":"count","inputs":["sized"]}]SCALE}"#,
    r#"["a"]
["b"]
["a"]
"#,
);

// The same under another name.
const NONE: Example = (
    r#"{"version":1,
 "spout":{"name":"lines","kind":"transactional","fields":["word"],"batch":BATCH},
 "bolts":[{"name":"sized","tasks":3,"op":{"do":"len","field":"word","as":"bytes"},
   "inputs":[{"from":"lines","grouping":"none"}]}],
 "states":[{"name":"counts","kind":"transactional","parts":2,"key":["word"],
   "fold":"count","inputs":["sized"]}]SCALE}"#,
    r#"["a"]
["b"]
["a"]
"#,
);

// The same under a third name.
const LOCAL_OR_SHUFFLE: Example = (
    r#"{"version":1,
 "spout":{"name":"lines","kind":"transactional","fields":["word"],"batch":BATCH},
 "bolts":[{"name":"sized","tasks":3,"op":{"do":"len","field":"word","as":"bytes"},
   "inputs":[{"from":"lines","grouping":"local_or_shuffle"}]}],
 "states":[{"name":"counts","kind":"transactional","parts":2,"key":["word"],
   "fold":"count","inputs":["sized"]}]SCALE}"#,
    r#"["a"]
["b"]
["a"]
"#,
);

// The task of a key.
const FIELDS: Example = (
    r#"{"version":1,
 "spout":{"name":"lines","kind":"transactional","fields":["word"],"batch":BATCH},
 "bolts":[{"name":"sized","tasks":4,"op":{"do":"len","field":"word","as":"bytes"},
   "inputs":[{"from":"lines","grouping":"fields","key":["word"]}]}],
 "states":[{"name":"counts","kind":"transactional","parts":2,"key":["word","bytes"],
   "fold":"count","inputs":["sized"]}]SCALE}"#,
    r#"["a"]
[""]
["a"]
"#,
);

// A copy to each task.
const ALL: Example = (
    r#"{"version":1,
 "spout":{"name":"lines","kind":"transactional","fields":["sentence"],"batch":BATCH},
 "bolts":[{"name":"copied","tasks":3,"op":{"do":"len","field":"sentence","as":"bytes"},
   "inputs":[{"from":"lines","grouping":"all"}]},
  {"name":"split","tasks":2,"op":{"do":"split","field":"sentence","as":"word"},
   "inputs":[{"from":"copied","grouping":"shuffle"}]}],
 "states":[{"name":"counts","kind":"transactional","parts":2,"key":["word"],
   "fold":"count","inputs":["split"]}]SCALE}"#,
    r#"["a b"]
"#,
);

// The first task alone.
const GLOBAL: Example = (
    r#"{"version":1,
 "spout":{"name":"lines","kind":"transactional","fields":["word"],"batch":BATCH},
 "bolts":[{"name":"sized","tasks":3,"op":{"do":"len","field":"word","as":"bytes"},
   "inputs":[{"from":"lines","grouping":"global"}]}],
 "states":[{"name":"counts","kind":"transactional","parts":2,"key":["word"],
   "fold":"count","inputs":["sized"]}]SCALE}"#,
    r#"["a"]
["b"]
["a"]
"#,
);

// The task that a field chooses.
const DIRECT: Example = (
    r#"{"version":1,
 "spout":{"name":"lines","kind":"transactional","fields":["task","n"],"batch":BATCH},
 "bolts":[{"name":"chosen","tasks":1,"op":{"do":"route","field":"task"},
   "inputs":[{"from":"lines","grouping":"shuffle"}]},
  {"name":"kept","tasks":4,"op":{"do":"set","field":"n","value":1},
   "inputs":[{"from":"chosen","grouping":"direct"}]}],
 "states":[{"name":"sums","kind":"transactional","parts":1,"key":["task"],
   "fold":"sum","amount":"n","inputs":["kept"]}]SCALE}"#,
    r#"[-1,5]
[4,5]
[0,5]
[-1,5]
"#,
);

// Texts with several spaces, none, and a number.
const SPLIT: Example = (
    r#"{"version":1,
 "spout":{"name":"lines","kind":"transactional","fields":["sentence"],"batch":BATCH},
 "bolts":[{"name":"split","tasks":2,"op":{"do":"split","field":"sentence","as":"word"},
   "inputs":[{"from":"lines","grouping":"shuffle"}]}],
 "states":[{"name":"counts","kind":"transactional","parts":2,"key":["word"],
   "fold":"count","inputs":["split"]}]SCALE}"#,
    r#"["to be  or not to be"]
[""]
[" "]
[7]
["naïve be"]
"#,
);

// Two of three fields, the other way round.
const PROJECT: Example = (
    r#"{"version":1,
 "spout":{"name":"lines","kind":"transactional","fields":["user","page","ms"],"batch":BATCH},
 "bolts":[{"name":"who","tasks":1,"op":{"do":"project","fields":["ms","user"]},
   "inputs":[{"from":"lines","grouping":"shuffle"}]}],
 "states":[{"name":"slowest","kind":"transactional","parts":2,"key":["user"],
   "fold":"max","amount":"ms","inputs":["who"]}]SCALE}"#,
    r#"["ann","/a",30]
["bob","/b",10]
["ann","/c",45]
"#,
);

// The rows below a number.
const FILTER: Example = (
    r#"{"version":1,
 "spout":{"name":"lines","kind":"transactional","fields":["user","ms"],"batch":BATCH},
 "bolts":[{"name":"slow","tasks":2,"op":{"do":"filter","field":"ms","test":"lt","value":20},
   "inputs":[{"from":"lines","grouping":"shuffle"}]}],
 "states":[{"name":"fast","kind":"transactional","parts":1,"key":["user"],
   "fold":"count","inputs":["slow"]}]SCALE}"#,
    r#"["ann",19]
["ann",20]
["bob",-3]
["bob","late"]
"#,
);

// One key for all rows.
const SET: Example = (
    r#"{"version":1,
 "spout":{"name":"lines","kind":"transactional","fields":["user","ms"],"batch":BATCH},
 "bolts":[{"name":"all","tasks":1,"op":{"do":"set","field":"user","value":"all"},
   "inputs":[{"from":"lines","grouping":"shuffle"}]}],
 "states":[{"name":"sums","kind":"transactional","parts":1,"key":["user"],
   "fold":"sum","amount":"ms","inputs":["all"]}]SCALE}"#,
    r#"["ann",19]
["bob",20]
["bob",-40]
"#,
);

// The number of bytes of each text.
const LEN: Example = (
    r#"{"version":1,
 "spout":{"name":"lines","kind":"transactional","fields":["word"],"batch":BATCH},
 "bolts":[{"name":"sized","tasks":2,"op":{"do":"len","field":"word","as":"bytes"},
   "inputs":[{"from":"lines","grouping":"shuffle"}]}],
 "states":[{"name":"lengths","kind":"transactional","parts":1,"key":["bytes"],
   "fold":"count","inputs":["sized"]}]SCALE}"#,
    r#"["cow"]
["naïve"]
["six"]
[1000]
[""]
"#,
);

// Numbers and texts that choose a task.
const ROUTE: Example = (
    r#"{"version":1,
 "spout":{"name":"lines","kind":"transactional","fields":["to","n"],"batch":BATCH},
 "bolts":[{"name":"chosen","tasks":1,"op":{"do":"route","field":"to"},
   "inputs":[{"from":"lines","grouping":"shuffle"}]},
  {"name":"kept","tasks":4,"op":{"do":"len","field":"to","as":"bytes"},
   "inputs":[{"from":"chosen","grouping":"direct"}]}],
 "states":[{"name":"sums","kind":"transactional","parts":1,"key":["to"],
   "fold":"sum","amount":"n","inputs":["kept"]}]SCALE}"#,
    r#"[0,1]
[-1,2]
[4,4]
["a",8]
["",16]
[-1,32]
"#,
);

// The attempts below 9 of ten fail.
const FLAKY: Example = (
    r#"{"version":1,
 "spout":{"name":"lines","kind":"transactional","fields":["word"],"batch":BATCH},
 "bolts":[{"name":"unsteady","tasks":1,"op":{"do":"flaky","below":9},
   "inputs":[{"from":"lines","grouping":"shuffle"}]}],
 "states":[{"name":"counts","kind":"transactional","parts":1,"key":["word"],
   "fold":"count","inputs":["unsteady"]}]SCALE}"#,
    r#"["a"]
"#,
);

// The first attempts are mute.
const MUTE: Example = (
    r#"{"version":1,
 "spout":{"name":"lines","kind":"transactional","fields":["word"],"batch":BATCH},
 "bolts":[{"name":"silent","tasks":1,"op":{"do":"mute","below":2},
   "inputs":[{"from":"lines","grouping":"shuffle"}]}],
 "states":[{"name":"counts","kind":"transactional","parts":1,"key":["word"],
   "fold":"count","inputs":["silent"]}]SCALE}"#,
    r#"["a"]
["b"]
["a"]
"#,
);

// The values of each row the other way round.
const CUSTOM: Example = (
    r#"{"version":1,
 "spout":{"name":"lines","kind":"transactional","fields":["k","v"],"batch":BATCH},
 "bolts":[{"name":"turned","tasks":2,"op":{"do":"custom"},
   "inputs":[{"from":"lines","grouping":"shuffle"}]}],
 "states":[{"name":"last","kind":"transactional","parts":1,"key":["k"],
   "fold":"last","amount":"v","inputs":["turned"]}]SCALE}"#,
    r#"[7,"x"]
[8,"x"]
[9,"y"]
"#,
);

// Three states behind a filter, a choice and a length.
const PAIRS: Example = (
    r#"{"version":1,
 "spout":{"name":"pairs","kind":"transactional","fields":["k","v"],"batch":BATCH},
 "bolts":[
  {"name":"small","tasks":2,"op":{"do":"filter","field":"v","test":"lt","value":10},
   "inputs":[{"from":"pairs","grouping":"fields","key":["k"]}]},
  {"name":"chosen","tasks":3,"op":{"do":"route","field":"v"},
   "inputs":[{"from":"small","grouping":"shuffle"}]},
  {"name":"sized","tasks":2,"op":{"do":"len","field":"k","as":"n"},
   "inputs":[{"from":"chosen","grouping":"direct"}]}],
 "states":[
  {"name":"sums","kind":"transactional","parts":2,"key":["k"],
   "fold":"sum","amount":"v","inputs":["sized"]},
  {"name":"most","kind":"transactional","parts":1,"key":["n"],
   "fold":"max","amount":"v","inputs":["sized"]},
  {"name":"all","kind":"transactional","parts":1,"key":["k","v"],
   "fold":"count","inputs":["pairs"]}]SCALE}"#,
    r#"["aa",1]
["b",20]
["b",-5]
["aa",7]
["ccc","x"]
"#,
);

// Seven bolts and a state behind them, which is at the depth 8.
const CHAIN: Example = (
    r#"{"version":1,
 "spout":{"name":"lines","kind":"transactional","fields":["sentence"],"batch":BATCH},
 "bolts":[
  {"name":"first","tasks":3,"op":{"do":"project","fields":["sentence"]},
   "inputs":[{"from":"lines","grouping":"all"}]},
  {"name":"second","tasks":2,"op":{"do":"split","field":"sentence","as":"word"},
   "inputs":[{"from":"first","grouping":"shuffle"}]},
  {"name":"third","tasks":2,"op":{"do":"len","field":"word","as":"bytes"},
   "inputs":[{"from":"second","grouping":"fields","key":["word"]}]},
  {"name":"fourth","tasks":2,"op":{"do":"filter","field":"bytes","test":"lt","value":4},
   "inputs":[{"from":"third","grouping":"global"}]},
  {"name":"fifth","tasks":3,"op":{"do":"route","field":"word"},
   "inputs":[{"from":"fourth","grouping":"none"}]},
  {"name":"sixth","tasks":4,"op":{"do":"set","field":"bytes","value":1},
   "inputs":[{"from":"fifth","grouping":"direct"}]},
  {"name":"seventh","tasks":2,"op":{"do":"custom"},
   "inputs":[{"from":"sixth","grouping":"local_or_shuffle"}]}],
 "states":[{"name":"counts","kind":"transactional","parts":3,"key":["bytes","word"],
   "fold":"count","inputs":["seventh"]}]SCALE}"#,
    r#"["the cow jumped over the moon"]
["the man went to the store"]
["four score and seven years ago"]
"#,
);

// States of both kinds.
const KINDS: Example = (
    r#"{"version":1,
 "spout":{"name":"pairs","kind":"transactional","fields":["k","v"],"batch":BATCH},
 "bolts":[{"name":"sized","tasks":2,"op":{"do":"len","field":"k","as":"n"},
   "inputs":[{"from":"pairs","grouping":"shuffle"}]}],
 "states":[
  {"name":"counts","kind":"transactional","parts":2,"key":["k"],
   "fold":"count","inputs":["sized"]},
  {"name":"sums","kind":"opaque","parts":2,"key":["k"],
   "fold":"sum","amount":"v","inputs":["sized"]},
  {"name":"last","kind":"opaque","parts":1,"key":["n"],
   "fold":"last","amount":"v","inputs":["sized"]},
  {"name":"most","kind":"transactional","parts":3,"key":["k","n"],
   "fold":"max","amount":"v","inputs":["sized"]}]SCALE}"#,
    r#"["aa",1]
["b",20]
["b",-5]
["aa",7]
["ccc","x"]
"#,
);

// An opaque spout.
const OPAQUE: Example = (
    r#"{"version":1,
 "spout":{"name":"pairs","kind":"opaque","fields":["k","v"],"batch":BATCH},
 "bolts":[{"name":"some","tasks":2,"op":{"do":"filter","field":"v","test":"ne","value":20},
   "inputs":[{"from":"pairs","grouping":"fields","key":["k"]}]}],
 "states":[
  {"name":"counts","kind":"opaque","parts":2,"key":["k"],
   "fold":"count","inputs":["some"]},
  {"name":"most","kind":"opaque","parts":1,"key":["k"],
   "fold":"max","amount":"v","inputs":["some","pairs"]}]SCALE}"#,
    r#"["aa",1]
["b",20]
["b",-5]
["aa",7]
["ccc","x"]
"#,
);

// Several subscriptions of the spout and of one bolt, and bolts that meet again.
const MEETING: Example = (
    r#"{"version":1,
 "spout":{"name":"lines","kind":"transactional","fields":["word","n"],"batch":BATCH},
 "bolts":[
  {"name":"left","tasks":2,"op":{"do":"set","field":"n","value":1},
   "inputs":[{"from":"lines","grouping":"shuffle"}]},
  {"name":"right","tasks":3,"op":{"do":"filter","field":"n","test":"eq","value":5},
   "inputs":[{"from":"lines","grouping":"fields","key":["word"]}]},
  {"name":"joined","tasks":2,"op":{"do":"project","fields":["word","n"]},
   "inputs":[{"from":"left","grouping":"global"},
    {"from":"right","grouping":"all"},
    {"from":"lines","grouping":"none"}]}],
 "states":[
  {"name":"seen","kind":"transactional","parts":2,"key":["word"],
   "fold":"count","inputs":["lines"]},
  {"name":"sums","kind":"transactional","parts":2,"key":["word"],
   "fold":"sum","amount":"n","inputs":["left","right","joined"]}]SCALE}"#,
    r#"["a",5]
["b",6]
["a",-7]
"#,
);

/// An example of which no attempt of ten gets through.
pub const NEVER: Example = (
    r#"{"version":1,
 "spout":{"name":"lines","kind":"transactional","fields":["word"],"batch":BATCH},
 "bolts":[{"name":"unsteady","tasks":1,"op":{"do":"flaky","below":100},
   "inputs":[{"from":"lines","grouping":"shuffle"}]}],
 "states":[{"name":"counts","kind":"transactional","parts":1,"key":["word"],
   "fold":"count","inputs":["unsteady"]}]SCALE}"#,
    r#"["a"]
"#,
);

/// Each grouping.
pub const GROUPINGS: [Example; 7] = [SHUFFLE, NONE, LOCAL_OR_SHUFFLE, FIELDS, ALL, GLOBAL, DIRECT];

/// Each operation.
pub const OPERATIONS: [Example; 9] = [SPLIT, PROJECT, FILTER, SET, LEN, ROUTE, FLAKY, MUTE, CUSTOM];

/// Several bolts, several states of both kinds, and several subscriptions of one source.
pub const SEVERAL: [Example; 6] = [WORD_COUNT, PAIRS, CHAIN, KINDS, OPAQUE, MEETING];

/// Batches of one record, and one batch of all by the most records that a batch may have.
pub const SCALES: [Scale; 12] = [
    ("1", r#","ackers":1,"pending":1"#),
    ("1", r#","ackers":1,"pending":4"#),
    ("1", r#","ackers":1,"pending":64"#),
    ("1", r#","ackers":16,"pending":1"#),
    ("1", r#","ackers":16,"pending":4"#),
    ("1", r#","ackers":16,"pending":64"#),
    ("100000", r#","ackers":1,"pending":1"#),
    ("100000", r#","ackers":1,"pending":4"#),
    ("100000", r#","ackers":1,"pending":64"#),
    ("100000", r#","ackers":16,"pending":1"#),
    ("100000", r#","ackers":16,"pending":4"#),
    ("100000", r#","ackers":16,"pending":64"#),
];

/// Rounds until nothing is left to do, and ticks for mute attempts, of which each batch has one.
pub const LONG_SCHEDULE: &str = "rounds 500
tick
tick
tick
rounds 500
tick
tick
tick
rounds 500
tick
tick
tick
rounds 500
";

/// The topology of an example at a scale.
pub fn scaled(alloc: Global, example: &Example, scale: &Scale) -> Result<String, Mismatch> {
    let (topology, _) = *example;
    let (batch, rest) = *scale;
    let cut = changed(alloc, topology, "BATCH", batch)?;
    changed(alloc, cut.as_str(), "SCALE", rest)
}
