ghost use Rattle.std.specs.Prelude.{IfOk};
ghost use Rattle.load_source.specs.File.{load_text};
ghost use Rattle.topology_reader.specs.FirstFault.{IsFilePlan};

use std::alloc::{AllocError, Global};
use storm_values::Memory;
use topology_plan::Plan;
use topology_reader::read_topology;

/// The topology file of `load`: a word count of 100 records a batch.
const LOAD_TOPOLOGY: &str =
    "{\"version\":1,\"spout\":{\"name\":\"lines\",\"kind\":\"transactional\"\
     ,\"fields\":[\"sentence\"],\"batch\":100}\
     ,\"bolts\":[{\"name\":\"split\",\"tasks\":2\
     ,\"op\":{\"do\":\"split\",\"field\":\"sentence\",\"as\":\"word\"}\
     ,\"inputs\":[{\"from\":\"lines\",\"grouping\":\"shuffle\"}]}]\
     ,\"states\":[{\"name\":\"counts\",\"kind\":\"transactional\",\"parts\":2\
     ,\"key\":[\"word\"],\"fold\":\"count\",\"inputs\":[\"split\"]}]\
     ,\"ackers\":2,\"pending\":4,\"buckets\":3,\"attempts\":4}";

/// The plan of the file. It has no fault, so only want of memory keeps the plan back.
pub fn load_plan(alloc: Global) -> Result<Plan, Memory>
    ensures { IfOk result (IsFilePlan load_text) }
{
    match read_topology(alloc, LOAD_TOPOLOGY.as_bytes()) {
        Ok(plan) => Ok(plan),
        Err(_) => Err(AllocError),
    }
}
