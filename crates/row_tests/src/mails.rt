// Mail by transaction ids.
ghost use Rattle.std.specs.Prelude.{◌≡◌, ◌+◌, IfOk};
ghost use Rattle.box_rows.specs.Mails.{IsTrueMail, last_box};
ghost use Rattle.tree_model.specs.topology_plan.Topology.{tasks_in_all};

use acker_core::Verdict;
use box_rows::Mail;
use std::alloc::Global;
use topology_reader::{TopoFault, read_topology};
use tree_model::storm_values::{Memory, Path, Root};
use tree_model::topology_plan::Plan;
use tree_model::{AckMsg, FailNote, Parcel, Parcels};

// A topology of four tasks and two ackers.
const TOPOLOGY: &str = r#"{"version":1,
 "spout":{"name":"pairs","kind":"transactional","fields":["k","v"],"batch":1},
 "bolts":[],
 "states":[{"name":"last","kind":"transactional","parts":4,"key":["k"],
   "fold":"last","amount":"v","inputs":["pairs"]}],
 "ackers":2}"#;

pub fn plan(alloc: Global) -> Result<Plan, TopoFault> {
    read_topology(alloc, TOPOLOGY.as_bytes())
}

fn root(txid: u64) -> Root {
    Root { txid, attempt: 1 }
}

/// A run of one message for the first acker.
pub fn note(alloc: Global, plan: &Plan, txid: u64) -> Result<Mail, Memory>
    ensures { IfOk result (IsTrueMail plan.now (tasks_in_all plan.now)) }
{
    plan.facts();
    let mut parcels = Parcels::new(alloc);
    let path = Path::new(alloc);
    parcels.push(Parcel::ToAcker(
        0,
        AckMsg::Failed(FailNote {
            root: root(txid),
            path,
        }),
    ))?;
    Ok(Mail::Run(parcels))
}

/// A verdict.
pub fn verdict(alloc: Global, plan: &Plan, txid: u64) -> Mail
    ensures { IsTrueMail plan.now (last_box plan.now) result }
{
    let _ = plan;
    Mail::Verdict(Verdict::Fails {
        root: root(txid),
        path: Path::new(alloc),
    })
}

fn id_of_parcel(parcel: &Parcel) -> u64 {
    match parcel {
        Parcel::ToAcker(_, AckMsg::Failed(note)) => note.root.txid,
        _ => 0,
    }
}

/// The transaction id of a note or a verdict.
pub fn id_of(mail: &Mail) -> u64 {
    match mail {
        Mail::Run(parcels) => match parcels.as_slice().first() {
            Some(parcel) => id_of_parcel(parcel),
            None => 0,
        },
        Mail::Verdict(Verdict::Fails { root, .. }) => root.txid,
        Mail::Verdict(Verdict::Complete { .. }) => 0,
    }
}
