//! Reads a topology file: what is wrong with what it says, and its plan. The form is
//! `topology_form`'s.
#![tactic(auto)]

mod cycles;
mod fields_fault;
mod laws;
mod names;
mod planned;
mod read;
mod wiring;

pub use laws::{cycles_are_paths, first_bytes_decide, plans_of_files_are_valid};
pub use read::read_topology;
pub use topology_form::TopoFault;
pub use topology_plan::{
    Body, Component, Fold, Function, Grouping, Kind, Made, Op, Origin, Plan, StateSpec, Sub, Test,
};
