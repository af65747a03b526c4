//! Sources of edge ids and what makes them: scripts for tests and traces, and ChaCha20.
#![tactic(auto)]

mod chacha;
mod ids;
mod script;

pub use chacha::{ChaChaIds, ChaChaMaker};
pub use ids::{IdMaker, Ids, Words};
pub use script::{ScriptIds, ScriptSource};
