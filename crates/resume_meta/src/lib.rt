//! What a run keeps for a later one that goes on where it ended: keepers of bytes, and the kept
//! meta with its text.
#![tactic(auto)]

mod fault;
mod keeper;
mod laws;
mod memory_keeper;
mod meta;
mod parts;
mod system;
mod text;

pub use fault::MetaFault;
pub use keeper::Keeper;
pub use laws::metas_have_texts_of_their_own;
pub use memory_keeper::MemKeeper;
pub use meta::Meta;
pub use system::FileKeeper;
pub use text::{meta_text, read_meta};
