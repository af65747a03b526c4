//! Words that threads share: for each of up to 1,024 roots an XOR word, which each `init` and `ack`
//! toggles, and a fail word. Each seat keeps a book of its own calls, and once all seats are joined
//! into one, its book tells all words. No call waits for another thread; only `new` takes memory.
#![tactic(auto)]

mod laws;
mod ledger;
mod marks;
mod rule;
mod seat;

pub use laws::{inits_were_made, whole_books_tell_the_words, words_are_of_all_books};
pub use ledger::{WordState, WordTold};
pub use rule::{Book, Call, CallKind};
pub use seat::{LedgerSeat, SharedLedger};
