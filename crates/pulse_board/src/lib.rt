//! A board that threads share. It counts ticks and remembers a halt, and each seat keeps a book of
//! what it saw, drew and did there. No call waits for another thread, and only `new` takes memory.
#![tactic(auto)]

mod board;
mod laws;
mod rule;
mod seat;

pub use laws::{a_halt_was_made, unmarked_books_count_all};
pub use rule::Book;
pub use seat::{Board, BoardSeat};
