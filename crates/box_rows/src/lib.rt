//! Boxes of mail for tasks, ackers and the coordinator, and rows of passes to all of them, which
//! are split for workers and joined again.
#![tactic(auto)]

mod all_rows;
mod boxes;
mod fit;
mod laws;
mod mail;
mod rows;
mod steps;

pub use all_rows::{join_rows, split_rows};
pub use boxes::{Boxes, Posts, Row};
pub use fit::{look_row, send_fit, take_fit};
pub use laws::{one_row_is_whole, rows_add_up, rows_keep_numbers, steps_keep_numbers};
pub use mail::Mail;
pub use rows::{join_row, split_row};
pub use steps::{send_at, take_at};
