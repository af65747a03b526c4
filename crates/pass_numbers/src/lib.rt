//! The numbers by which passes to a box and seats at a board are told apart.
#![tactic(auto)]

mod laws;

pub use laws::{
    a_join_loses_none, a_split_gives_one, holders_have_no_order, numbers_stand_once,
    the_first_is_whole, the_last_is_whole, whole_leaves_none,
};
use std::collections::LinkedList;

/// A number and how often it was split. The first pass has the number with no digits, and the k-th
/// split of a number, from 0, gives its digits followed by k. No value of it is made: it stands in
/// what contracts know of a pass.
pub struct Number {
    pub digits: LinkedList<u64>,
    pub splits: u64,
}
