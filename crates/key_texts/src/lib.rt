//! Which bytes are the text of a key, as a report prints it.
#![tactic(auto)]

mod keys;

pub use keys::{is_key_text, key_texts_are_one_line, keys_have_texts_of_their_own};
