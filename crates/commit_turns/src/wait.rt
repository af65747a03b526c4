use record_spans::Spans;
use tuple_account::message_lists::Notes;
use tuple_account::storm_values::Root;

/// A pending attempt, with its records, the number of the tick of its begin and, once it is
/// settled, the list that it was settled with.
#[derive(Debug, Drop)]
pub struct Wait {
    pub root: Root,
    pub spans: Spans,
    pub start: u64,
    pub settled: Option<Notes>,
}
