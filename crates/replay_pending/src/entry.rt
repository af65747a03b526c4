use record_spans::Spans;
use storm_values::Root;

/// A pending attempt, with its records, the number of the tick of its begin and, once it is
/// settled, the list that it was settled with. It is timed until then.
#[derive(Drop)]
pub struct Entry<L> {
    pub root: Root,
    pub spans: Spans,
    pub start: u64,
    pub settled: Option<L>,
}
