/// How the tracking of a record ended.
#[derive(Clone, Copy, PartialEq, Debug, Drop)]
pub struct RecordEnd {
    /// How often the record was tried.
    pub attempts: u32,
    /// Whether its last try was acked; else it gave up.
    pub acked: bool,
}
