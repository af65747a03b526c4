use thiserror::Error;
use tree_model::topology_plan::Kind;

/// The value of a key in a part of a state, with the transaction that wrote it and its attempt.
#[derive(Clone, Copy, Debug, PartialEq, Eq)]
pub struct Cell {
    pub txid: u64,
    /// Which attempt of the transaction wrote it, from 1; 0 where that is not known.
    pub attempt: u32,
    pub value: Option<i128>,
    /// The value before that transaction, which an opaque cell keeps.
    pub prev: Option<i128>,
    pub kind: Kind,
}

/// Why bytes are no cell. The first that holds is told, in this order.
#[derive(Clone, Copy, Debug, PartialEq, Eq, Error)]
pub enum CellFault {
    /// There are neither 42 nor 46 bytes.
    #[error("neither 42 nor 46 bytes")]
    Length,
    /// The first byte is not 1 where there are 42, or not 2 where there are 46.
    #[error("not the version of so many bytes")]
    Version,
    /// A flag is set that there is none of, a transactional cell has no value or a value before, or
    /// the bytes of a number that is not there are not all 0.
    #[error("flags that no cell has")]
    Flag,
}
