/// A root as a key of a map.
#[derive(Clone, Copy, Debug, PartialEq, Eq, Hash)]
pub struct Key {
    pub txid: u64,
    pub attempt: u32,
}
