ghost use Rattle.std.specs.Prelude.{◌≡◌};
ghost use Rattle.std.specs.Cmp.{IsTotalOrder};
ghost use Rattle.std.specs.declared.cmp.Ordering.TheVariants.{Equal};
ghost use Rattle.tuple_tickets.specs.declared.edge.Edge.{Edge};
ghost use Rattle.tuple_tickets.specs.Edges.{edge_cmp};

use std::cmp::Ordering;
use storm_values::{Duplicate, Memory, Path, Seq};

/// A place in a tuple tree, with the id that was drawn for the tuple there.
#[derive(Debug, Drop)]
pub struct Edge {
    pub path: Path,
    pub id: u64,
}

pub type Edges = Seq<Edge>;

impl Edge {
    /// Which of the two stands first: by their paths, and then by their ids.
    pub fn compare(&self, other: &Edge) -> Ordering
        ensures { result ≡ edge_cmp self.now other.now }
    {
        self.path.compare(&other.path).then(self.id.cmp(&other.id))
    }
}

/// A law: `compare` answers a total order, in which no two edges are equal.
pub fn edge_order_is_total()
    ensures total { IsTotalOrder edge_cmp }
    ensures apart { (a b : Edge) → edge_cmp a b ≡ Equal → a ≡ b }
{}

impl Duplicate for Edge {
    fn copy(&self) -> Result<Edge, Memory> {
        Ok(Edge {
            path: self.path.copy()?,
            id: self.id,
        })
    }
}
