//! What commits are made of.
ghost use Rattle.std.specs.Prelude.{◌≡◌, ◌↔◌, IsTrue};

use tree_model::Write;

/// A write of a commit, or the commit's end.
#[derive(Debug, Drop)]
pub enum Change {
    Write(Write),
    End,
}

impl Change {
    /// Whether the two are equal.
    pub fn is_same(&self, other: &Change) -> bool
        ensures { IsTrue result ↔ (self.now ≡ other.now) }
    {
        match (self, other) {
            (Change::Write(one), Change::Write(two)) => is_same_write(one, two),
            (Change::End, Change::End) => true,
            _ => false,
        }
    }
}

fn is_same_write(one: &Write, two: &Write) -> bool
    ensures { IsTrue result ↔ (one.now ≡ two.now) }
{
    one.state == two.state && one.part == two.part && one.amount == two.amount && one.key == two.key
}
