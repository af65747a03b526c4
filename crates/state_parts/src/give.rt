ghost use Rattle.state_parts.specs.Makers.{AreBack, AreMade};
ghost use Rattle.state_parts.specs.PartPlans.{AreApart, plans_of};

use crate::parts::StatePart;
use storm_stores::{CellStore, StoreMaker};

/// Gives the stores of all these parts back.
pub(crate) fn give_all<C: CellStore, M: StoreMaker<C = C>>(parts: Vec<StatePart<C>>, stores: &mut M)
    requires made { AreMade M.has_made stores.old (plans_of parts.items) }
    requires apart { AreApart (plans_of parts.items) }
    ensures { AreBack C.tells C.fault_count M.holds M.has_made M.fault_count
        stores.old stores.new parts.items }
{
    for entry in parts {
        stores.give(entry.component, entry.part, entry.over.into_store());
    }
}
