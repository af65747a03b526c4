//! The folds of a topology's states.
ghost use Rattle.std.specs.Prelude.{◌≡◌, IfOk};
ghost use Rattle.state_reader.specs.Folds.{fold_at, fold_by, folds_in};

use std::alloc::Global;
use std::marker::Model;
use tree_model::storm_values::Memory;
use tree_model::topology_plan::{Body, Component, Fold, Plan};

/// The folds of the states, by component number. A bolt has none.
#[derive(Debug, Drop)]
pub struct Folds {
    by_component: Vec<Option<Fold>>,
}

impl Model for Folds {
    ghost use Rattle.std.specs.Prelude.{List, Option};
    ghost use Rattle.tree_model.specs.topology_plan.declared.parts.Fold.{Fold};

    ghost Value = { List (Option Fold) };

    ghost view = { λ folds. folds.by_component.items };
}

impl Folds {
    /// The folds of a plan's states.
    pub fn of_plan(alloc: Global, plan: &Plan) -> Result<Self, Memory>
        ensures { IfOk result (λ folds. folds ≡ folds_in plan.now) }
    {
        let mut by_component = Vec::new(alloc);
        for number in 0..plan.components() {
            by_component.push(fold_of(plan.component(number)))?;
        }
        Ok(Folds { by_component })
    }

    /// The fold of a component number, if it is a state's.
    pub fn of_state(&self, number: u32) -> Option<Fold>
        ensures { result ≡ fold_at self.now number }
    {
        *self.by_component.get(number as usize)?
    }
}

fn fold_of(component: &Component) -> Option<Fold>
    ensures { result ≡ fold_by component.now.body }
{
    match &component.body {
        Body::State(spec) => Some(spec.fold),
        Body::Bolt(_) => None,
    }
}
