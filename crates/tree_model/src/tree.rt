ghost use Rattle.std.specs.Prelude.{◌≡◌, ◌<◌, List, [], ◌∷◌, All, length, fold, OnOk};
ghost use Rattle.std.specs.List.{flat_map};
ghost use Rattle.bolt_ops.specs.Operations.{out, pieces, text_at};
ghost use Rattle.storm_values.specs.declared.value.Value.{Value};
ghost use Rattle.storm_values.specs.Rows.{IsRow, IsShort};
ghost use Rattle.topology_plan.specs.Topology.{Topology, copies_of};
ghost use Rattle.topology_plan.specs.Wired.{IsWithin, width_of, width_to};
ghost use Rattle.tree_model.specs.Trees.{Node, copies_at, kids, kids_by, kids_of, nodes_from};
ghost use Rattle.tree_model.specs.Trees.{word_rows};

use bolt_ops::{RowOp, output_rows};
use std::alloc::Global;
use storm_values::{Memory, Row, Txt, Value};
use topology_plan::{Body, Function, Grouping, Op, Origin, Plan, Sub};

/// What is done at each node of a tree.
pub(crate) trait Visitor {
    ghost visited: { Topology → Self → Node → Self };

    fn visit(&mut self, alloc: Global, plan: &Plan, component: u32, row: &Row) -> Result<(), Memory>
        requires there { component < length plan.now.components }
        requires row { IsRow (width_to plan.now component) row.now }
        ensures { OnOk result
            (self.new
            ≡ visited plan.now self.old (record { component = component; row = row.now })) };
}

/// The tuple trees of a topology.
#[derive_where(Clone, Copy)]
pub(crate) struct Tree<'a, O> {
    pub(crate) alloc: Global,
    pub(crate) plan: &'a Plan,
    pub(crate) custom: &'a O,
}

impl<O: RowOp> Tree<'_, O> {
    /// Visits the nodes that rows of a source make and what is below them, at most this
    /// many levels, in path order.
    #[cycle(walk)]
    pub(crate) fn visit_rows<V: Visitor>(
        &self,
        visitor: &mut V,
        levels: u32,
        from: Origin,
        rows: &[Row],
    ) -> Result<(), Memory>
        requires { All (IsRow (width_of self.now.plan.now from)) rows.now }
        ensures { OnOk result (visitor.new ≡ fold (V.visited self.now.plan.now) visitor.old
            (flat_map (nodes_from levels self.now.plan.now (O.meaning self.now.custom.now))
            (kids self.now.plan.now from rows.now))) }
    {
        for row in rows {
            self.visit_row(visitor, levels, from, row)?;
        }
        Ok(())
    }

    #[cycle(walk)]
    fn visit_row<V: Visitor>(
        &self,
        visitor: &mut V,
        levels: u32,
        from: Origin,
        row: &Row,
    ) -> Result<(), Memory>
        requires { IsRow (width_of self.now.plan.now from) row.now }
        ensures { OnOk result (visitor.new ≡ fold (V.visited self.now.plan.now) visitor.old
            (flat_map (nodes_from levels self.now.plan.now (O.meaning self.now.custom.now))
            (kids_by self.now.plan.now from row.now))) }
    {
        for sub in self.plan.subs(from) {
            self.visit_copies(visitor, levels, sub, row)?;
        }
        Ok(())
    }

    #[cycle(walk)]
    fn visit_copies<V: Visitor>(
        &self,
        visitor: &mut V,
        levels: u32,
        sub: &Sub,
        row: &Row,
    ) -> Result<(), Memory>
        requires there { sub.now.to < length self.now.plan.now.components }
        requires row { IsRow (width_to self.now.plan.now sub.now.to) row.now }
        ensures { OnOk result (visitor.new ≡ fold (V.visited self.now.plan.now) visitor.old
            (flat_map (nodes_from levels self.now.plan.now (O.meaning self.now.custom.now))
            (copies_at self.now.plan.now row.now sub.now))) }
    {
        for _ in 0..copies(self.plan, sub) {
            self.visit_node(visitor, levels, sub.to, row)?;
        }
        Ok(())
    }

    #[cycle(walk)]
    fn visit_node<V: Visitor>(
        &self,
        visitor: &mut V,
        levels: u32,
        component: u32,
        row: &Row,
    ) -> Result<(), Memory>
        requires there { component < length self.now.plan.now.components }
        requires row { IsRow (width_to self.now.plan.now component) row.now }
        ensures { OnOk result (visitor.new ≡ fold (V.visited self.now.plan.now) visitor.old
            (nodes_from levels self.now.plan.now (O.meaning self.now.custom.now)
            (record { component = component; row = row.now }))) }
    {
        if levels == 0 {
            return Ok(());
        }
        visitor.visit(self.alloc, self.plan, component, row)?;
        self.visit_below(visitor, levels - 1, component, row)
    }

    /// Visits what is below a node. A state makes no row.
    #[cycle(walk)]
    fn visit_below<V: Visitor>(
        &self,
        visitor: &mut V,
        levels: u32,
        component: u32,
        row: &Row,
    ) -> Result<(), Memory>
        requires there { component < length self.now.plan.now.components }
        requires row { IsRow (width_to self.now.plan.now component) row.now }
        ensures { OnOk result (visitor.new ≡ fold (V.visited self.now.plan.now) visitor.old
            (flat_map (nodes_from levels self.now.plan.now (O.meaning self.now.custom.now))
            (kids_of self.now.plan.now (O.meaning self.now.custom.now)
            (record { component = component; row = row.now })))) }
    {
        match &self.plan.component(component).body {
            Body::Bolt(op) => self.visit_made(visitor, levels, component, op, row),
            Body::State(_) => Ok(()),
        }
    }

    /// Visits what is below the rows that an operation makes at a component. Words are visited one
    /// after another, and a row that goes on as it is where it stands: no list is made of them.
    #[cycle(walk)]
    fn visit_made<V: Visitor>(
        &self,
        visitor: &mut V,
        levels: u32,
        component: u32,
        op: &Op,
        row: &Row,
    ) -> Result<(), Memory>
        requires short { All IsShort row.now }
        requires op { IsWithin op.now (length row.now) }
        requires rows { All (IsRow (width_of self.now.plan.now (Origin.Component component)))
            (out (O.meaning self.now.custom.now) op.now row.now) }
        ensures { OnOk result (visitor.new ≡ fold (V.visited self.now.plan.now) visitor.old
            (flat_map (nodes_from levels self.now.plan.now (O.meaning self.now.custom.now))
            (kids self.now.plan.now (Origin.Component component)
            (out (O.meaning self.now.custom.now) op.now row.now)))) }
    {
        let from = Origin::Component(component);
        match op.function {
            Function::Split => {
                self.visit_words(visitor, levels, from, text_of_field(row, op.field()))
            }
            Function::Route | Function::Flaky { .. } | Function::Mute { .. } => {
                self.visit_row(visitor, levels, from, row)
            }
            _ => {
                let made = output_rows(self.alloc, op, row, self.custom)?;
                self.visit_rows(visitor, levels, from, made.as_slice())
            }
        }
    }

    /// Visits what is below the words of a text, each of which is a row.
    #[cycle(walk)]
    fn visit_words<V: Visitor>(
        &self,
        visitor: &mut V,
        levels: u32,
        from: Origin,
        text: &str,
    ) -> Result<(), Memory>
        requires { All (IsRow (width_of self.now.plan.now from)) (word_rows (pieces 32 text.now)) }
        ensures { OnOk result (visitor.new ≡ fold (V.visited self.now.plan.now) visitor.old
            (flat_map (nodes_from levels self.now.plan.now (O.meaning self.now.custom.now))
            (kids self.now.plan.now from (word_rows (pieces 32 text.now))))) }
    {
        for piece in text.split(' ') {
            self.visit_piece(visitor, levels, from, piece)?;
        }
        Ok(())
    }

    /// Visits what is below a piece between two spaces, which is a word if it is not empty.
    #[cycle(walk)]
    fn visit_piece<V: Visitor>(
        &self,
        visitor: &mut V,
        levels: u32,
        from: Origin,
        piece: &str,
    ) -> Result<(), Memory>
        requires { All (IsRow (width_of self.now.plan.now from)) (word_rows (piece.now ∷ [])) }
        ensures { OnOk result (visitor.new ≡ fold (V.visited self.now.plan.now) visitor.old
            (flat_map (nodes_from levels self.now.plan.now (O.meaning self.now.custom.now))
            (kids self.now.plan.now from (word_rows (piece.now ∷ []))))) }
    {
        if piece.is_empty() {
            return Ok(());
        }
        let row = Row::one(self.alloc, Value::Text(Txt::from_str(self.alloc, piece)?));
        self.visit_row(visitor, levels, from, &row)
    }
}

/// The empty text where the field is a number or not there.
fn text_of_field(row: &Row, field: u32) -> &str
    ensures { result.now ≡ text_at row.now field }
{
    match row.as_slice().get(field as usize) {
        Some(Value::Text(text)) => text.as_str(),
        _ => "",
    }
}

/// How many copies of a tuple go to the consumer of a subscription.
fn copies(plan: &Plan, sub: &Sub) -> u32
    requires { sub.now.to < length plan.now.components }
    ensures { result ≡ copies_of plan.now sub.now }
{
    match sub.grouping {
        Grouping::All => plan.component(sub.to).tasks,
        _ => 1,
    }
}
