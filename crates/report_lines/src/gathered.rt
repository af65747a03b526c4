// What was read of a report so far.
ghost use Rattle.std.specs.Prelude.{◌≡◌, ◌++◌, ◌∷◌, [], IfOk, map, Some, None};
ghost use Rattle.report_lines.specs.Told.{attempt_told, cell_told, line_told, tail_told};
ghost use Rattle.report_grammar.specs.steps.Gathered.{Adds, IsAdded, attempt_added, ended_without, nothing, tail_added};
ghost use Rattle.report_lines.specs.steps.Gathered.{gathered_told};

use crate::report::{AttemptLine, AttemptLines, CellLine, CellLines, Line, Tail};
use std::alloc::Global;
use storm_values::Memory;

#[derive(Drop)]
pub struct Gathered {
    pub attempts: AttemptLines,
    pub cells: CellLines,
    pub tail: Option<Tail>,
}

impl Gathered {
    pub fn new(alloc: Global) -> Self
        ensures { gathered_told result ≡ nothing }
    {
        Gathered {
            attempts: AttemptLines::new(alloc),
            cells: CellLines::new(alloc),
            tail: None,
        }
    }

    /// Adds a line, if it may follow.
    #[tactic(auto, unfolding(report_grammar::specs::steps::Gathered::with_line))]
    pub fn add(&mut self, line: Line) -> Result<bool, Memory>
        ensures { IfOk result (λ added.
            Adds (gathered_told self.old) (line_told line) added (gathered_told self.new)) }
    {
        if self.tail.is_some() {
            return Ok(false);
        }
        match line {
            Line::Attempt(attempt) => self.add_attempt(attempt),
            Line::Cell(cell) => {
                self.cells.push(cell)?;
                Ok(true)
            }
            Line::Tail(tail) => Ok(self.add_tail(tail)),
        }
    }

    fn add_attempt(&mut self, attempt: AttemptLine) -> Result<bool, Memory>
        ensures { IfOk result (λ added. IsAdded added
            (attempt_added (gathered_told self.old) (attempt_told attempt)
            (gathered_told self.old).cells)
            (gathered_told self.new)) }
    {
        if !self.cells.is_empty() {
            return Ok(false);
        }
        self.attempts.push(attempt)?;
        Ok(true)
    }

    fn add_tail(&mut self, tail: Tail) -> bool
        ensures { IsAdded result (tail_added (gathered_told self.old) (tail_told tail))
            (gathered_told self.new) }
    {
        match tail {
            Tail::Ok { .. } => {
                self.tail = Some(tail);
                true
            }
            Tail::Exhausted(_) | Tail::Unfinished(_) => self.end_without_cells(tail),
        }
    }

    fn end_without_cells(&mut self, tail: Tail) -> bool
        ensures { IsAdded result
            (ended_without (gathered_told self.old) (tail_told tail)
            (gathered_told self.old).cells)
            (gathered_told self.new) }
    {
        if !self.cells.is_empty() {
            return false;
        }
        self.tail = Some(tail);
        true
    }
}
