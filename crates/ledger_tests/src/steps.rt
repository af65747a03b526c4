// Calls of a ledger with the answers that they have to have.
ghost use Rattle.std.specs.Prelude.{◌≡◌};
ghost use Rattle.shared_ledger.specs.Seats.{IsSeatOf, roots_of};

use shared_ledger::{LedgerSeat, SharedLedger, WordState, WordTold};

/// How many roots the ledger of the tables has.
pub const ROOTS: u32 = 1024;

/// A call on a root.
#[derive(Clone, Copy)]
pub enum Step {
    /// Root, word, and the word that it answers.
    Init(u32, u64, u64),
    /// Root, word, and what it tells.
    Ack(u32, u64, WordTold),
    /// Root.
    Fail(u32),
    /// Root, and the state of its two words.
    State(u32, u64, bool),
}

// Whether a call has its answer.
fn is_met(ledger: &SharedLedger, seat: &mut LedgerSeat, step: Step) -> bool
    requires seat { IsSeatOf ledger.now seat.old }
    requires roots { roots_of ledger.now ≡ 1024 }
    ensures { IsSeatOf ledger.now seat.new }
{
    match step {
        Step::Init(root, word, after) => root < ROOTS && ledger.init(seat, root, word) == after,
        Step::Ack(root, word, told) => root < ROOTS && ledger.ack(seat, root, word) == told,
        Step::Fail(root) => {
            if root < ROOTS {
                ledger.fail(seat, root);
            }
            root < ROOTS
        }
        Step::State(root, word, failed) => {
            root < ROOTS && ledger.state(seat, root) == WordState { word, failed }
        }
    }
}

/// Whether each call has its answer.
pub fn are_met(ledger: &SharedLedger, seat: &mut LedgerSeat, steps: &[Step]) -> bool
    requires seat { IsSeatOf ledger.now seat.old }
    requires roots { roots_of ledger.now ≡ 1024 }
    ensures { IsSeatOf ledger.now seat.new }
{
    for step in steps {
        if !is_met(ledger, seat, *step) {
            return false;
        }
    }
    true
}
