ghost use Rattle.std.specs.Prelude.{◌≡◌, ℕ, List};

use crate::ticks::Ticks;
use storm_values::Indexes;

/// Given answers in turn, and then 0.
#[derive(Debug, Drop)]
pub struct ScriptTicks {
    answers: Indexes,
    place: usize,
    handed_out: u64,
}

impl ScriptTicks {
    /// Ticks by these answers, of which none was handed out yet. It takes no memory.
    pub fn new(answers: Indexes) -> Self
        ensures handed_out { ⟦<ScriptTicks as Ticks>⟧.handed_out result ≡ 0 }
        ensures tells { ⟦<ScriptTicks as Ticks>⟧.tells result answers }
    {
        ScriptTicks {
            answers,
            place: 0,
            handed_out: 0,
        }
    }

    /// How many ticks were handed out. The count ends at 2^64 - 1.
    pub fn handed_out(&self) -> u64
        ensures { ⟦<ScriptTicks as Ticks>⟧.handed_out self.now ≡ result }
    {
        self.handed_out
    }
}

impl Ticks for ScriptTicks {
    ghost use Rattle.std.specs.Prelude.{drop};

    ghost handed_out = { λ s. s.handed_out };

    ghost tells = { λ s answers. answers ≡ drop s.place s.answers };

    fn passed(&mut self) -> u32 {
        let answer = match self.answers.as_slice().get(self.place) {
            Some(answer) => {
                self.place += 1;
                *answer
            }
            None => 0,
        };
        self.handed_out = self.handed_out.saturating_add(u64::from(answer));
        answer
    }
}
