ghost use Rattle.std.specs.Prelude.{◌≡◌, ℕ, List};

use crate::avail::Avail;
use storm_values::Seq;

/// Given answers in turn, and then 0: all partitions are open.
#[derive(Debug, Drop)]
pub struct ScriptAvail {
    answers: Seq<u16>,
    place: usize,
}

impl ScriptAvail {
    /// Partitions by these answers, of which none was given yet. It takes no memory.
    pub fn new(answers: Seq<u16>) -> Self
        ensures { ⟦<ScriptAvail as Avail>⟧.tells result answers }
    {
        ScriptAvail { answers, place: 0 }
    }
}

impl Avail for ScriptAvail {
    ghost use Rattle.std.specs.Prelude.{drop};
    ghost use Rattle.storm_avail.specs.Answers.{AreSame};

    ghost tells = { λ s answers. AreSame answers (drop s.place s.answers) };

    fn shut(&mut self) -> u16 {
        match self.answers.as_slice().get(self.place) {
            Some(answer) => {
                self.place += 1;
                *answer
            }
            None => 0,
        }
    }
}
