// The checks that calls of a store have in common, by its numbers and by how much a call is handed.
ghost use Rattle.std.specs.Prelude.{◌≡◌, ◌≤◌, IfOk};
ghost use Rattle.cues.specs.Refusals.{store_outcome};
ghost use Rattle.cues.specs.Shapes.{Enough, reach_check, recording_check};
ghost use Rattle.store_theory.specs.Calls.{outcome_of};

use crate::refusals::StoreRefusal;
use crate::shape::Shape;

impl Shape {
    /// Refuses a cue that is not there, and then too few cells or too little working memory.
    pub(crate) fn check_reach(
        &self,
        cue: usize,
        cells: usize,
        memory: usize,
    ) -> Result<(), StoreRefusal>
        ensures outcome { store_outcome result ≡ outcome_of (reach_check self.now cue cells memory) }
        ensures enough { IfOk result (λ _. Enough self.now cue cells memory) }
    {
        if cue >= self.cues {
            return Err(StoreRefusal::NoSuchCue);
        }
        if cells < self.cells || memory < self.numbers.working {
            return Err(StoreRefusal::ShortMemory);
        }
        Ok(())
    }

    /// Refuses the same, and then more levels than a cue has.
    pub(crate) fn check_recording(
        &self,
        cue: usize,
        levels: usize,
        cells: usize,
        memory: usize,
    ) -> Result<(), StoreRefusal>
        ensures outcome { store_outcome result ≡ outcome_of (recording_check self.now cue levels cells memory) }
        ensures enough { IfOk result (λ _. (Enough self.now cue cells memory) × (levels ≤ self.now.levels)) }
    {
        self.check_reach(cue, cells, memory)?;
        if levels > self.levels {
            return Err(StoreRefusal::TooManyLevels);
        }
        Ok(())
    }
}
