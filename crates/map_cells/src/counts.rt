//! Steps on the count of entries: `counted` loads it, and `count` adds to it.
ghost use Rattle.std.specs.Prelude.{◌≡◌, ◌<◌, length};
ghost use Rattle.map_cells.specs.Seen.{IsOf};
ghost use Rattle.map_cells.specs.Steps.{CountSeen, CountRaised};

use crate::about::Facts;
use crate::cells::Cells;
use crate::pass::Pass;
use crate::plays::{Count, CountLoad};
use map_core::COUNT_WORD;

impl<F: Facts> Cells<F> {
    /// Loads the count of entries.
    pub fn counted(&self, pass: &mut Pass<F>) -> u64
        requires { IsOf self.now pass.old }
        ensures of { IsOf self.now pass.new }
        ensures seen { CountSeen F.fits result pass.old.knows pass.new.knows }
    {
        let found = self
            .table
            .shared
            .load::<CountLoad<F>>(&mut pass.seat, COUNT_WORD);
        pass.count_seen = found;
        found
    }

    /// Counts one entry that the pass has placed, and answers the count after the step.
    pub fn count(&self, pass: &mut Pass<F>) -> u64
        requires of { IsOf self.now pass.old }
        requires uncounted { 0 < length pass.old.knows.uncounted }
        ensures of { IsOf self.now pass.new }
        ensures raised { CountRaised F.fits result pass.old.knows pass.new.knows }
    {
        let found = self
            .table
            .shared
            .fetch_add::<Count<F>>(&mut pass.seat, COUNT_WORD, 1);
        let count = found + 1;
        pass.entries += 1;
        pass.count_seen = count;
        count
    }
}
