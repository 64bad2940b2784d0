// Striking out along a ring, as much as its smallest room allows, and giving back as much on its steps back.
ghost use Rattle.std.specs.Prelude.{◌≡◌, ℕ, ◌*◌, ◌<◌, length};
ghost use Rattle.day.specs.Bills.{reads};
ghost use Rattle.heights.specs.Residual.{pushed_all};
ghost use Rattle.rings.specs.Residual.{residual_in};
ghost use Rattle.rings.specs.Striking.{Smallest, Pushable};

use crate::residual::Residual;
use crate::ways::Way;

impl Residual<'_> {
    // The smallest room of the steps of a ring.
    pub(crate) fn smallest_room(self, ring: &[u64]) -> u64
        requires some { 0 < length ring.now }
        requires there { (j : ℕ) → j < length ring.now → reads ring.now j < 2 * length self.network.tail.now }
        ensures { Smallest (residual_in self.entry).room (reads ring.now) (length ring.now) result }
    {
        // a `for`: with a chain ended by `min`, which was tried, that `min` may be called and what it returns stayed open
        let mut smallest = u64::MAX;
        for step in ring {
            smallest = smallest.min(self.step(Way::from(*step)).room);
        }
        smallest
    }
}

// Pushes cents along the steps of a ring: more on an arc that a step goes along, less on one that it goes back.
pub(crate) fn push(flow: &mut [u64], ring: &[u64], cents: u64)
    requires { Pushable (length flow.old) (reads flow.old) (reads ring.now) (length ring.now) cents }
    ensures { reads flow.new ≡ pushed_all (reads flow.old) (reads ring.now) cents (length ring.now) }
{
    for step in ring {
        match Way::from(*step) {
            Way::Along(e) => flow[e] += cents,
            Way::Back(e) => flow[e] -= cents,
        }
    }
}
