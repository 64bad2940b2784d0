// Trying the steps of an arc: a step that is open and leads higher raises the node that it leads to.
ghost use Rattle.std.specs.Prelude.{◌≡◌, ◌*◌, ◌<◌, length};
ghost use Rattle.rings.specs.Numbers.{Below};
ghost use Rattle.rings.specs.Residual.{residual_in};
ghost use Rattle.rings.specs.Scratch.{SameRows};
ghost use Rattle.rings.specs.Tries.{Tried, ArcTried};
ghost use Rattle.rings.specs.Ways.{step_in};

use crate::residual::Residual;
use crate::scratch::Scratch;
use crate::ways::Way;

impl Residual<'_> {
    // Tries one step. Back on an arc that counts it leads to one less than its tail's number, and that can be below 0.
    fn try_step(self, way: Way, scratch: &mut Scratch) -> Option<u16>
        requires there { step_in way < 2 * length self.network.tail.now }
        requires number { Below self.network.nodes self.network.nodes scratch.old.number.now }
        requires last { length scratch.old.last.now ≡ self.network.nodes }
        ensures tried { Tried (residual_in self.entry) (step_in way) scratch.old scratch.new result }
        ensures ring { scratch.new.ring.now ≡ scratch.old.ring.now }
        ensures same { SameRows scratch.old scratch.new }
    {
        let step = self.step(way);
        let reached = scratch.number[usize::from(step.tail)] + step.gain;
        if step.room < self.least || reached <= scratch.number[usize::from(step.head)] {
            return None;
        }
        scratch.raise(step.head, reached, way);
        Some(step.head)
    }

    // Tries an arc: along it, and back along it where that raises nothing. Returns the node that was raised.
    pub(crate) fn try_arc(self, e: usize, scratch: &mut Scratch) -> Option<u16>
        requires there { e < length self.network.tail.now }
        requires number { Below self.network.nodes self.network.nodes scratch.old.number.now }
        requires last { length scratch.old.last.now ≡ self.network.nodes }
        ensures tried { ArcTried (residual_in self.entry) e scratch.old scratch.new result }
        ensures ring { scratch.new.ring.now ≡ scratch.old.ring.now }
        ensures same { SameRows scratch.old scratch.new }
    {
        if let Some(v) = self.try_step(Way::Along(e), scratch) {
            return Some(v);
        }
        self.try_step(Way::Back(e), scratch)
    }
}
