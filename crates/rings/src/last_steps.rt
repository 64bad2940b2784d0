// The last step by which each node was raised, in a lent row: the step's number and 1, or 0 where it has none.
ghost use Rattle.std.specs.Prelude.{◌≡◌, ◌+◌, ◌^◌, ◌<◌, length, slice_set};
ghost use Rattle.day.specs.Bills.{reads};
ghost use Rattle.rings.specs.Scratch.{SameRows};
ghost use Rattle.rings.specs.Ways.{step_in, LastIn};

use crate::scratch::Scratch;
use crate::ways::Way;

impl Scratch<'_> {
    // The last step of a node.
    pub(crate) fn last_step(&self, v: u16) -> Option<Way>
        requires { v < length self.now.last.now }
        ensures { LastIn (reads self.now.last.now v) result }
    {
        let held = u64::from(self.last[usize::from(v)]);
        Some(Way::from(held.checked_sub(1)?))
    }

    // Raises a node to a number by a step, which is then its last.
    pub(crate) fn raise(&mut self, v: u16, number: i32, way: Way)
        requires number_there { v < length self.old.number.now }
        requires last_there { v < length self.old.last.now }
        requires fits { step_in way + 1 < 2 ^ 16 }
        ensures number { self.new.number.now ≡ slice_set self.old.number.now v number }
        ensures last { self.new.last.now ≡ slice_set self.old.last.now v (step_in way + 1) }
        ensures ring { self.new.ring.now ≡ self.old.ring.now }
        ensures same { SameRows self.old self.new }
    {
        let v = usize::from(v);
        self.number[v] = number;
        self.last[v] = (way.number() + 1) as u16;
    }
}
