// The search for a ring that gains, with all nodes as beginnings at once: rounds over the arcs in their order, in which each
// step that leads higher raises a node at once.
ghost use Rattle.rings.specs.Found.{Searches};
ghost use Rattle.rings.specs.Residual.{residual_in};
ghost use Rattle.rings.specs.Scratch.{RowsEach, SameRows};

use crate::residual::Residual;
use crate::scratch::Scratch;

impl Residual<'_> {
    // Looks for a ring whose steps all have room for `least` cents. Writes its steps and returns how many they are; where there
    // is none, the numbers are potentials by which no such step would gain.
    //
    // After each round the last steps are followed back from the node that was raised last, and where they lead into a ring,
    // the search ends with it. A number that reaches the number of nodes has a ring behind it, and ends the search at once.
    //
    // It returns how many steps there are, and not the steps as an `Option<&[u64]>` out of `scratch.ring`: so tried, a caller
    // knew them but not the rows of the scratch after, and a clause on those gets no proof where the body writes first.
    pub(crate) fn search(self, scratch: &mut Scratch) -> Option<usize>
        requires { RowsEach self.network.nodes scratch.old }
        ensures searches { Searches (residual_in self.entry) scratch.new result }
        ensures same { SameRows scratch.old scratch.new }
    {
        let network = self.network;
        scratch.number.fill(0);
        scratch.last.fill(0);
        let mut found = None;
        'rounds: for _ in 0..network.nodes {
            let mut raised = None;
            // an arc is its number here: the arcs are three rows, and both steps are made of the number
            'arcs: for e in 0..network.tail.len() {
                if let Some(v) = self.try_arc(e, scratch) {
                    raised = Some(v);
                    if scratch.number[usize::from(v)] >= i32::from(network.nodes) {
                        found = scratch.follow(network, v);
                        break 'rounds;
                    }
                }
            }
            if let Some(v) = raised {
                // nested: after a chain of `let`s, which was tried, the proof does not know that no ring was found
                if let Some(m) = scratch.follow(network, v) {
                    found = Some(m);
                    break 'rounds;
                }
            }
        }
        found
    }
}
