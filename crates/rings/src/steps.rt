// The steps of the residual graph: along an arc where something is left of it, and back where something flows.
ghost use Rattle.std.specs.Prelude.{◌≡◌, ◌*◌, ◌<◌, length};
ghost use Rattle.rings.specs.Chains.{tail_of};
ghost use Rattle.rings.specs.Residual.{residual_in};
ghost use Rattle.rings.specs.Rows.{network_in};
ghost use Rattle.rings.specs.Steps.{IsStep};
ghost use Rattle.rings.specs.Ways.{step_in};

use crate::network::Network;
use crate::residual::Residual;
use crate::ways::Way;

// A step from node to node, what a cent gains on it, and for how many cents it has room.
#[derive(Clone, Copy)]
pub(crate) struct Step {
    pub(crate) tail: u16,
    pub(crate) head: u16,
    pub(crate) gain: i32,
    pub(crate) room: u64,
}

impl Network<'_> {
    // The node at which a step begins.
    pub(crate) fn tail_of(self, way: Way) -> u16
        requires { step_in way < 2 * length self.tail.now }
        ensures node { result ≡ tail_of (network_in self.entry) (step_in way) }
        ensures there { result < self.entry.nodes }
    {
        match way {
            Way::Along(e) => self.tail[e],
            Way::Back(e) => self.head[e],
        }
    }
}

impl Residual<'_> {
    // The step that goes this way.
    pub(crate) fn step(self, way: Way) -> Step
        requires { step_in way < 2 * length self.network.tail.now }
        ensures { IsStep (residual_in self.entry) (step_in way) result }
    {
        let network = self.network;
        match way {
            Way::Along(e) => Step {
                tail: network.tail[e],
                head: network.head[e],
                gain: i32::from(e < network.counted),
                room: network.capacity[e].saturating_sub(self.flow[e]),
            },
            Way::Back(e) => Step {
                tail: network.head[e],
                head: network.tail[e],
                gain: -i32::from(e < network.counted),
                room: self.flow[e],
            },
        }
    }
}
