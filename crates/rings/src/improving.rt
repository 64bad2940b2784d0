// One improvement of a flow: a ring that gains is looked for and struck out.
ghost use Rattle.std.specs.Prelude.{max};
ghost use Rattle.rings.specs.Improving.{Improves};
ghost use Rattle.rings.specs.Rows.{network_in};
ghost use Rattle.rings.specs.Scratch.{SameRows};

use crate::network::Network;
use crate::residual::Residual;
use crate::rows::{Unfit, check};
use crate::scratch::Scratch;
use crate::striking::push;

// Looks for a ring whose steps all have room for `least` cents, one at least, strikes out along it as much as its smallest
// room allows, and returns how much that is. Where there is none, the flow stays as it is and the numbers are potentials by
// which no such step would gain.
// Three parameters: the network is only read, and the flow, which is the answer, is read in the residual graph while the
// scratch is written.
pub fn improve(
    network: Network,
    flow: &mut [u64],
    least: u64,
    scratch: &mut Scratch,
) -> Result<Option<u64>, Unfit>
    ensures improves { Improves (network_in network.entry) (max least 1) flow.old flow.new scratch.old scratch.new result }
    ensures same { SameRows scratch.old scratch.new }
{
    check(network, flow, scratch)?;
    // a literal: `check` has just found the length, and nothing else makes one
    let residual = Residual {
        network,
        flow,
        least: least.max(1),
    };
    let Some(m) = residual.search(scratch) else {
        return Ok(None);
    };
    let steps = &scratch.ring[..m];
    let cents = residual.smallest_room(steps);
    push(flow, steps, cents);
    Ok(Some(cents))
}
