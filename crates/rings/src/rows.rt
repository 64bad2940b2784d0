// Whether lent rows have a place for each arc or node of a network.
ghost use Rattle.std.specs.Prelude.{◌≡◌, ◌≢◌};
ghost use Rattle.std.specs.Result.{MatchResult};
ghost use Rattle.rings.specs.Improving.{RowsFit, Unfits};
ghost use Rattle.rings.specs.Rows.{network_in};

use crate::network::Network;
use crate::scratch::Scratch;

// Which row is not as long as it has to be, and its length.
#[derive(Clone, Copy, PartialEq, Eq, Debug)]
pub enum Unfit {
    // a place for each arc
    Flow(usize),
    // a place for each node
    Number(usize),
    Last(usize),
    Ring(usize),
}

// Whether a row has just the places that it has to have; if not, its length.
fn each(len: usize, places: usize) -> Result<(), usize>
    ensures { MatchResult result (λ _. len ≡ places) (λ l. (l ≡ len) × (len ≢ places)) }
{
    if len != places {
        return Err(len);
    }
    Ok(())
}

// Whether a flow and scratch rows have their places for a network, or else the first row that doesn't.
pub(crate) fn check(network: Network, flow: &[u64], scratch: &Scratch) -> Result<(), Unfit>
    ensures { MatchResult result (λ _. RowsFit (network_in network.entry) flow.now scratch.now) (λ u. Unfits (network_in network.entry) flow.now scratch.now u) }
{
    let nodes = usize::from(network.nodes);
    each(flow.len(), network.tail.len()).map_err(Unfit::Flow)?;
    each(scratch.number.len(), nodes).map_err(Unfit::Number)?;
    each(scratch.last.len(), nodes).map_err(Unfit::Last)?;
    each(scratch.ring.len(), nodes).map_err(Unfit::Ring)
}
