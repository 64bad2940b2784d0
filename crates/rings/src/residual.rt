// The residual graph of a flow, as it is searched: a network, a flow in a lent row, and for how many cents a step has to have room.
ghost use Rattle.std.specs.Prelude.{◌≡◌, length};

use crate::network::Network;

#[derive(Clone, Copy)]
pub(crate) struct Residual<'a> {
    pub(crate) network: Network<'a>,
    pub(crate) flow: &'a [u64],
    pub(crate) least: u64,
    // the flow has a place for each arc
    ghost flow_each: { length flow.now ≡ length network.tail.now },
}
