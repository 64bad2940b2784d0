// Rings struck out until none is left: first such as have room for many cents, then for half as many, down to one. Taken as
// they come, rings can strike out and give back a cent at a time; in scales each strikes out at least its scale's cents.
ghost use Rattle.std.specs.Prelude.{◌≤◌};
ghost use Rattle.day.specs.Bills.{reads};
ghost use Rattle.heights.specs.Network.{Circulation};
ghost use Rattle.rings.specs.Improving.{RowsFit};
ghost use Rattle.rings.specs.Rows.{network_in};
ghost use Rattle.rings.specs.Scratch.{SameRows};
ghost use Rattle.greatest.specs.Climbing.{Climbed, Largest};

use rings::{Network, Scratch, improve};

// Strikes out rings whose steps all have room for `least` cents, until there is none. Each leaves fewer cents that can still
// be struck out. Network, flow and scratch are three parameters as they are for `improve`.
fn climb(network: Network, flow: &mut [u64], least: u64, scratch: &mut Scratch)
    requires some { 1 ≤ least }
    requires rows { RowsFit (network_in network) flow.old scratch.old }
    requires even { Circulation (network_in network) (reads flow.old) }
    ensures climbed { Climbed (network_in network.entry) least flow.old flow.new scratch.new }
    ensures same { SameRows scratch.old scratch.new }
{
    // how many cents a ring took is of no use here, and rows that fit are never refused; a call without the test would need a
    // `requires`, which no public call has
    'rings: while let Ok(Some(_)) = improve(network, flow, least, scratch) {}
}

// The largest number of a row, or 0 where there is none.
fn largest(row: &[u64]) -> u64
    ensures { Largest row.now result }
{
    row.iter().copied().max().unwrap_or(0)
}

// Strikes out rings until none is left that gains. Scales begin where one arc at least has room, and halve.
pub(crate) fn climb_in_scales(network: Network, flow: &mut [u64], scratch: &mut Scratch)
    requires rows { RowsFit (network_in network) flow.old scratch.old }
    requires even { Circulation (network_in network) (reads flow.old) }
    ensures climbed { Climbed (network_in network.entry) 1 flow.old flow.new scratch.new }
    ensures same { SameRows scratch.old scratch.new }
{
    let mut least = largest(network.capacity);
    'scales: while least > 1 {
        climb(network, flow, least, scratch);
        least /= 2;
    }
    climb(network, flow, 1, scratch);
}
