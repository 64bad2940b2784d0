// From a set-off in rows that are as long as the day is to a greatest one, with the heights that show it.
ghost use Rattle.std.specs.Prelude.{◌≡◌, ℕ, ◌<◌, ◌≤◌, length};
ghost use Rattle.day.specs.Bills.{reads, SetOff};
ghost use Rattle.rings.specs.Numbers.{levels, Below};
ghost use Rattle.rings.specs.Scratch.{SameRows};
ghost use Rattle.setoff.specs.Rows.{day_in};
ghost use Rattle.greatest.specs.Settling.{Settles, RowsEach, Wiped};

use crate::climbing::climb_in_scales;
use rings::{Network, Scratch};
use setoff::{Invoices, Struck};

// Where no ring is left the numbers of the search, signed until then, are the heights. They are written by index: of
// what goes through `iter_mut`, which was tried, the proof doesn't know what is in the row after.
fn write_heights(number: &[i32], height: &mut [u16])
    requires each { length height.old ≡ length number.now }
    requires low { Below 4096 (length number.now) number.now }
    ensures { reads height.new ≡ levels number.now }
{
    for (v, number) in number.iter().enumerate() {
        height[v] = *number as u16;
    }
}

// Goes on from a set-off to a greatest one, and returns its total. What only served the search is wiped.
pub(crate) fn settle(
    invoices: Invoices,
    struck: &mut [u64],
    height: &mut [u16],
    scratch: &mut Scratch,
) -> u64
    requires rows { RowsEach (day_in invoices) struck.old height.old scratch.old }
    requires set { SetOff (day_in invoices) (reads struck.old) }
    ensures settled { Settles (day_in invoices.entry) struck.old struck.new height.new result }
    ensures wiped { Wiped invoices.entry.firms scratch.new }
    ensures same { SameRows scratch.old scratch.new }
{
    climb_in_scales(Network::from(invoices), struck, scratch);
    write_heights(scratch.number, height);
    scratch.number.fill(0);
    scratch.last.fill(0);
    scratch.ring.fill(0);
    // a literal and no `new`: that the cents fit is proved, and there is no refusal to hand on
    let struck = Struck {
        invoices,
        cents: struck,
    };
    struck.total()
}
