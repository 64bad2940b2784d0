// A day as a network: its firms are the nodes, and each invoice is an arc that counts, from who owes to who is owed.
ghost use Rattle.rings.specs.Days.{OfDay};

use crate::network::Network;
use setoff::Invoices;

impl<'a> From<Invoices<'a>> for Network<'a> {
    ghost from_gives = { OfDay };

    fn from(invoices: Invoices<'a>) -> Network<'a> {
        Network {
            nodes: invoices.firms,
            tail: invoices.from,
            head: invoices.to,
            capacity: invoices.amount,
            counted: invoices.from.len(),
        }
    }
}
