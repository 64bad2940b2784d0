// The benchmark: how long it takes to read a day of 512 firms and 4,096 invoices that are all in memory, and to add it up.
// It prints on standard error, since times differ from run to run, and fails where an answer is wrong or a time is past all bounds.
#![tactic(auto)]

mod clock;
mod sums;

use anyhow::{Context, Result};
use clock::time;
use day::{Invoice, MOST_CENTS, MOST_FIRMS, MOST_INVOICES, Room};
use setoff::Invoices;
use std::alloc::Global;
use sums::time_sums;

// Room for the largest day. A constant calls no function, so its numbers stand here, by casts.
const AMPLE: Room = Room {
    invoices: MOST_INVOICES,
    numbers: MOST_FIRMS as usize,
    rings: MOST_FIRMS as usize + 2,
};

// As many invoices as a day may have, spread over all firms, by the generator of the tests' days: a crate for these few
// lines would be no plainer.
fn largest(heap: Global) -> Result<Vec<Invoice>> {
    let mut invoices = Vec::new(heap);
    let mut seed = 1u64;
    for _ in 0..MOST_INVOICES {
        seed = seed
            .wrapping_mul(6364136223846793005)
            .wrapping_add(1442695040888963407);
        let from = ((seed >> 33) % u64::from(MOST_FIRMS)) as u16;
        let to = (from + 1 + ((seed >> 48) % u64::from(MOST_FIRMS - 1)) as u16) % MOST_FIRMS;
        invoices.push(Invoice {
            from,
            to,
            amount: 1 + (seed >> 8) % MOST_CENTS,
        })?;
    }
    Ok(invoices)
}

fn main(rt: HostRuntime) -> Result<()> {
    let heap = rt.alloc();
    let written = largest(heap)?;
    let file = day::write(heap, MOST_FIRMS, &written)?;
    let mut from = vec![in heap; 0u16; MOST_INVOICES]?;
    let mut to = vec![in heap; 0u16; MOST_INVOICES]?;
    let mut amount = vec![in heap; 0u64; MOST_INVOICES]?;
    time(&rt, "read", || {
        day::read(&file, &mut from, &mut to, &mut amount, AMPLE).context("the day was refused")?;
        Ok(())
    })?;
    let invoices = Invoices::new(MOST_FIRMS, &from, &to, &amount).context(
        "the rows are not sound",
    )?;
    let nothing = vec![in heap; 0u64; MOST_INVOICES]?;
    let heights = vec![in heap; 0u16; usize::from(MOST_FIRMS)]?;
    time_sums(&rt, invoices, &nothing, &heights)
}
