// Days at random: closed walks are even and stay below every bound, and a cent less makes the first of two firms uneven.
ghost use Rattle.std.specs.Prelude.{◌+◌, ◌<◌};

use crate::helpers::{Case, find};
use std::alloc::{AllocError, Global};
use std::test::Fail;

const DAYS: usize = 300;

// Knuth's MMIX generator, of which the high bits are the good ones.
#[derive(Drop)]
struct Random(u64);

impl Random {
    fn below(&mut self, limit: u16) -> u16
        ensures { result < limit + 1 }
    {
        self.0 = self
            .0
            .wrapping_mul(6364136223846793005)
            .wrapping_add(1442695040888963407);
        ((self.0 >> 33) % u64::from(limit.max(1))) as u16
    }

    // One of so many firms that is not this one.
    fn other(&mut self, firms: u16, firm: u16) -> u16 {
        let next = self.below(firms.saturating_sub(1));
        if next < firm {
            next
        } else {
            next.saturating_add(1)
        }
    }

    // A height for each of so many firms.
    fn heights(&mut self, heap: Global, firms: u16) -> Result<Vec<u16>, AllocError> {
        let mut row = Vec::new(heap);
        for _ in 0..firms {
            row.push(self.below(firms.saturating_add(1)))?;
        }
        Ok(row)
    }
}

// The rows of a day, invoice by invoice, as the library takes them.
#[derive(Drop)]
struct Rows {
    from: Vec<u16>,
    to: Vec<u16>,
    amount: Vec<u64>,
    cents: Vec<u64>,
}

impl Rows {
    fn new(heap: Global) -> Self {
        Rows {
            from: Vec::new(heap),
            to: Vec::new(heap),
            amount: Vec::new(heap),
            cents: Vec::new(heap),
        }
    }

    fn push(&mut self, from: u16, to: u16, cents: u16, left: u16) -> Result<(), AllocError> {
        self.from.push(from)?;
        self.to.push(to)?;
        self.amount.push(u64::from(cents) + u64::from(left))?;
        self.cents.push(u64::from(cents))?;
        Ok(())
    }

    // From a firm by so many steps to others, and back to it, with the same cents struck out of each invoice.
    fn walk(&mut self, random: &mut Random, firms: u16, steps: u16) -> Result<(), AllocError> {
        let start = random.below(firms);
        let cents = 1 + random.below(1000);
        let mut at = start;
        for _ in 0..steps {
            let next = random.other(firms, at);
            self.push(at, next, cents, random.below(3))?;
            at = next;
        }
        if at != start {
            self.push(at, start, cents, random.below(3))?;
        }
        Ok(())
    }

    fn case<'a>(&'a self, firms: u16, heights: &'a [u16]) -> Case<'a> {
        Case {
            firms,
            from: &self.from,
            to: &self.to,
            amount: &self.amount,
            cents: &self.cents,
            heights,
        }
    }
}

#[test]
fn closed_walks(rt: HostRuntime) -> Result<(), Fail> {
    let heap = rt.alloc();
    let mut random = Random(1);
    for _ in 0..DAYS {
        let firms = 2 + random.below(20);
        let mut rows = Rows::new(heap);
        for _ in 0..random.below(12) {
            let steps = 1 + random.below(8);
            rows.walk(&mut random, firms, steps)?;
        }
        let heights = random.heights(heap, firms)?;
        let found = find(rows.case(firms, &heights))?;
        assert_eq!(rt; found.uneven, None);
        assert!(rt; found.total <= found.bound);
        assert_eq!(rt; found.fit, found.total == found.bound);
    }
    Ok(())
}

#[test]
fn one_cent_less(rt: HostRuntime) -> Result<(), Fail> {
    let heap = rt.alloc();
    let mut random = Random(2);
    for _ in 0..DAYS {
        let firms = 2 + random.below(20);
        let mut rows = Rows::new(heap);
        for _ in 0..5 {
            rows.walk(&mut random, firms, 3)?;
        }
        let e = usize::from(random.below(15));
        assert!(rt; e < rows.cents.len() && e < rows.from.len() && e < rows.to.len());
        rows.cents[e] = rows.cents[e].saturating_sub(1);
        let first = rows.from[e].min(rows.to[e]);
        let heights = random.heights(heap, firms)?;
        let found = find(rows.case(firms, &heights))?;
        assert_eq!(rt; found.uneven, Some(first));
    }
    Ok(())
}
