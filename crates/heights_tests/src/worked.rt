// The worked days: what is told of each, and what is found where a cent or a height is another one.
use crate::days::{chain, pair, pair_and_three, pair_or_three, three, two_rings};
use crate::helpers::{Found, expect, greatest};
use std::test::Fail;

#[test]
fn small_days(rt: HostRuntime) -> Result<(), Fail> {
    let cases = [
        (pair(&[7, 7], &[0, 1]), 14),
        (three(&[4, 4, 4], &[1, 2, 0]), 12),
        (chain(&[0, 0], &[0, 1, 2]), 0),
        (two_rings(&[9, 5, 5, 4, 4], &[0, 1, 2, 2]), 27),
        (pair_and_three(&[3, 3, 3, 3, 3], &[0, 0, 0, 0]), 15),
        (pair_or_three(&[4, 4, 4, 0], &[1, 0, 0]), 12),
    ];
    for (case, total) in cases {
        expect(&rt, case, greatest(total))?;
    }
    Ok(())
}

// Set-offs that are no greatest ones, or heights that don't show it; and cents that leave a firm uneven.
#[test]
fn other_cents_and_heights(rt: HostRuntime) -> Result<(), Fail> {
    let cases = [
        (
            chain(&[0, 0], &[0, 0, 0]),
            Found {
                uneven: None,
                total: 0,
                bound: 9,
                fit: false,
            },
        ),
        (
            pair_or_three(&[4, 0, 0, 4], &[1, 0, 0]),
            Found {
                uneven: None,
                total: 8,
                bound: 12,
                fit: false,
            },
        ),
        (
            pair_or_three(&[4, 0, 0, 4], &[0, 0, 0]),
            Found {
                uneven: None,
                total: 8,
                bound: 16,
                fit: false,
            },
        ),
        (
            pair(&[7, 6], &[0, 1]),
            Found {
                uneven: Some(0),
                total: 13,
                bound: 14,
                fit: false,
            },
        ),
        (
            pair_and_three(&[3, 3, 3, 2, 3], &[0, 0, 0, 0]),
            Found {
                uneven: Some(2),
                total: 14,
                bound: 15,
                fit: false,
            },
        ),
        (
            three(&[3, 3, 3], &[1, 2, 0]),
            Found {
                uneven: None,
                total: 9,
                bound: 12,
                fit: false,
            },
        ),
        (
            three(&[4, 4, 4], &[2, 3, 1]),
            Found {
                uneven: None,
                total: 12,
                bound: 12,
                fit: true,
            },
        ),
        (
            three(&[4, 4, 4], &[1, 3, 0]),
            Found {
                uneven: None,
                total: 12,
                bound: 16,
                fit: false,
            },
        ),
    ];
    for (case, found) in cases {
        expect(&rt, case, found)?;
    }
    Ok(())
}
