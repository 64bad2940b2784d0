// Each refusal at the edges of its rule.
use crate::helpers::{expect, expect_day, invoice, taken};
use day::{MOST_CENTS, Refusal};
use std::test::Fail;

#[test]
fn lengths(rt: HostRuntime) -> Result<(), Fail> {
    let heap = rt.alloc();
    let cases = [
        (0, Err(Refusal::Firms)),
        (1, Err(Refusal::Firms)),
        (2, taken(2, 0)),
        (3, Err(Refusal::Length(3))),
        (13, Err(Refusal::Length(13))),
        (14, taken(2, 1)),
        (15, Err(Refusal::Length(15))),
        (25, Err(Refusal::Length(25))),
        (26, taken(2, 2)),
    ];
    for (length, answer) in cases {
        let mut file = day::write(heap, 2, &[invoice(0, 1, 5), invoice(1, 0, 4)])?;
        file.truncate(length);
        expect(&rt, heap, &file, answer)?;
    }
    Ok(())
}

#[test]
fn numbers_of_firms(rt: HostRuntime) -> Result<(), Fail> {
    for firms in [0, 513, 65535] {
        expect_day(&rt, rt.alloc(), firms, &[], Err(Refusal::Firms))?;
    }
    for firms in [1, 2, 255, 256, 512] {
        expect_day(&rt, rt.alloc(), firms, &[], taken(firms, 0))?;
    }
    Ok(())
}

#[test]
fn numbers_of_invoices(rt: HostRuntime) -> Result<(), Fail> {
    let heap = rt.alloc();
    let most = vec![in heap; invoice(0, 1, 1); 4096]?;
    expect_day(&rt, heap, 2, &most, taken(2, 4096))?;
    let many = vec![in heap; invoice(0, 1, 1); 4097]?;
    expect_day(&rt, heap, 2, &many, Err(Refusal::Length(2 + 12 * 4097)))
}

#[test]
fn amounts(rt: HostRuntime) -> Result<(), Fail> {
    for amount in [0, MOST_CENTS + 1, u64::MAX] {
        expect_day(
            &rt,
            rt.alloc(),
            2,
            &[invoice(0, 1, 3), invoice(1, 0, amount)],
            Err(Refusal::Amount(1)),
        )?;
    }
    for amount in [1, 255, 256, MOST_CENTS - 1, MOST_CENTS] {
        expect_day(
            &rt,
            rt.alloc(),
            2,
            &[invoice(0, 1, 3), invoice(1, 0, amount)],
            taken(2, 2),
        )?;
    }
    Ok(())
}

// The second of two invoices, on a day of so many firms.
#[test]
fn firms(rt: HostRuntime) -> Result<(), Fail> {
    let cases = [
        (512, 511, 0, taken(512, 2)),
        (512, 256, 511, taken(512, 2)),
        (512, 512, 0, Err(Refusal::NoFirm(1))),
        (512, 0, 512, Err(Refusal::NoFirm(1))),
        (2, 1, 0, taken(2, 2)),
        (2, 2, 0, Err(Refusal::NoFirm(1))),
        (2, 1, 2, Err(Refusal::NoFirm(1))),
        (1, 0, 0, Err(Refusal::NoFirm(0))),
        (3, 65535, 1, Err(Refusal::NoFirm(1))),
        (3, 2, 2, Err(Refusal::ToItself(1))),
    ];
    for (firms, from, to, answer) in cases {
        expect_day(
            &rt,
            rt.alloc(),
            firms,
            &[invoice(0, 1, 1), invoice(from, to, 1)],
            answer,
        )?;
    }
    Ok(())
}
