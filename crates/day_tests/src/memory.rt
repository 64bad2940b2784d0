// Lent memory: one place too few of each kind, more than is needed, and what stands in it after.
use crate::helpers::{AMPLE, Rows, invoice, taken};
use day::{Kind, Refusal, Room};
use std::alloc::Global;
use std::test::Fail;

// A day of three firms and two invoices.
fn small(heap: Global) -> Result<Vec<u8>, Fail> {
    Ok(day::write(heap, 3, &[invoice(0, 1, 500), invoice(2, 0, 70000)])?)
}

// Places in the three rows that are written, in the invoices' other rows, in the firms' rows, and for rings.
#[test]
fn one_too_short(rt: HostRuntime) -> Result<(), Fail> {
    let heap = rt.alloc();
    let cases = [
        (2, 2, 2, 2, 3, 5, taken(3, 2)),
        (1, 2, 2, 2, 3, 5, Err(Refusal::Memory(Kind::Invoices))),
        (2, 1, 2, 2, 3, 5, Err(Refusal::Memory(Kind::Invoices))),
        (2, 2, 1, 2, 3, 5, Err(Refusal::Memory(Kind::Invoices))),
        (2, 2, 2, 1, 3, 5, Err(Refusal::Memory(Kind::Invoices))),
        (2, 2, 2, 2, 2, 5, Err(Refusal::Memory(Kind::Numbers))),
        (2, 2, 2, 2, 3, 4, Err(Refusal::Memory(Kind::Rings))),
        (2, 2, 2, 1, 0, 0, Err(Refusal::Memory(Kind::Invoices))),
        (2, 2, 2, 2, 0, 0, Err(Refusal::Memory(Kind::Numbers))),
    ];
    for (from, to, amount, invoices, numbers, rings, answer) in cases {
        let mut rows = Rows::new(heap, [from, to, amount], [7; 3])?;
        let room = Room {
            invoices,
            numbers,
            rings,
        };
        assert_eq!(rt; rows.read(&small(heap)?, room), answer);
    }
    Ok(())
}

#[test]
fn longer_than_needed(rt: HostRuntime) -> Result<(), Fail> {
    let heap = rt.alloc();
    let mut rows = Rows::new(heap, [4, 3, 5], [7, 8, 9])?;
    assert_eq!(rt; rows.read(&small(heap)?, AMPLE), taken(3, 2));
    assert_eq!(rt; rows.from.as_slice(), [0, 2, 7, 7].as_slice());
    assert_eq!(rt; rows.to.as_slice(), [1, 0, 8].as_slice());
    assert_eq!(rt; rows.amount.as_slice(), [500, 70000, 9, 9, 9].as_slice());
    Ok(())
}

#[test]
fn refused_as_it_was(rt: HostRuntime) -> Result<(), Fail> {
    let heap = rt.alloc();
    let mut rows = Rows::new(heap, [3; 3], [7, 8, 9])?;
    let file = day::write(heap, 3, &[invoice(0, 1, 500), invoice(2, 0, 0)])?;
    assert_eq!(rt; rows.read(&file, AMPLE), Err(Refusal::Amount(1)));
    assert_eq!(rt; rows.from.as_slice(), [7, 7, 7].as_slice());
    assert_eq!(rt; rows.to.as_slice(), [8, 8, 8].as_slice());
    assert_eq!(rt; rows.amount.as_slice(), [9, 9, 9].as_slice());
    Ok(())
}

#[test]
fn no_invoices_need_no_rows(rt: HostRuntime) -> Result<(), Fail> {
    let file = day::write(rt.alloc(), 512, &[])?;
    let room = Room {
        invoices: 0,
        ..AMPLE
    };
    assert_eq!(rt;
        day::read(&file, &mut [], &mut [], &mut [], room),
        taken(512, 0)
    );
    Ok(())
}
