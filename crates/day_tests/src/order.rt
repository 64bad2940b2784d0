// A number is looked for in all invoices before the next one, in the order 1, 9, 2, 3, 4, 5.
use crate::helpers::{AMPLE, Rows, expect, expect_day, invoice};
use day::{Kind, Refusal, Room};
use std::test::Fail;

// Eight invoices between four firms, of which the first, the fourth and the last vary.
#[test]
fn rules_for_invoices(rt: HostRuntime) -> Result<(), Fail> {
    let good = invoice(0, 1, 5);
    let missing = invoice(4, 1, 5);
    let own = invoice(1, 1, 5);
    let nothing = invoice(0, 1, 0);
    let all = invoice(4, 4, 0);
    let cases = [
        (nothing, good, missing, Refusal::NoFirm(7)),
        (nothing, own, missing, Refusal::NoFirm(7)),
        (own, missing, missing, Refusal::NoFirm(3)),
        (nothing, good, own, Refusal::ToItself(7)),
        (nothing, own, own, Refusal::ToItself(3)),
        (good, nothing, nothing, Refusal::Amount(3)),
        (good, good, all, Refusal::NoFirm(7)),
    ];
    for (first, fourth, last, refusal) in cases {
        expect_day(
            &rt,
            rt.alloc(),
            4,
            &[first, good, good, fourth, good, good, good, last],
            Err(refusal),
        )?;
    }
    Ok(())
}

#[test]
fn length_before_invoices(rt: HostRuntime) -> Result<(), Fail> {
    let mut file = day::write(rt.alloc(), 4, &[invoice(4, 4, 0)])?;
    file.push(0)?;
    expect(&rt, rt.alloc(), &file, Err(Refusal::Length(15)))
}

#[test]
fn firms_before_memory(rt: HostRuntime) -> Result<(), Fail> {
    let file = day::write(rt.alloc(), 0, &[invoice(0, 1, 5)])?;
    let none = Room {
        invoices: 0,
        numbers: 0,
        rings: 0,
    };
    assert_eq!(rt;
        day::read(&file, &mut [], &mut [], &mut [], none),
        Err(Refusal::Firms)
    );
    Ok(())
}

// For lent memory the whole invoices of the length count, also where the length is wrong.
#[test]
fn memory_before_length(rt: HostRuntime) -> Result<(), Fail> {
    let mut file = day::write(rt.alloc(), 4, &[invoice(4, 4, 0)])?;
    file.push(0)?;
    assert_eq!(rt;
        day::read(&file, &mut [], &mut [], &mut [], AMPLE),
        Err(Refusal::Memory(Kind::Invoices))
    );
    Ok(())
}

// And also where there are too many of them.
#[test]
fn memory_before_too_many(rt: HostRuntime) -> Result<(), Fail> {
    let heap = rt.alloc();
    let many = vec![in heap; invoice(0, 1, 1); 4097]?;
    let file = day::write(heap, 2, &many)?;
    let mut rows = Rows::new(heap, [4096, 4097, 4097], [0; 3])?;
    assert_eq!(rt;
        rows.read(&file, AMPLE),
        Err(Refusal::Memory(Kind::Invoices))
    );
    Ok(())
}
