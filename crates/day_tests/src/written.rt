// The bytes of a file, and the lines that are printed.
use crate::helpers::{AMPLE, Rows, invoice, taken};
use day::{Kind, MOST_CENTS, Refusal, Room, Size};
use std::test::Fail;

// The layout, byte by byte: each number with its low byte first.
#[test]
fn bytes(rt: HostRuntime) -> Result<(), Fail> {
    let file = day::write(rt.alloc(), 512, &[invoice(258, 511, MOST_CENTS)])?;
    let bytes: &[u8] = &[0, 2, 2, 1, 255, 1, 0, 16, 165, 212, 232, 0, 0, 0];
    assert_eq!(rt; file.as_slice(), bytes);
    Ok(())
}

#[test]
fn read_back(rt: HostRuntime) -> Result<(), Fail> {
    let file = day::write(
        rt.alloc(),
        512,
        &[
            invoice(258, 511, MOST_CENTS),
            invoice(0, 257, 72_623_859_790),
        ],
    )?;
    let mut rows = Rows::new(rt.alloc(), [2; 3], [0; 3])?;
    let room = Room {
        invoices: 2,
        ..AMPLE
    };
    assert_eq!(rt; rows.read(&file, room), taken(512, 2));
    assert_eq!(rt; rows.from.as_slice(), [258, 0].as_slice());
    assert_eq!(rt; rows.to.as_slice(), [511, 257].as_slice());
    assert_eq!(rt;
        rows.amount.as_slice(),
        [MOST_CENTS, 72_623_859_790].as_slice()
    );
    Ok(())
}

// A file takes as much memory as it has bytes.
#[test]
fn no_more_memory(rt: HostRuntime) -> Result<(), Fail> {
    let heap = rt.alloc();
    for invoices in [0, 1, 5, 341] {
        let many = vec![in heap; invoice(0, 1, 7); invoices]?;
        let file = day::write(heap, 2, &many)?;
        assert_eq!(rt; file.capacity(), file.len());
    }
    Ok(())
}

#[test]
fn lines(rt: HostRuntime) -> Result<(), Fail> {
    let cases = [
        (Refusal::Firms, "refused 1 at 0"),
        (Refusal::Length(49166), "refused 2 at 49166"),
        (Refusal::NoFirm(7), "refused 3 at 7"),
        (Refusal::ToItself(2), "refused 4 at 2"),
        (Refusal::Amount(0), "refused 5 at 0"),
        (Refusal::Memory(Kind::Invoices), "refused 9 at 0"),
        (Refusal::Memory(Kind::Numbers), "refused 9 at 1"),
        (Refusal::Memory(Kind::Rings), "refused 9 at 2"),
    ];
    for (refusal, line) in cases {
        assert_eq!(rt; format!(in rt.alloc(); "{refusal}")?.as_str(), line);
    }
    let size = Size {
        firms: 300,
        invoices: 2000,
    };
    assert_eq!(rt;
        format!(in rt.alloc(); "{size}")?.as_str(),
        "300 firms, 2000 invoices"
    );
    Ok(())
}
