// The edges of each rule: which rows are sound, which cents can be struck out, which heights are taken.
use crate::days::pair;
use crate::helpers::{Case, look};
use day::MOST_CENTS;
use setoff::{Misfit, are_sound};
use std::test::Fail;

// The second of two invoices, on a day of so many firms.
#[test]
fn sound_invoices(rt: HostRuntime) {
    let cases = [
        (2, 1, 0, 1, true),
        (512, 511, 0, MOST_CENTS, true),
        (512, 0, 511, MOST_CENTS, true),
        (2, 2, 0, 1, false),
        (2, 1, 2, 1, false),
        (512, 512, 0, 1, false),
        (2, 1, 1, 1, false),
        (2, 1, 0, 0, false),
        (2, 1, 0, MOST_CENTS + 1, false),
        (1, 1, 0, 1, false),
        (513, 1, 0, 1, false),
    ];
    for (firms, from, to, amount, sound) in cases {
        assert_eq!(rt; are_sound(firms, &[0, from], &[1, to], &[3, amount]), sound);
    }
}

#[test]
fn sound_sizes(rt: HostRuntime) -> Result<(), Fail> {
    for (firms, sound) in [(0, false), (1, true), (512, true), (513, false)] {
        assert_eq!(rt; are_sound(firms, &[], &[], &[]), sound);
    }
    assert_eq!(rt; are_sound(2, &[0, 1], &[1], &[3, 3]), false);
    assert_eq!(rt; are_sound(2, &[0, 1], &[1, 0], &[3]), false);
    assert_eq!(rt; are_sound(2, &[0], &[1, 0], &[3, 3]), false);
    let heap = rt.alloc();
    for (invoices, sound) in [(4096, true), (4097, false)] {
        let from = vec![in heap; 0u16; invoices]?;
        let to = vec![in heap; 1u16; invoices]?;
        let amount = vec![in heap; 1u64; invoices]?;
        assert_eq!(rt; are_sound(2, &from, &to, &amount), sound);
    }
    Ok(())
}

#[test]
fn cents_within(rt: HostRuntime) -> Result<(), Fail> {
    let cases: [(&[u64], Result<(), Misfit>); 8] = [
        (&[], Err(Misfit::Length(0))),
        (&[11], Err(Misfit::Length(1))),
        (&[1, 1, 1], Err(Misfit::Length(3))),
        (&[10, 7], Ok(())),
        (&[11, 7], Err(Misfit::Above(0))),
        (&[10, 8], Err(Misfit::Above(1))),
        (&[11, 8], Err(Misfit::Above(0))),
        (&[0, u64::MAX], Err(Misfit::Above(1))),
    ];
    for (cents, answer) in cases {
        assert_eq!(rt; look(pair(cents, &[0, 0]))?.cents, answer);
    }
    Ok(())
}

#[test]
fn heights_low(rt: HostRuntime) -> Result<(), Fail> {
    let cases: [(&[u16], Result<u64, Misfit>); 10] = [
        (&[], Err(Misfit::Length(0))),
        (&[3], Err(Misfit::Length(1))),
        (&[0, 0, 0], Err(Misfit::Length(3))),
        (&[0, 0], Ok(17)),
        (&[0, 1], Ok(14)),
        (&[2, 0], Ok(30)),
        (&[0, 2], Ok(21)),
        (&[3, 0], Err(Misfit::Above(0))),
        (&[0, 3], Err(Misfit::Above(1))),
        (&[u16::MAX, u16::MAX], Err(Misfit::Above(0))),
    ];
    for (heights, answer) in cases {
        assert_eq!(rt; look(pair(&[], heights))?.bound, answer);
    }
    Ok(())
}

// 4,096 invoices of 10^12 cents, each counted 513 times.
#[test]
fn largest_bound(rt: HostRuntime) -> Result<(), Fail> {
    let heap = rt.alloc();
    let from = vec![in heap; 0u16; 4096]?;
    let to = vec![in heap; 1u16; 4096]?;
    let amount = vec![in heap; MOST_CENTS; 4096]?;
    let cents = vec![in heap; MOST_CENTS; 4096]?;
    let mut heights = vec![in heap; 0u16; 512]?;
    heights[0] = 512;
    let looked = look(Case {
        firms: 512,
        from: &from,
        to: &to,
        amount: &amount,
        cents: &cents,
        heights: &heights,
    })?;
    assert_eq!(rt; looked.cents, Ok(()));
    assert_eq!(rt; looked.bound, Ok(2_101_248_000_000_000_000));
    Ok(())
}
