// What the tests share: a case in rows, and all that is found of it.
use heights::{bound, fit};
use setoff::{Invoices, Misfit, Struck, within};
use std::process::Abort;
use std::test::Fail;

// A day, what is struck out of its invoices, and a height for each firm, in rows as the library takes them.
#[derive(Clone, Copy)]
pub(crate) struct Case<'a> {
    pub(crate) firms: u16,
    pub(crate) from: &'a [u16],
    pub(crate) to: &'a [u16],
    pub(crate) amount: &'a [u64],
    pub(crate) cents: &'a [u64],
    pub(crate) heights: &'a [u16],
}

impl<'a> Case<'a> {
    fn invoices(self) -> Result<Invoices<'a>, Fail> {
        Invoices::new(self.firms, self.from, self.to, self.amount).ok_or_else(|| Fail::new(
            "the rows are not a sound day",
        ))
    }
}

#[derive(Clone, Copy, PartialEq, Eq, Debug)]
pub(crate) struct Found {
    pub(crate) uneven: Option<u16>,
    pub(crate) total: u64,
    pub(crate) bound: u64,
    pub(crate) fit: bool,
}

// What the two rows are answered that a caller may get wrong.
#[derive(Clone, Copy, PartialEq, Eq, Debug)]
pub(crate) struct Looked {
    pub(crate) cents: Result<(), Misfit>,
    pub(crate) bound: Result<u64, Misfit>,
}

// A set-off whose total is the bound of heights that fit it.
pub(crate) fn greatest(total: u64) -> Found {
    Found {
        uneven: None,
        total,
        bound: total,
        fit: true,
    }
}

pub(crate) fn find(case: Case) -> Result<Found, Fail> {
    let invoices = case.invoices()?;
    let struck = Struck::new(invoices, case.cents)?;
    Ok(Found {
        uneven: struck.first_uneven(),
        total: struck.total(),
        bound: bound(invoices, case.heights)?,
        fit: fit(struck, case.heights)?,
    })
}

pub(crate) fn expect(rt: &impl Abort, case: Case, found: Found) -> Result<(), Fail> {
    assert_eq!(rt; find(case)?, found);
    Ok(())
}

pub(crate) fn look(case: Case) -> Result<Looked, Fail> {
    let invoices = case.invoices()?;
    Ok(Looked {
        cents: within(invoices, case.cents),
        bound: bound(invoices, case.heights),
    })
}
