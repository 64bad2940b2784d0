// What the tests share: rows to lend, memory enough, and an answer that is expected.
use day::{Invoice, Refusal, Room, Size};
use std::alloc::{AllocError, Global};
use std::process::Abort;
use std::test::Fail;

pub(crate) type Answer = Result<Size, Refusal>;

// Ample for every day of the tests. A constant calls no function, so its numbers stand here.
pub(crate) const AMPLE: Room = Room {
    invoices: 10_000,
    numbers: 512,
    rings: 514,
};

// The three rows that the reader writes.
#[derive(Drop)]
pub(crate) struct Rows {
    pub(crate) from: Vec<u16>,
    pub(crate) to: Vec<u16>,
    pub(crate) amount: Vec<u64>,
}

impl Rows {
    // Rows of these lengths, each full of its number.
    pub(crate) fn new(
        heap: Global,
        lengths: [usize; 3],
        full_of: [u16; 3],
    ) -> Result<Rows, AllocError> {
        let [from, to, amount] = lengths;
        let [debtor, creditor, cents] = full_of;
        Ok(Rows {
            from: vec![in heap; debtor; from]?,
            to: vec![in heap; creditor; to]?,
            amount: vec![in heap; u64::from(cents); amount]?,
        })
    }

    // The reader's answer to a file, lent these rows.
    pub(crate) fn read(&mut self, file: &[u8], room: Room) -> Answer {
        day::read(file, &mut self.from, &mut self.to, &mut self.amount, room)
    }
}

pub(crate) fn invoice(from: u16, to: u16, amount: u64) -> Invoice {
    Invoice { from, to, amount }
}

pub(crate) fn taken(firms: u16, invoices: usize) -> Answer {
    Ok(Size { firms, invoices })
}

// The reader's answer to a file, lent a place for each invoice, is the one that is expected.
pub(crate) fn expect(
    rt: &impl Abort,
    heap: Global,
    file: &[u8],
    answer: Answer,
) -> Result<(), Fail> {
    let invoices = day::whole_invoices(file);
    let mut rows = Rows::new(heap, [invoices; 3], [0; 3])?;
    assert_eq!(rt; rows.read(file, AMPLE), answer);
    Ok(())
}

// The same of a day, given by its firms and invoices.
pub(crate) fn expect_day(
    rt: &impl Abort,
    heap: Global,
    firms: u16,
    invoices: &[Invoice],
    answer: Answer,
) -> Result<(), Fail> {
    let file = day::write(heap, firms, invoices)?;
    expect(rt, heap, &file, answer)
}
