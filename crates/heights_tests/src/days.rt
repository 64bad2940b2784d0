// The six worked days, to be told what is struck out of each invoice and how high each firm is.
use crate::helpers::Case;

pub(crate) fn pair<'a>(cents: &'a [u64], heights: &'a [u16]) -> Case<'a> {
    Case {
        firms: 2,
        from: &[0, 1],
        to: &[1, 0],
        amount: &[10, 7],
        cents,
        heights,
    }
}

pub(crate) fn three<'a>(cents: &'a [u64], heights: &'a [u16]) -> Case<'a> {
    Case {
        firms: 3,
        from: &[0, 1, 2],
        to: &[1, 2, 0],
        amount: &[5, 4, 6],
        cents,
        heights,
    }
}

pub(crate) fn chain<'a>(cents: &'a [u64], heights: &'a [u16]) -> Case<'a> {
    Case {
        firms: 3,
        from: &[0, 1],
        to: &[1, 2],
        amount: &[5, 4],
        cents,
        heights,
    }
}

pub(crate) fn two_rings<'a>(cents: &'a [u64], heights: &'a [u16]) -> Case<'a> {
    Case {
        firms: 4,
        from: &[0, 1, 2, 1, 3],
        to: &[1, 2, 0, 3, 0],
        amount: &[10, 6, 5, 8, 4],
        cents,
        heights,
    }
}

pub(crate) fn pair_and_three<'a>(cents: &'a [u64], heights: &'a [u16]) -> Case<'a> {
    Case {
        firms: 4,
        from: &[0, 1, 1, 2, 3],
        to: &[1, 0, 2, 3, 1],
        amount: &[3, 3, 3, 3, 3],
        cents,
        heights,
    }
}

pub(crate) fn pair_or_three<'a>(cents: &'a [u64], heights: &'a [u16]) -> Case<'a> {
    Case {
        firms: 3,
        from: &[0, 1, 2, 1],
        to: &[1, 2, 0, 0],
        amount: &[4, 4, 4, 4],
        cents,
        heights,
    }
}
