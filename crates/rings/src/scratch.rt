// What a search is lent to work in.

// Rows of plain numbers, since lent memory is such, each with a place for each node.
// A function that is lent one promises `SameRows`, or its caller would not know its own rows after. It says before against
// after, which no ghost field can.
// That the lengths fit is tested by `improve` and is no ghost field: that would ask it of every caller, and `improve` could
// not refuse.
#[derive(Drop)]
pub struct Scratch<'a> {
    // the node's number
    pub number: &'a mut [i32],
    // the number of its last step and 1, or 0 where it has none
    pub last: &'a mut [u16],
    // the numbers of a ring's steps
    pub ring: &'a mut [u64],
}
