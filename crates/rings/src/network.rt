// A network in lent rows, sound by its type: nodes, and arcs with a tail, a head and a capacity, of which the first count.
ghost use Rattle.std.specs.Prelude.{◌≡◌, ℕ, ◌^◌, ◌<◌, ◌≤◌, length};
ghost use Rattle.day.specs.Bills.{reads};

// A day is the network in which every arc counts. Other networks may have arcs that count nothing.
#[derive(Clone, Copy)]
pub struct Network<'a> {
    pub nodes: u16,
    pub tail: &'a [u16],
    pub head: &'a [u16],
    pub capacity: &'a [u64],
    // so many arcs, the first ones, count
    pub counted: usize,
    // each row has a place for each arc
    ghost head_each: { length head.now ≡ length tail.now },
    ghost capacity_each: { length capacity.now ≡ length tail.now },
    // there is a node, and the numbers of nodes and of steps stay small
    ghost some_node: { 1 ≤ nodes },
    ghost few_nodes: { nodes ≤ 4096 },
    ghost few_arcs: { length tail.now ≤ 16384 },
    // a capacity has 64 bits
    ghost capacity_fits: { (e : ℕ) → e < length tail.now → reads capacity.now e < 2 ^ 64 },
    // both nodes of each arc are there
    ghost tail_there: { (e : ℕ) → e < length tail.now → reads tail.now e < nodes },
    ghost head_there: { (e : ℕ) → e < length tail.now → reads head.now e < nodes },
}
