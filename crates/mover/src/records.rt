// Which records: the numbers that all functions over the block that the members leave take (01, "The move").

// m records from record lo on, of w words each: those of that block, or a segment of them.
#[derive(Clone, Copy, Debug, PartialEq, Eq)]
pub struct Records {
    pub lo: usize,
    pub m: usize,
    pub w: usize,
}
