// What a round looks at (01, "A round"): nothing of it changes while the round's move is sought.
use crate::graph::Func;
use sizes::Sizes;

// The function as a graph, its operands, the blocks that are run again, and the sizes of what is lent.
#[derive(Clone, Copy)]
pub struct Body<'a> {
    pub func: Func<'a>,
    pub ops: &'a [u32],
    pub replay: &'a [u32],
    pub sizes: Sizes,
}
