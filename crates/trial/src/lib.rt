// 000's `try_block` (01, "A round"): the move from a block along its chain, if there is one. The facts along the chain are found, and
// its targets t and f are tried in that order.
#![tactic(auto)]

pub mod learn; // learn.rt: the facts along the chain
pub mod target; // target.rt: one target tried
pub mod block; // block.rt: the move from a block
