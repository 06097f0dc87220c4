// The graph of the blocks (01, "The walk" and "A round"): successors, and sole predecessors.
#![tactic(auto)]

pub mod graph; // graph.rt: successors
pub mod succs; // succs.rt: the successors of a block, one by one
pub mod preds; // preds.rt: sole predecessors
pub mod body; // body.rt: what a round looks at
