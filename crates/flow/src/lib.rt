// Live-in of each block, and what a target leaves needed elsewhere (01, "A round"), in rows of bits.
#![tactic(auto)]

pub mod grid; // grid.rt: where the rows lie
pub mod rows; // rows.rt: of each block, what it reads first and what it writes
pub mod live; // live.rt: live-in, and listed rows put together
pub mod needed; // needed.rt: the registers needed elsewhere than in the target
