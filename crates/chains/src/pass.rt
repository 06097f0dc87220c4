// The pass with its thresholds (01, "What changes shape").
ghost use Rattle.std.specs.Prelude.{◌≡◌};
ghost use Rattle.model.specs.Move.{minimum};

use model::RECORDS;

// The pass (01: "The thresholds 8, 3, 800 and 8 rounds belong to the pass itself").
#[derive(Clone, Copy)]
pub struct Sink;

impl Sink {
    pub const MIN_SUNK: u32 = 8;

    pub const MIN_REPLAY: u32 = 3;

    pub const MAX_SEQ: u32 = RECORDS as u32;

    pub const ROUNDS: u32 = 8;

    // The fewest members that a move has.
    pub fn minimum(replay: bool) -> u32
        ensures { result ≡ minimum replay }
    {
        if replay {
            return Sink::MIN_REPLAY;
        }
        Sink::MIN_SUNK
    }
}
