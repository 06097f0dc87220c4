// What an arm of `analyse` asks of an instruction.
ghost use Rattle.effects.specs.Input.{Small};

use crate::origin::Value;

// Form, length of the list, position; the first three registers read; whether the second of them is a constant above 0; whether its
// own constant is a length. Both flags are facts of their own: neither is the lack of another field.
#[derive(Clone, Copy, PartialEq, Eq, Debug)]
pub struct Input {
    pub form: u32,
    pub list: usize,
    pub p: u32,
    pub reads: [Value; 3],
    pub divisor: bool,
    pub small: bool,
    ghost low: { Small p reads },
}
