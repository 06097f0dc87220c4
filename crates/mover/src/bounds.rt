// Block bounds after c instructions went from one block to another (01, "The move"; blocks lie end to end): all words between
// the one's end and the other's start, both included, shift by c, those of empty blocks too.
ghost use Rattle.std.specs.Prelude.{◌≡◌, ℕ, ◌+◌, ◌-◌, ◌*◌, ◌<◌, length, get_or};
ghost use Rattle.std.specs.List.{AllZip};
ghost use Rattle.mover.specs.Spans.{Shifted, ShiftAsk};

use inst::index::BlockId;

// Each word becomes what f makes of it.
fn each<F: Fn(u32) -> u32>(words: &mut [u32], f: F)
    requires { (k : ℕ) → k < length words.old → F.pre f (get_or words.old k 0) }
    ensures { AllZip (F.post f) words.old words.new }
{
    for w in words.iter_mut() {
        *w = f(*w);
    }
}

// The bounds after c instructions went from block x to block t.
pub fn move_bounds(bounds: &mut [u32], x: BlockId, t: BlockId, c: u32)
    requires { ShiftAsk x.0 t.0 c bounds.old }
    ensures { Shifted x.0 t.0 c bounds.old bounds.new }
{
    let a = x.at();
    let b = t.at();
    if a < b {
        each(&mut bounds[2 * a + 1..2 * b + 1], |w| w - c);
    } else {
        each(&mut bounds[2 * b + 1..2 * a + 1], |w| w + c);
    }
}
