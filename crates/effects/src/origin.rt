// Origins as numbers (01, "The legal set", rules 5 and 6): 0 Unknown, 1 Ro, 2 Heap, 3 Frame, 4 + 2 k Temp k, 5 + 2 k Img k,
// so that equal origins are equal numbers.
ghost use Rattle.std.specs.Prelude.{◌≡◌, cond, ◌||◌, ◌+◌, ◌*◌, ◌≤◌, ◌<◌, eqb};
ghost use Rattle.model.specs.Analyse.{Unknown, Ro, Frame, same_org, inside, sized};
ghost use Rattle.effects.specs.Origin.{org_at};

// An origin stays a number: it stands in a register's word and in a Fact, whose layout is C's.
pub const UNKNOWN: u32 = 0;

pub const RO: u32 = 1;

pub(crate) const HEAP: u32 = 2;

pub const FRAME: u32 = 3;

// What is known of a register's value: where it points, whether it is a length, and whether it points to a layout. Both flags are
// facts of their own: neither is the lack of another field.
#[derive(Clone, Copy, PartialEq, Eq, Debug)]
pub struct Value {
    pub org: u32,
    pub len: bool,
    pub layout: bool,
}

// Temp p: the block that position p makes.
pub fn temp(p: u32) -> u32
    requires { p < 1000 }
    ensures { result ≡ 4 + 2 * p }
{
    4 + 2 * p
}

// Img p: the text that an image at position p returned.
pub(crate) fn image(p: u32) -> u32
    requires { p < 1000 }
    ensures { result ≡ 5 + 2 * p }
{
    5 + 2 * p
}

// The memory at o, as what is written or read: 0 is none.
pub fn memory(o: u32) -> u32
    requires { o < 2004 }
    ensures { result ≡ o + 1 }
{
    o + 1
}

// Where a word read from o points: into o, if that is an image.
pub fn inside(o: u32) -> u32
    ensures { (org_at result ≡ inside (org_at o)) × (result ≤ o) }
{
    if (4 <= o) & (o % 2 == 1) {
        return o;
    }
    UNKNOWN
}

// Is a word read from o a length: is o a block, and its maker a layout?
pub fn is_sized(o: u32, layout: bool) -> bool
    ensures { result ≡ sized (λ k. layout) (org_at o) }
{
    (4 <= o) & (o % 2 == 0) & layout
}

// The origin that two share, or Unknown.
pub fn agree(a: u32, b: u32) -> u32
    ensures { (org_at result ≡ cond (same_org (org_at a) (org_at b)) (org_at a) Unknown) × (result ≤ a) }
{
    if a == b {
        return a;
    }
    UNKNOWN
}

// Where an address of this form points.
pub fn address(form: u32) -> u32
    ensures { (org_at result ≡ cond (eqb form 2 || eqb form 4) Ro (cond (eqb form 0) Frame Unknown)) × (result < 4) }
{
    if (form == 2) | (form == 4) {
        return RO;
    }
    if form == 0 {
        return FRAME;
    }
    UNKNOWN
}
