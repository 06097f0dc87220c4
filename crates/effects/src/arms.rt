// The arms of `analyse` (01, "The legal set"; 000's `analyse`): what an instruction does, from what is known of its first three
// reads.
ghost use Rattle.std.specs.Prelude.{◌≡◌, true, false};
ghost use Rattle.inst.specs.Table.{arm_at, arm};
ghost use Rattle.model.specs.Analyse.{movable};
ghost use Rattle.effects.specs.Origin.{class_of, class_code};
ghost use Rattle.effects.specs.Arms.{effect_of, arm_of, Right, leads};

use crate::input::Input;
use crate::origin::{HEAP, UNKNOWN, Value, address, agree, image, inside, is_sized, memory, temp};
use inst::table::Row;

// What stands for the pieces that a Cat reads, to be looked up again.
pub const PIECES: u32 = 4294967295;

// The arms, in the order of their numbers in the table of kinds.
#[derive(Clone, Copy, PartialEq, Eq, Debug)]
pub enum Arm {
    Const,
    ConstF,
    AddrOf,
    Move,
    Select,
    Truth,
    Bin,
    Index,
    Check,
    DopeLen,
    Load,
    Alloc,
    LayoutOf,
    Signal,
    Fills,
    Store,
    Cat,
    Native,
    Stops,
    Deref,
    Writes,
    Other,
}

// The arms by their numbers: a `match` on the number proves nothing where no number fits, so they are looked up.
static ARMS: [Arm; 22] = [
    Arm::Const,
    Arm::ConstF,
    Arm::AddrOf,
    Arm::Move,
    Arm::Select,
    Arm::Truth,
    Arm::Bin,
    Arm::Index,
    Arm::Check,
    Arm::DopeLen,
    Arm::Load,
    Arm::Alloc,
    Arm::LayoutOf,
    Arm::Signal,
    Arm::Fills,
    Arm::Store,
    Arm::Cat,
    Arm::Native,
    Arm::Stops,
    Arm::Deref,
    Arm::Writes,
    Arm::Other,
];

// Whether an instruction may move: never, if it is in the legal set, or wherever its value is needed.
#[derive(Clone, Copy, PartialEq, Eq, Debug)]
pub enum Class {
    No,
    Movable,
    Free,
}

impl Class {
    // Its number, as a Fact has it.
    #[tactic(auto, using(crate::proofs::Origins::class_tag))]
    pub fn number(self) -> u32
        ensures { result ≡ class_code self }
    {
        self as u32
    }

    // May it be in the legal set?
    pub fn is_movable(self) -> bool
        ensures { result ≡ movable (class_of self) }
    {
        matches!(self, Class::Movable)
    }
}

// What an instruction does. The memory written and the memory read are as a Fact has them, of which this is the most: 0 for none, an
// origin and 1, or PIECES. The flags are as there too: each is a fact of its own, and none is the lack of another field.
#[derive(Clone, Copy, PartialEq, Eq, Debug)]
pub struct Effect {
    pub class: Class,
    pub org: u32,
    pub len: bool,
    pub layout: bool,
    pub creates: bool,
    pub wrote: u32,
    pub barrier: bool,
    pub from: u32,
}

// It cannot move, and does nothing that the legal set looks at.
const PLAIN: Effect = Effect {
    class: Class::No,
    org: UNKNOWN,
    len: false,
    layout: false,
    creates: false,
    wrote: 0,
    barrier: false,
    from: 0,
};

// It leaves a value.
fn value(class: Class, org: u32, len: bool) -> Effect
    ensures { result ≡ effect_of class org len false false 0 false 0 }
{
    Effect {
        class,
        org,
        len,
        ..PLAIN
    }
}

// It can move, and reads memory.
fn reads(from: u32, org: u32, len: bool) -> Effect
    ensures { result ≡ effect_of Class.Movable org len false false 0 false from }
{
    Effect {
        class: Class::Movable,
        org,
        len,
        from,
        ..PLAIN
    }
}

// It can move, and makes a block.
fn makes(org: u32, layout: bool, from: u32) -> Effect
    ensures { result ≡ effect_of Class.Movable org false layout true 0 false from }
{
    Effect {
        class: Class::Movable,
        org,
        layout,
        creates: true,
        from,
        ..PLAIN
    }
}

// It writes memory.
fn writes(class: Class, wrote: u32, from: u32) -> Effect
    ensures { result ≡ effect_of class 0 false false false wrote false from }
{
    Effect {
        class,
        wrote,
        from,
        ..PLAIN
    }
}

// It is a barrier.
fn stops() -> Effect
    ensures { result ≡ effect_of Class.No 0 false false false 0 true 0 }
{
    Effect {
        barrier: true,
        ..PLAIN
    }
}

// A sum, difference or product of lengths, or a length over a constant above 0.
fn bin(x: Input) -> Effect
    ensures { Right result Arm.Bin x }
{
    let [first, second, _] = x.reads;
    let computes = (0 < x.form) & (x.form <= 3) & second.len;
    if first.len & (computes | ((x.form == 4) & x.divisor)) {
        return value(Class::Movable, UNKNOWN, true);
    }
    PLAIN
}

// The check of a length.
fn check(x: Input) -> Effect
    ensures { Right result Arm.Check x }
{
    let [first, _, _] = x.reads;
    if (x.form == 3) & first.len {
        return value(Class::Movable, UNKNOWN, false);
    }
    PLAIN
}

// A word read from memory.
fn load(x: Input) -> Effect
    ensures { Right result Arm.Load x }
{
    let [first, _, _] = x.reads;
    if x.form == 4 {
        return PLAIN;
    }
    reads(
        memory(first.org),
        inside(first.org),
        is_sized(first.org, first.layout),
    )
}

// A block, which can move if its length is one.
fn alloc(x: Input) -> Effect
    ensures { Right result Arm.Alloc x }
{
    let [first, _, _] = x.reads;
    if first.len {
        return makes(temp(x.p), false, 0);
    }
    value(Class::No, temp(x.p), false)
}

// A layout.
fn layout_of(x: Input) -> Effect
    ensures { Right result Arm.LayoutOf x }
{
    let [first, _, _] = x.reads;
    if x.form == 0 {
        return makes(temp(x.p), true, memory(first.org));
    }
    PLAIN
}

// A word written to memory.
fn store(x: Input) -> Effect
    ensures { Right result Arm.Store x }
{
    let [first, _, _] = x.reads;
    if x.form == 4 {
        return PLAIN;
    }
    writes(Class::Movable, memory(first.org), 0)
}

// CallNative: an image, a light call, or a barrier.
fn native(x: Input) -> Effect
    ensures { Right result Arm.Native x }
{
    if (x.form == 1) & (x.list == 1) {
        return makes(image(x.p), false, 0);
    }
    if x.form == 2 {
        return value(Class::No, temp(x.p), false);
    }
    stops()
}

impl Arm {
    // The arm of a kind with this row in the table.
    pub fn of(row: Row) -> Self
        ensures { arm_of result ≡ arm_at (arm row.0) }
    {
        ARMS.get(row.arm() as usize).copied().unwrap_or(Arm::Other)
    }

    // What an instruction of this arm does.
    pub fn effect(self, x: Input) -> Effect
        ensures { Right result self x }
    {
        let [first, second, third] = x.reads;
        match self {
            Arm::Const => value(Class::Free, UNKNOWN, x.small),
            Arm::ConstF => value(Class::Free, UNKNOWN, false),
            Arm::AddrOf => value(Class::Free, address(x.form), false),
            Arm::Move => value(Class::Movable, first.org, first.len),
            Arm::Select => value(
                Class::Movable,
                agree(second.org, third.org),
                second.len & third.len,
            ),
            Arm::Truth => value(Class::Movable, UNKNOWN, true),
            Arm::Bin => bin(x),
            Arm::Index => value(Class::Movable, first.org, false),
            Arm::Check => check(x),
            Arm::DopeLen => reads(memory(first.org), UNKNOWN, true),
            Arm::Load => load(x),
            Arm::Alloc => alloc(x),
            Arm::LayoutOf => layout_of(x),
            Arm::Signal => value(Class::Movable, UNKNOWN, false),
            Arm::Fills => writes(Class::Movable, memory(first.org), 0),
            Arm::Store => store(x),
            Arm::Cat => writes(Class::Movable, memory(first.org), PIECES),
            Arm::Native => native(x),
            Arm::Stops => stops(),
            Arm::Deref => value(Class::No, HEAP, false),
            Arm::Writes => writes(Class::No, memory(first.org), 0),
            Arm::Other => PLAIN,
        }
    }

    // Does the value of an instruction of this arm, with this effect, point to a layout? It points where the first or the second
    // register read does, or to a block of its own, or to none.
    #[tactic(auto, unfolding(crate::specs::Arms::leads))]
    pub fn leads(self, reads: [Value; 3], e: Effect) -> bool
        ensures { result ≡ leads self reads e }
    {
        match self {
            Arm::Move | Arm::Index => reads[0].layout,
            Arm::Select => reads[1].layout,
            _ => e.layout,
        }
    }
}
