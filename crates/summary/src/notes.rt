// What the kept positions of a set do, noted from behind (01, "The legal set": "kept" is outside the set in the whole chain). Memory goes
// by its number in a Fact: 0 for none, else its origin and 1.
// (A position stays a number here and in what goes by the notes, and `q < 800` is asked beside it: in a type of its own, with the bound
// inside, each loop over positions would have to show the bound again where it makes one, and to take the number out to count with it.)
ghost use Rattle.std.specs.Prelude.{◌≡◌, ◌+◌, ◌*◌, ◌%◌, ◌<◌, ◌≤◌, leb, get_or};
ghost use Rattle.summary.specs.Passes.{later_in, noting, blank, kept_in, forgotten};

use facts::Fact;

// The numbers of memory go up to 2004.
const WRITES: usize = 2006;

// Above a position and 1.
const MEMBER: u16 = 1024;

// The last kept write of each memory, the last kept barrier and the last kept position that may suspend, each and 1, or 0 for none. The
// word of a member's Temp has MEMBER besides. (Words of 16 bits: each turn clears them.)
#[derive(Drop)]
pub struct Lasts {
    pub writes: [u16; WRITES],
    pub barrier: u32,
    pub suspension: u32,
}

// The number of memory of position q's Temp.
fn temp(q: usize) -> usize
    requires { q < 800 }
    ensures { result ≡ 2 * q + 5 }
{
    2 * q + 5
}

impl Lasts {
    // Nothing is noted.
    pub fn none() -> Lasts
        ensures { result ≡ blank }
    {
        Lasts {
            writes: [0; WRITES],
            barrier: 0,
            suspension: 0,
        }
    }

    // The last kept write of memory o, and 1.
    pub fn last_write(&self, o: usize) -> u32
        requires { o < 2006 }
        ensures { result ≡ get_or self.now.writes o 0 % 1024 }
    {
        u32::from(self.writes[o] % MEMBER)
    }

    // Is memory o a member's Temp?
    pub fn is_placed(&self, o: usize) -> bool
        requires { o < 2006 }
        ensures { result ≡ leb 1024 (get_or self.now.writes o 0) }
    {
        MEMBER <= self.writes[o]
    }

    // What position q, of fact f, does is noted, unless a later one does so too.
    fn note_kept(&mut self, f: Fact, q: usize)
        requires { (q < 800) × (f.wrote ≤ 2004) }
        ensures { self.new ≡ kept_in f q self.old }
    {
        let k = f.wrote as usize;
        let w = self.writes[k];
        self.writes[k] = MEMBER * (w / MEMBER) + (w % MEMBER).max(q as u16 + 1);
        let e = q as u32 + 1;
        if f.barrier {
            self.barrier = self.barrier.max(e);
        }
        if f.suspends {
            self.suspension = self.suspension.max(e);
        }
    }

    // Position q, of fact f, is a member, or kept: asked here once for both steps backward.
    pub fn note(&mut self, f: Fact, member: bool, q: usize)
        requires { (q < 800) × (f.wrote ≤ 2004) }
        ensures { self.new ≡ noting f member q self.old }
    {
        if member {
            let k = temp(q);
            self.writes[k] = self.writes[k] % MEMBER + MEMBER;
            return;
        }
        self.note_kept(f, q);
    }

    // Position p is no member any more.
    pub fn forget(&mut self, p: usize)
        requires { p < 800 }
        ensures { self.new ≡ forgotten p self.old }
    {
        self.writes[temp(p)] %= MEMBER;
    }
}
