// The kinds of a plan's rows so far. (FORMAT 9)
ghost use Rattle.std.specs.Prelude.{◌≡◌, ◌%◌, ◌^◌, replicate};
ghost use Rattle.plan.specs.Checking.{marked, with_mark};

// Words with a bit for each kind, of which there are 65,536.
const KIND_WORDS: usize = 1024;

// A bit for each kind, so that a kind is looked up at once, also in a plan of more rows than an image can have.
// The sets of std lie on the heap, which no library of this project uses.
#[derive(Clone, Copy)]
pub struct Kinds {
    bits: [u64; KIND_WORDS],
}

impl Kinds {
    pub fn new() -> Kinds
        ensures { result.bits ≡ replicate 1024 0 }
    {
        Kinds {
            bits: [0u64; KIND_WORDS],
        }
    }

    // Whether the kind was seen.
    pub fn contains(&self, kind: u16) -> bool
        ensures { result ≡ marked self.now.bits kind }
    {
        self.bits[(kind / 64) as usize] & bit_of(kind) != 0
    }

    pub fn insert(&mut self, kind: u16)
        ensures { self.new.bits ≡ with_mark self.old.bits kind }
    {
        self.bits[(kind / 64) as usize] |= bit_of(kind);
    }
}

fn bit_of(kind: u16) -> u64
    ensures { result ≡ 2 ^ (kind % 64) }
{
    1u64 << (kind % 64)
}
