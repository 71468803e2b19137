// The chunk list in the areas, as lines of the text form.
ghost use Rattle.std.specs.Prelude.{◌<◌, ◌≤◌};

use index::ModuleIdx;
use textform::out;

// The areas after a call.
#[derive(Clone, Copy)]
pub struct ChunkList<'a> {
    pub chunk_of: &'a [u32; 128],
    pub next_of: &'a [u32; 128],
    pub first_of: &'a [u32; 128],
    pub group_of: &'a [u32; 128],
    pub name_of: &'a [u32; 128],
    pub size_of: &'a [f64; 128],
    pub bits_of: &'a [u64; 512],
    pub mark_of: &'a [u8; 128],
    pub scratch: &'a [u32; 73728],
}

// A word of entry bits.
fn word(n: u64) {
    out::blank();
    io::print_hex(1, n, 1);
}

// A chunk's mark: whether it is above its maximum, and why.
fn mark(held: u8) {
    out::blank();
    out::number(held);
}

// The number of the chunk that a module is in, which is held plus 1.
fn number(held: u32) {
    match held.checked_sub(1) {
        Some(chunk) => out::number(chunk),
        None => out::text(b"?"),
    }
}

impl ChunkList<'_> {
    fn bits(self, r: usize)
        requires { r < 128 }
    {
        let bits_of = self.bits_of;
        for n in &bits_of[4 * r..4 * r + 4] {
            word(*n);
        }
    }

    // A module, and what the area says after it: the next module plus 1, or 0. Past the last module there is no good number.
    fn module_and_next(self, m: ModuleIdx, n: usize) -> u32
        requires { n ≤ 128 }
    {
        out::blank();
        out::number(m.0);
        let next_of = self.next_of;
        next_of[..n].get(m.0 as usize).copied().unwrap_or(u32::MAX)
    }

    // The modules of a chunk. Answers whether the chain ends, and names modules alone.
    fn modules(self, first: u32, n: usize) -> bool
        requires { n ≤ 128 }
    {
        let mut rest = first;
        for _ in 0..n {
            if rest == 0 {
                return true;
            }
            rest = self.module_and_next(ModuleIdx(rest - 1), n);
        }
        rest == 0
    }

    // The number of a chunk, which its first module has. That module is held plus 1.
    fn chunk_number(self, first: u32) {
        let Some(module) = first.checked_sub(1) else {
            return;
        };
        let chunk_of = self.chunk_of;
        if let Some(held) = chunk_of.get(module as usize) {
            number(*held);
        }
    }

    // The line of a chunk. Answers whether its chain is good.
    fn chunk(self, r: usize, n: usize) -> bool
        requires { (r < 128) × (n ≤ 128) }
    {
        let first = self.first_of[r];
        out::text(b"c ");
        self.chunk_number(first);
        out::blank();
        out::number(self.group_of[r]);
        out::blank();
        out::number(self.name_of[r]);
        out::double(self.size_of[r]);
        out::size(self.size_of[r]);
        self.bits(r);
        mark(self.mark_of[r]);
        let good = self.modules(first, n);
        out::line_end();
        good
    }

    // The lines of the new chunks. Answers whether all their chains are good.
    pub fn chunks(self, count: usize, n: usize) -> bool
        requires { (count ≤ 128) × (n ≤ 128) }
    {
        let mut good = true;
        for r in 0..count {
            if !self.chunk(r, n) {
                good = false;
            }
        }
        good
    }

    // The line of the modules: the chunk of each plus 1, or 0.
    pub fn chunk_of_modules(self, n: usize)
        requires { n ≤ 128 }
    {
        out::text(b"m");
        let chunk_of = self.chunk_of;
        for held in &chunk_of[..n] {
            out::blank();
            out::number(*held);
        }
        out::text(b"\nend\n");
    }

    // Whether a module that is in no chunk has a next one all the same, which no line shows.
    pub fn any_loose(self, n: usize) -> bool
        requires { n ≤ 128 }
    {
        let ChunkList {
            chunk_of,
            next_of,
            ..
        } = self;
        let mut modules = chunk_of[..n].iter().zip(&next_of[..n]);
        modules.any(|(held, next)| *held == 0 && *next != 0)
    }
}
