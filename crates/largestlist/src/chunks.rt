// A line for each chunk: its number, group, name, size, entry bits, mark, first module, last module and how many modules there are.
ghost use Rattle.std.specs.Prelude.{◌<◌, ◌≤◌};

use crate::areas::Areas;
use crate::looks;
use textform::out;

// How far a chain was followed: what is left of it, the last module, and how many there were.
#[derive(Clone, Copy)]
struct Walk {
    rest: u32,
    last: u32,
    modules: u64,
}

fn column(n: u32) {
    out::blank();
    out::number(n);
}

fn word(n: u64) {
    out::blank();
    io::print_hex(1, n, 1);
}

// A chunk's mark: whether it is above its maximum, and why.
fn mark(held: u8) {
    out::blank();
    out::number(held as u64);
}

impl Areas<'_> {
    // The module after one that is held plus 1, if that is one of this chunk. What is held plus 1 is a chunk and a next module.
    fn next_in(self, rest: u32, held: u32) -> Option<u32> {
        let module = rest.checked_sub(1)? as usize;
        if module < 4096 && self.chunk_of[module] == held {
            return Some(self.next_of[module]);
        }
        None
    }

    // The modules of a chunk. There is nothing left if the chain ends and all its modules are of this chunk.
    fn follow(self, first: u32, held: u32) -> Walk {
        let mut rest = first;
        let mut last = 0;
        for modules in 0..4096 {
            let Some(next) = self.next_in(rest, held) else {
                return Walk {
                    rest,
                    last,
                    modules,
                };
            };
            last = rest.saturating_sub(1);
            rest = next;
        }
        Walk {
            rest,
            last,
            modules: 4096,
        }
    }

    // What is held of a chunk's first module: the chunk's number plus 1.
    fn held_of(self, first: u32) -> u32 {
        if first == 0 {
            return 0;
        }
        let module = (first - 1) as usize;
        if module < 4096 {
            return self.chunk_of[module];
        }
        0
    }

    fn show_chunk(self, r: usize)
        requires { r < 4096 }
    {
        let first = self.first_of[r];
        let held = self.held_of(first);
        out::number(held.saturating_sub(1));
        column(self.group_of[r]);
        column(self.name_of[r]);
        out::size(self.size_of[r]);
        self.show_bits(r);
        mark(self.mark_of[r]);
        let end = self.follow(first, held);
        column(first.saturating_sub(1));
        column(end.last);
        out::blank();
        out::number(end.modules);
        out::line_end();
        if end.rest != 0 {
            looks::warn(b"the chain leaves the chunk");
        }
    }

    fn show_bits(self, r: usize)
        requires { r < 4096 }
    {
        let bits_of = self.bits_of;
        for bits in &bits_of[4 * r..4 * r + 4] {
            word(*bits);
        }
    }

    pub fn show_chunks(self, count: usize)
        requires { count ≤ 4096 }
    {
        for r in 0..count {
            self.show_chunk(r);
        }
    }
}
