// A line for each chunk: its number, group, name and size, then its modules in execution order.
#![tactic(auto)]

use textform::out;

// The areas that a table of the chunks shows.
#[derive(Clone, Copy)]
pub struct ChunkTable<'a> {
    pub chunk_of: &'a [u32],
    pub next_of: &'a [u32],
    pub first_of: &'a [u32],
    pub group_of: &'a [u32],
    pub name_of: &'a [u32],
    pub size_of: &'a [f64],
}

pub fn refused(condition: u32) {
    out::text(b"refused ");
    out::number(condition as u64);
    out::line_end();
}

fn number(n: u32) {
    out::number(n as u64);
}

fn column(n: u32) {
    out::blank();
    number(n);
}

impl ChunkTable<'_> {
    // The heading, and the chunks that were made.
    pub fn chunks(self, count: usize) {
        out::text(b"chunk group name size modules\n");
        for at in 0..count {
            self.record(at);
        }
    }

    // The record of a chunk.
    fn record(self, at: usize) {
        if let Some(first) = self.first_of.get(at)
            && let Some(group) = self.group_of.get(at)
            && let Some(name) = self.name_of.get(at)
            && let Some(size) = self.size_of.get(at)
        {
            self.chunk(*first, *group, *name, *size);
        }
    }

    fn chunk(self, first: u32, group: u32, name: u32, size: f64) {
        if first == 0 {
            return;
        }
        self.chunk_number(first - 1);
        column(group);
        column(name);
        out::size(size);
        self.modules(first);
        out::line_end();
    }

    // The chunk number of a module, which is held plus 1. A module that is in no chunk has none.
    fn chunk_number(self, module: u32) {
        if let Some(held) = self.chunk_of.get(module as usize) {
            if *held != 0 {
                number(*held - 1);
            }
        }
    }

    // The modules of a chunk: each number is a module's plus 1, and 0 ends the chain.
    fn modules(self, first: u32) {
        let mut rest = first;
        for _ in 0..self.next_of.len() {
            if rest == 0 {
                return;
            }
            column(rest - 1);
            rest = *self.next_of.get((rest - 1) as usize).unwrap_or(&0);
        }
    }
}
