// What the tables of the largest build hold.
ghost use Rattle.std.specs.Prelude.{◌<◌};

use crate::tables::Tables;

fn answer(i: usize) -> u32 {
    let group = i / 4096;
    if group < 65 && i % 64 == group {
        return (65536 - group) as u32;
    }
    0
}

impl Tables {
    pub fn fill(&mut self, last_record: usize) {
        self.fill_modules();
        self.fill_records(last_record);
        self.fill_groups();
        for (i, held) in self.answers.iter_mut().enumerate() {
            *held = answer(i);
        }
    }

    // The bits and the last two bytes of the id of a module. What stands before an id is zero, and is of module 0.
    fn fill_module(&mut self, i: usize)
        requires { i < 4097 }
    {
        self.orders[i] = u32::MAX - i as u32;
        self.bits[4 * i + i % 256 / 64] = 1u64 << (i % 64);
        self.ids[2 * i + 1022] = (i / 256) as u8;
        self.ids[2 * i + 1023] = (i % 256) as u8;
        self.offsets[i + 1] = (2 * i + 1024) as u32;
    }

    // Orders fall while module numbers rise.
    fn fill_modules(&mut self) {
        for i in 0..4097 {
            self.fill_module(i);
        }
    }

    // One chain of all records, that of module 0: record r names module r % 4,096.
    fn fill_records(&mut self, last: usize) {
        self.first[0] = 1;
        for r in 0..65537usize {
            self.dependency[r] = (r % 4096) as u32;
            self.next[r] = if r < last { (r + 1) as u32 } else { 0 };
        }
    }

    // Recursion is off (32) but in group 0. A later group has a higher priority.
    fn fill_groups(&mut self) {
        self.given.fill(32);
        self.given[0] = 0;
        for (g, held) in self.priority.iter_mut().enumerate() {
            *held = g as u32;
        }
    }
}
