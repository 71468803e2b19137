// The areas after a call over the largest build, and what is printed of its answer: the number of a refusal, or how many chunks there are.
use crate::looks;
use refusal::Refusal;
use textform::out;

#[derive(Clone, Copy)]
pub struct Areas<'a> {
    pub chunk_of: &'a [u32; 4099],
    pub next_of: &'a [u32; 4099],
    pub first_of: &'a [u32; 4099],
    pub group_of: &'a [u32; 4099],
    pub name_of: &'a [u32; 4099],
    pub size_of: &'a [f64; 4099],
    pub bits_of: &'a [u64; 16396],
    pub mark_of: &'a [u8; 4099],
    pub scratch: &'a [u32; 393219],
}

impl Areas<'_> {
    // Nothing is written where the call is refused.
    pub fn show(self, answer: Result<usize, Refusal>) {
        match answer {
            Err(refusal) => {
                out::refused(refusal.number());
                looks::modules(self, 0);
                looks::records(self, 0);
                looks::scratch(self, 0);
            }
            Ok(count) => self.show_made(count),
        }
    }

    fn show_made(self, count: usize) {
        let made = count.min(4096);
        out::blank();
        out::number(count as u64);
        out::text(b" chunks\n");
        self.show_chunks(made);
        looks::modules(self, 4096);
        looks::records(self, made);
        looks::scratch(self, 393216);
    }
}
