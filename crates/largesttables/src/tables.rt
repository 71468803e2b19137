// The tables of the largest build, with room for one module, group and record more.

#[derive(Drop)]
pub struct Tables {
    pub flags: [u8; 4097],
    pub sizes: [u64; 4097],
    pub orders: [u32; 4097],
    pub bits: [u64; 16388],
    pub ids: [u8; 9216],
    pub offsets: [u32; 4098],
    pub first: [u32; 4097],
    pub dependency: [u32; 65537],
    pub next: [u32; 65537],
    pub given: [u8; 65],
    pub priority: [u32; 65],
    pub threshold: [f64; 65],
    pub answers: [u32; 266305],
}
