// Work memory for the numbers of a pad.

#[derive(Drop)]
pub struct Work {
    pub numbers: [u64; 128],
}

impl Work {
    pub fn new() -> Self {
        Work {
            numbers: [0u64; 128],
        }
    }
}
