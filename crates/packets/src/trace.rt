// What reading packets gives: writes, and an end.

// One write: a data word, the register it goes to, and its place.
#[derive(Clone, Copy)]
pub struct Write {
    pub register: u32,
    pub word: u32,
    pub place: usize,
}

// How a reading of packets ends.
#[derive(Clone, Copy, PartialEq, Eq)]
pub enum Finish {
    // DESYNC: the place after it, and the number of writes.
    Ended { end: usize, writes: usize },
    // IPROG: its place, and the byte it jumps to.
    Iprog { place: usize, target: usize },
    // A header that is none: its place.
    Fault { place: usize },
    // No whole word is left.
    Short,
}
