// The alternatives of the pile as words: their fields read and stored, an alternative laid at the first literal left, and a clause tried for the top one.

pub mod laying;
pub mod records;
pub mod trying;

/// How many alternatives the pile has (`height`), and how many entries the trail (`trail`).
#[derive(Clone, Copy)]
pub struct PileHeight {
    pub height: usize,
    pub trail: usize,
}
