// Why a comparison has no answer.
use safety::verdict::Finding;

// One of the two containers.
#[derive(Clone, Copy, Debug, PartialEq, Eq)]
pub enum Side {
    First,
    Second,
}

// A container that does not open, or of which a word does not read, with a verdict's fields.
#[derive(Clone, Copy, Debug, PartialEq, Eq)]
pub struct Unread {
    pub side: Side,
    pub finding: Finding,
}
