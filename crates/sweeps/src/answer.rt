// What the maker answers.
use safety::verdict::Finding;

// The number of sweeps that led to the annotations that are proposed, or why none are.
pub type Inference = Result<usize, Finding>;
