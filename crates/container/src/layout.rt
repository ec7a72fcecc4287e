// The lengths of a container's parts in bytes, in any version.
pub const WORD_LENGTH: usize = 8;

// No version has a shorter header, or longer ones than these.
pub const SHORTEST_HEADER: usize = 16;

pub const LONGEST_HEADER: usize = 24;

pub const LONGEST_ANNOTATION: usize = 16;

// Where the entry set begins, in any version.
pub const ENTRY: usize = 8;

// No version has fewer instructions, or more.
pub const FEWEST: usize = 1;

pub const MOST_INSTRUCTIONS: usize = 2048;

pub const LONGEST_CONTAINER: usize = LONGEST_HEADER
    + (WORD_LENGTH + LONGEST_ANNOTATION) * MOST_INSTRUCTIONS;
