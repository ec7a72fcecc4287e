// The formats of a container, by version: the one description of them.
ghost use Rattle.std.specs.Prelude.{◌≡◌, ◌<◌};
ghost use Rattle.container.specs.Formats.{known, format_of, container_length};

use crate::layout::{
    LONGEST_ANNOTATION, LONGEST_HEADER, MOST_INSTRUCTIONS, SHORTEST_HEADER, WORD_LENGTH,
};

// The lengths of a header and of an annotation in bytes; how far after the set of the low halves that of the high halves stands, in both;
// and the most instructions.
#[derive(Clone, Copy, Debug, PartialEq, Eq)]
pub struct Format {
    pub header: usize,
    pub annotation: usize,
    pub high: usize,
    pub most: usize,
}

// Whether there is such a version.
#[tactic(auto, unfolding(crate::specs::Formats::known))]
pub fn known(version: u64) -> bool
    ensures { result ≡ known version }
{
    version == 1 || version == 2
}

// The format of a version; that of version 1 where there is no such version.
#[tactic(auto, unfolding(crate::specs::Formats::format_of))]
pub fn format_of(version: u64) -> Format
    ensures { result ≡ format_of version }
{
    match version {
        2 => Format {
            header: LONGEST_HEADER,
            annotation: LONGEST_ANNOTATION,
            high: 8,
            most: MOST_INSTRUCTIONS,
        },
        _ => Format {
            header: SHORTEST_HEADER,
            annotation: 8,
            high: 0,
            most: MOST_INSTRUCTIONS,
        },
    }
}

// How long a container of n instructions is.
pub fn container_length(version: u64, n: usize) -> usize
    requires { n < 65536 }
    ensures { result ≡ container_length version n }
{
    let f = format_of(version);
    f.header + (WORD_LENGTH + f.annotation) * n
}
