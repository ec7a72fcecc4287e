ghost use Rattle.container.specs.Opening.{Words, Annotations};

use crate::format::format_of;
use crate::header::open;
use crate::layout::WORD_LENGTH;

// The words, as the part of the lent bytes where they stand; an empty part where they do not open.
pub fn words(bytes: &[u8]) -> &[u8]
    ensures { Words bytes.entry result }
{
    let Ok(header) = open(bytes) else {
        return &bytes[..0];
    };
    let start = format_of(header.version).header;
    let end = start + WORD_LENGTH * header.count;
    &bytes[start..end]
}

// The annotations (the paper's notes), as the part of the lent bytes where they stand; an empty part where they do not open.
pub fn annotations(bytes: &[u8]) -> &[u8]
    ensures { Annotations bytes.entry result }
{
    let Ok(header) = open(bytes) else {
        return &bytes[..0];
    };
    let n = header.count;
    let f = format_of(header.version);
    let start = f.header + WORD_LENGTH * n;
    let end = start + f.annotation * n;
    &bytes[start..end]
}
