// A line of the list of differences.
ghost use Rattle.std.specs.Prelude.{◌≡◌, ◌<◌, get_or};
ghost use Rattle.differences.specs.Records.{fields, field_count};
ghost use Rattle.differences.specs.declared.line.What.TheVariants.{Row as row};

// What differs: a field of an instruction (a source by its index, a modifier by its lowest bit), an instruction that only one has, a set of
// the entry sets or of an annotation (the paper's note) by its number, or the versions.
#[derive(Clone, Copy, Debug, PartialEq, Eq)]
pub enum What {
    Row,
    Page,
    Flow,
    Destination,
    Source(u8),
    Modifier(u8),
    Added,
    Removed,
    Entry(u8),
    Annotation(u8),
    Version,
}

// The numbers of the sets: the one set of version 1, that of the low halves, and that of the high halves. They are no enum, since
// `numbers::line_numbers` and `difftext::write_line` take a set with any number.
pub const ONE_SET: u8 = 0;

pub const LOW_SET: u8 = 1;

pub const HIGH_SET: u8 = 2;

// A line: what differs, at which instruction, and what the first and the second container have there.
#[derive(Clone, Copy, Debug, PartialEq, Eq)]
pub struct Line {
    pub what: What,
    pub index: usize,
    pub first: u64,
    pub second: u64,
}

// How many fields an instruction has.
pub const FIELDS: usize = 22;

// The lowest bits of the modifiers.
const LOWS: [u8; 14] = [8, 10, 11, 24, 26, 28, 30, 32, 34, 35, 36, 37, 38, 39];

// Field f, in the order of the list.
pub fn field(f: usize) -> What
    requires { f < field_count }
    ensures { result ≡ get_or fields f row }
{
    match f {
        0 => What::Row,
        1 => What::Page,
        2 => What::Flow,
        3 => What::Destination,
        4..8 => What::Source((f - 4) as u8),
        _ => What::Modifier(LOWS[f - 8]),
    }
}
