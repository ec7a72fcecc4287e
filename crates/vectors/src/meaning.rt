// What source bytes mean, as text.
use sources::{Source, meaning};
use std::fmt;

// A special constant, by its number in the enumeration of its page.
#[derive(Clone, Copy, Debug)]
struct Special {
    page: u8,
    value: u8,
}

impl fmt::Display for Special {
    fn fmt<W: fmt::Write>(&self, f: &mut fmt::Formatter<W>) -> fmt::Result {
        let name = match (self.page, self.value) {
            (0, 2) => "warp_id",
            (0, 4) => "framebuffer_size",
            (0, 5) => "atest_datum",
            (0, 6) => "sample",
            (0, value @ 8..=15) => return write!(f, "blend_descriptor_{}", value - 8),
            (1, 1) => "thread_local_pointer",
            (1, 3) => "workgroup_local_pointer",
            (1, 7) => "resource_table_pointer",
            (3, 1) => "lane_id",
            (3, 3) => "core_id",
            (3, 15) => "program_counter",
            _ => "?",
        };
        f.write_str(name)
    }
}

// What a source byte means on a page.
#[derive(Clone, Copy, Debug)]
pub struct Meaning {
    pub page: u8,
    pub byte: u8,
}

impl fmt::Display for Meaning {
    fn fmt<W: fmt::Write>(&self, f: &mut fmt::Formatter<W>) -> fmt::Result {
        let page = self.page;
        match meaning(page, self.byte) {
            Source::Read(register) => write!(f, "r{register}"),
            Source::Released(register) => write!(f, "r{register} released"),
            Source::Uniform(number) => write!(f, "uniform {number}"),
            Source::Immediate(value) => write!(f, "immediate {value:08x}"),
            Source::SpecialLow(value) => write!(f, "{}, low word", Special { page, value }),
            Source::SpecialHigh(value) => write!(f, "{}, high word", Special { page, value }),
            Source::Refused => f.write_str("no source"),
        }
    }
}
