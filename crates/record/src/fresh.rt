// The default instruction of a row (the paper's fresh record).
ghost use Rattle.std.specs.Prelude.{◌≡◌, ◌<◌};
ghost use Rattle.record.specs.Defaults.{fresh};
ghost use Rattle.record.specs.Answers.{making};
ghost use Rattle.record.specs.Lists.{sources_of};
ghost use Rattle.record.specs.Served.Sources.{default_source, default_sources_in};

use crate::answer::Refusal;
use crate::instruction::{Instruction, Sources};
use crate::modifiers::modifiers_in;
use bits::fields::bits_at;
use reasons::Reason;
use rows::table;

// The source byte for constant entry 0.
const ENTRY_0: u64 = 0xC0;

// The default of the source whose byte stands from bit `low` up, by the shape of the row.
fn default_source(shape: u64, low: u64) -> u8
    requires { low < 64 }
    ensures { result ≡ default_source shape low }
{
    (ENTRY_0 * bits_at(shape, low, 1)) as u8
}

// The default sources of a row, by its shape: one by one, since each place has a name of its own.
fn default_sources(shape: u64) -> Sources
    ensures { result ≡ sources_of (default_sources_in shape) }
{
    Sources {
        s0: default_source(shape, 0),
        s1: default_source(shape, 8),
        s2: default_source(shape, 16),
        s3: default_source(shape, 24),
    }
}

impl Instruction {
    // The default instruction of a row; `NoRow` where there is no such row.
    pub fn fresh(row: usize) -> Result<Instruction, Refusal>
        ensures { making result ≡ fresh row }
    {
        if Instruction::ROWS <= row {
            return Err(Refusal {
                number: Reason::NoRow as u8,
                place: 0,
            });
        }
        let v = table::row_at(row);
        let sources = default_sources(v.shape);
        let modifiers = modifiers_in(v.modifiers, v.limits / 4294967296 * 16777216);
        let half_mask = 3 * (1 - bits_at(v.shape, 47, 1));
        Ok(Instruction {
            row: row as u8,
            page: 0,
            flow: 0,
            register: 0,
            half_mask: half_mask as u8,
            sources,
            modifiers,
            offset: 0,
        })
    }
}
