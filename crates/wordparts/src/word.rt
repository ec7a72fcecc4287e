// The word of a record whose numbers have room.
ghost use Rattle.std.specs.Prelude.{◌≡◌, true, ◌+◌, ◌*◌, ◌<◌, ◌^◌, get_or};
ghost use Rattle.bits.specs.Bytes.{little};
ghost use Rattle.bits.specs.Fields.{bits};
ghost use Rattle.rows.specs.Rows.{row_of, row_count};
ghost use Rattle.rows.specs.Layout.{modifier_lows};
ghost use Rattle.rows.specs.Served.Table.{row_words};
ghost use Rattle.record.specs.Lists.{source_list};
ghost use Rattle.record.specs.Instructions.{word_of};
ghost use Rattle.record.specs.Legality.{roomy};
ghost use Rattle.writing.specs.Served.Parts.{modifier_word};

use bits::fields::bits_at;
use record::instruction::{Instruction, MODIFIERS, Sources};
use record::offset::offset_number;
use rows::table;

// The lowest bits of the modifiers.
const LOWS: [u64; MODIFIERS] = [8, 10, 11, 24, 26, 28, 30, 32, 34, 35, 36, 37, 38, 39];

// The modifiers, as they stand in a word.
pub(crate) fn modifiers_word(m: [u8; MODIFIERS]) -> u64
    ensures { (result ≡ modifier_word m) × (result < 2 ^ 51) }
{
    let mut w = 0;
    for j in 0..MODIFIERS {
        w += u64::from(m[j]) << LOWS[j];
    }
    w
}

// The sources, as they stand in a word.
pub(crate) fn sources_word(s: Sources) -> u64
    ensures { (result ≡ little (source_list s)) × (result < 2 ^ 32) }
{
    u64::from(u32::from_le_bytes([s.s0, s.s1, s.s2, s.s3]))
}

// A row's opcodes, as they stand in its words.
fn opcodes(opcode: u64, second: u64, shape: u64) -> u64
    requires { opcode * 2 ^ 48 + second * 2 ^ bits shape 33 6 < 2 ^ 64 }
    ensures { result ≡ opcode * 2 ^ 48 + second * 2 ^ bits shape 33 6 }
{
    (opcode << 48) + (second << bits_at(shape, 33, 6))
}

// The page, the flow and the destination, as they stand in a word.
fn heads_word(i: Instruction) -> u64
    requires { (i.page < 4) × (i.flow < 16) × (i.register < 64) × (i.half_mask < 4) }
    ensures { result ≡ i.register * 2 ^ 40 + i.half_mask * 2 ^ 46 + i.page * 2 ^ 57 + i.flow * 2 ^ 59 }
{
    (u64::from(i.register) << 40)
        + (u64::from(i.half_mask) << 46)
        + (u64::from(i.page) << 57)
        + (u64::from(i.flow) << 59)
}

// The word that a record says. The row is its row.
pub fn word_of(v: table::Row, i: Instruction) -> u64
    requires { (v ≡ row_words (row_of i.row)) × (i.row < row_count) × (roomy (row_of i.row) i ≡ true) }
    ensures { result ≡ word_of i }
{
    let fields = sources_word(i.sources)
        + (offset_number(i.offset) << 8)
        + modifiers_word(i.modifiers.list());
    opcodes(v.opcode, v.second, v.shape) + heads_word(i) + fields
}
