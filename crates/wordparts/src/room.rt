// Whether the numbers of a record have room in its row's word.
ghost use Rattle.std.specs.Prelude.{◌≡◌, [], ◌∷◌, ◌<◌, ◌^◌, ltb};
ghost use Rattle.rows.specs.Rows.{row_of, row_count};
ghost use Rattle.rows.specs.Layout.{page_place, flow_place, register_place, mask_place, offset_place};
ghost use Rattle.rows.specs.Served.Table.{row_words, shape};
ghost use Rattle.record.specs.Instructions.{offset_number};
ghost use Rattle.record.specs.Legality.{room, roomy};
ghost use Rattle.writing.specs.Served.Parts.{narrow};

use crate::word::sources_word;
use bits::fields::bits_at;
use record::instruction::{Instruction, MODIFIERS};
use record::offset::offset_number;
use rows::table;

// Does a number have room in so many bits?
fn has_room(n: u64, width: u64) -> bool
    requires { width < 64 }
    ensures { result ≡ ltb n (2 ^ width) }
{
    n < 1 << width
}

// Does each modifier have room? The widths are its row's.
pub(crate) fn modifiers_fit(widths: u64, m: [u8; MODIFIERS]) -> bool
    ensures { result ≡ narrow widths 0 m }
{
    for j in 0..MODIFIERS {
        if !has_room(u64::from(m[j]), bits_at(widths, 4 * j as u64, 3)) {
            return false;
        }
    }
    true
}

// Do the page, the flow, the destination and the offset have room? The shape is the row's.
fn heads_fit(shape_word: u64, i: Instruction) -> bool
    requires { (shape_word ≡ shape (row_of i.row)) × (i.row < row_count) }
    ensures { result ≡ room (row_of i.row) (page_place ∷ flow_place ∷ register_place ∷ mask_place ∷ offset_place ∷ [])
        (i.page ∷ i.flow ∷ i.register ∷ i.half_mask ∷ offset_number i.offset ∷ []) }
{
    let there = 1 - bits_at(shape_word, 47, 1);
    let far = bits_at(shape_word, 32, 1);
    let spilt = (u64::from(i.page) >> 2)
        + (u64::from(i.flow) >> 4)
        + (u64::from(i.register) >> (6 * there))
        + (u64::from(i.half_mask) >> (2 * there));
    spilt + (offset_number(i.offset) >> (27 * far)) == 0
}

// Do all numbers of a record have room? The row is its row.
pub fn numbers_fit(v: table::Row, i: Instruction) -> bool
    requires { (v ≡ row_words (row_of i.row)) × (i.row < row_count) }
    ensures { result ≡ roomy (row_of i.row) i }
{
    if !heads_fit(v.shape, i) {
        return false;
    }
    if v.shape % 4294967296 < sources_word(i.sources) {
        return false;
    }
    modifiers_fit(v.modifiers, i.modifiers.list())
}
