// The operands of an instruction: the destination, the sources, the branch offset.
ghost use Rattle.std.specs.Prelude.{◌≡◌, ◌+◌, ◌*◌, ◌≤◌, length};
ghost use Rattle.rows.specs.Rows.{row_of};
ghost use Rattle.record.specs.Lists.{modifier_list};
ghost use Rattle.text.specs.Text.{Put};
ghost use Rattle.fieldtext.specs.Enumerations.{value_width};
ghost use Rattle.fieldtext.specs.Served.Coded.{value_list, row_kinds};
ghost use Rattle.sourcetext.specs.SourceText.{longest_source};
ghost use Rattle.disasm.specs.Assembly.{separator, signed_text, first_operand, last_operand, operands_text, before_sources, longest_operands};
ghost use Rattle.disasm.specs.Served.Places.{coded_sources};

use fieldtext::values::{Kind, Names, put_value};
use record::instruction::Instruction;
use record::registers::{has_destination, source_count};
use sourcetext::put_source;
use text::put::{put_labelled, put_number, put_text};

// What stands before operand j.
fn put_separator(j: usize, out: &mut [u8]) -> usize
    requires { 2 ≤ length out.old }
    ensures { Put (separator j) out.old out.new result × (result ≤ 2) }
{
    if j == 0 {
        return put_text(b" ", out);
    }
    put_text(b", ", out)
}

// The destination, if the row has one.
fn put_destination(names: &Names, x: Instruction, out: &mut [u8]) -> usize
    requires { (names.now ≡ value_list) × (5 + value_width ≤ length out.old) }
    ensures { Put (first_operand x) out.old out.new result × (result ≤ 5 + value_width) }
{
    if !has_destination(x.row) {
        return 0;
    }
    let at = put_labelled(b" r", x.register as u64, 10, 3, out);
    at + put_value(names, Kind::HalfMask as u8, x.half_mask, &mut out[at..])
}

// The first n sources, of modifiers of these kinds and values, with their bytes on a page, after so many operands.
fn put_sources(
    names: &Names,
    kinds: &[u8],
    values: &[u8],
    page: u8,
    bytes: &[u8],
    first: usize,
    n: usize,
    out: &mut [u8],
) -> usize
    requires { (names.now ≡ value_list) × (length kinds.now ≡ 14) × (length values.now ≡ 14) × (length bytes.now ≡ 4) × (first ≤ 1) × (n ≤ 4) × ((2 + longest_source) * n ≤ length out.old) }
    ensures { Put (coded_sources kinds.now values.now page bytes.now first n) out.old out.new result × (result ≤ (2 + longest_source) * n) }
{
    let mut at = 0;
    for k in 0..n {
        at += put_separator(first + k, &mut out[at..]);
        at += put_source(names, kinds, values, page, bytes[k], k, &mut out[at..]);
    }
    at
}

// A number with its sign.
fn put_signed(z: i32, out: &mut [u8]) -> usize
    requires { 11 ≤ length out.old }
    ensures { Put (signed_text z) out.old out.new result × (result ≤ 11) }
{
    let size = u64::from(z.unsigned_abs());
    if 0 <= z {
        return put_number(size, 10, 10, out);
    }
    put_labelled(b"-", size, 10, 10, out)
}

// The branch offset, if the row has one.
fn put_offset(x: Instruction, out: &mut [u8]) -> usize
    requires { 20 ≤ length out.old }
    ensures { Put (last_operand x) out.old out.new result × (result ≤ 20) }
{
    if !x.branches() {
        return 0;
    }
    let at = put_text(b", offset:", out);
    at + put_signed(x.offset, &mut out[at..])
}

// How many operands stand before the sources.
fn before_sources(x: Instruction) -> usize
    ensures { (result ≡ before_sources x) × (result ≤ 1) }
{
    if has_destination(x.row) { 1 } else { 0 }
}

// All of them, of an instruction with these kinds and values of modifiers.
pub(crate) fn put_operands(
    names: &Names,
    kinds: &[u8],
    values: &[u8],
    x: Instruction,
    out: &mut [u8],
) -> usize
    requires { (names.now ≡ value_list) × (kinds.now ≡ row_kinds (row_of x.row)) × (values.now ≡ modifier_list x.modifiers) × (longest_operands ≤ length out.old) }
    ensures { Put (operands_text x) out.old out.new result × (result ≤ longest_operands) }
{
    let s = x.sources;
    let bytes = [s.s0, s.s1, s.s2, s.s3];
    let first = before_sources(x);
    let n = source_count(x.row) as usize;
    let mut at = put_destination(names, x, out);
    at += put_sources(
        names,
        kinds,
        values,
        x.page,
        &bytes,
        first,
        n,
        &mut out[at..],
    );
    at += put_offset(x, &mut out[at..]);
    at
}
