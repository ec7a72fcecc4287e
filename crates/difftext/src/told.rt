// What a line tells: the index, what differs there, and the contents.
ghost use Rattle.std.specs.Prelude.{◌≡◌, ◌∷◌, ◌++◌, ◌≤◌, length};
ghost use Rattle.differences.specs.declared.line.What.TheVariants.{Row};
ghost use Rattle.rows.specs.Names.{ascii, names as all_names};
ghost use Rattle.text.specs.Text.{space, decimal, Put};
ghost use Rattle.linetext.specs.Lines.{head, both, word_text, modifier_digits, set_name, told as told_of, longest_told};

use differences::line::{HIGH_SET, LOW_SET, Line, What};
use linetext::{put_both, put_head, put_row, put_word};
use rows::names::WIDTH;
use text::name::Names;
use text::put::{put_spaced, put_text};

// The most bytes that these have.
const ROW: usize = 1 + 2 + 1 + WIDTH;

pub(crate) const LONGEST: usize = 4 + 4 + ROW + 3 + ROW;

// The rows of an instruction.
fn put_rows(names: &Names, line: Line, out: &mut [u8]) -> usize
    requires { (names.now ≡ all_names) × (longest_told ≤ length out.old) }
    ensures { Put (told_of Row line.index line.first line.second) out.old out.new result × (result ≤ longest_told) }
{
    let mut at = put_head(line.index, b" row", out);
    at += put_row(names, line.first, &mut out[at..]);
    at += put_text(b" ->", &mut out[at..]);
    at += put_row(names, line.second, &mut out[at..]);
    at
}

// A field of k digits.
fn put_field(line: Line, label: &[u8], k: usize, out: &mut [u8]) -> usize
    requires { (length label.now ≤ 12) × (k ≤ 16) × (longest_told ≤ length out.old) }
    ensures { Put (head line.index label.now ++ both k line.first line.second) out.old out.new result × (result ≤ longest_told) }
{
    let at = put_head(line.index, label, out);
    at + put_both(k, line.first, line.second, &mut out[at..])
}

// A field of k digits that has a number, which is told in d digits.
fn put_numbered(line: Line, label: &[u8], n: u8, d: usize, k: usize, out: &mut [u8]) -> usize
    requires { (length label.now ≤ 9) × (d ≤ 2) × (k ≤ 7) × (longest_told ≤ length out.old) }
    ensures { Put (head line.index label.now ++ (space ∷ decimal d n) ++ both k line.first line.second) out.old out.new result × (result ≤ longest_told) }
{
    let mut at = put_head(line.index, label, out);
    at += put_spaced(u64::from(n), 10, d, &mut out[at..]);
    at += put_both(k, line.first, line.second, &mut out[at..]);
    at
}

// An instruction that only one has.
fn put_extra(names: &Names, index: usize, label: &[u8], word: u64, out: &mut [u8]) -> usize
    requires { (names.now ≡ all_names) × (length label.now ≤ 8) × (longest_told ≤ length out.old) }
    ensures { Put (head index label.now ++ word_text word) out.old out.new result × (result ≤ longest_told) }
{
    let at = put_head(index, label, out);
    at + put_word(names, word, &mut out[at..])
}

// Which set: nothing where it is the one set of version 1.
fn put_set_name(k: u8, out: &mut [u8]) -> usize
    requires { 5 ≤ length out.old }
    ensures { Put (set_name k) out.old out.new result × (result ≤ 5) }
{
    match k {
        LOW_SET => put_text(b" low", out),
        HIGH_SET => put_text(b" high", out),
        _ => 0,
    }
}

// Set k of the entry sets.
fn put_entry(line: Line, k: u8, out: &mut [u8]) -> usize
    requires { longest_told ≤ length out.old }
    ensures { Put (ascii "entry" ++ set_name k ++ both 16 line.first line.second) out.old out.new result × (result ≤ longest_told) }
{
    let mut at = put_text(b"entry", out);
    at += put_set_name(k, &mut out[at..]);
    at += put_both(16, line.first, line.second, &mut out[at..]);
    at
}

// Set k of the annotations at an index.
fn put_note(line: Line, k: u8, out: &mut [u8]) -> usize
    requires { longest_told ≤ length out.old }
    ensures { Put (head line.index (ascii " note") ++ set_name k ++ both 16 line.first line.second) out.old out.new result × (result ≤ longest_told) }
{
    let mut at = put_head(line.index, b" note", out);
    at += put_set_name(k, &mut out[at..]);
    at += put_both(16, line.first, line.second, &mut out[at..]);
    at
}

// The versions.
fn put_version(line: Line, out: &mut [u8]) -> usize
    requires { longest_told ≤ length out.old }
    ensures { Put (ascii "version" ++ both 1 line.first line.second) out.old out.new result × (result ≤ longest_told) }
{
    let at = put_text(b"version", out);
    at + put_both(1, line.first, line.second, &mut out[at..])
}

// The lowest bit of a branch offset.
const OFFSET: u8 = 8;

// The digits of a modifier: at bit 8 those of a branch offset.
fn modifier_digits(p: u8) -> usize
    ensures { (result ≡ modifier_digits p) × (result ≤ 7) }
{
    if p == OFFSET { 7 } else { 1 }
}

pub(crate) fn put_told(names: &Names, line: Line, out: &mut [u8]) -> usize
    requires { (names.now ≡ all_names) × (longest_told ≤ length out.old) }
    ensures { Put (told_of line.what line.index line.first line.second) out.old out.new result × (result ≤ longest_told) }
{
    match line.what {
        What::Row => put_rows(names, line, out),
        What::Page => put_field(line, b" page", 1, out),
        What::Flow => put_field(line, b" flow", 1, out),
        What::Destination => put_field(line, b" destination", 2, out),
        What::Source(k) => put_numbered(line, b" source", k, 1, 2, out),
        What::Modifier(p) => put_numbered(line, b" modifier", p, 2, modifier_digits(p), out),
        What::Added => put_extra(names, line.index, b" added", line.second, out),
        What::Removed => put_extra(names, line.index, b" removed", line.first, out),
        What::Entry(k) => put_entry(line, k, out),
        What::Annotation(k) => put_note(line, k, out),
        What::Version => put_version(line, out),
    }
}
