// The pieces of a line, each at the front of a buffer; the answer is how many bytes it has.
#![tactic(auto)]

ghost use Rattle.std.specs.Prelude.{◌≡◌, ◌+◌, ◌*◌, ◌≤◌, length};
ghost use Rattle.rows.specs.Names.{name_width, names as all_names};
ghost use Rattle.text.specs.Text.{Put};
ghost use Rattle.linetext.specs.Lines.{head, both, row_text, word_text, longest_row};

use reader::read_number;
use text::name::{Names, put_name, put_reading};
use text::put::{put_byte, put_digits, put_spaced, put_text};

// The index, and what differs there.
pub fn put_head(index: usize, label: &[u8], out: &mut [u8]) -> usize
    requires { 4 + length label.now ≤ length out.old }
    ensures { Put (head index label.now) out.old out.new result × (result ≡ 4 + length label.now) }
{
    let at = put_digits(index as u64, 10, 4, out);
    at + put_text(label, &mut out[at..])
}

// Both contents in k hexadecimal digits.
pub fn put_both(k: usize, first: u64, second: u64, out: &mut [u8]) -> usize
    requires { (k ≤ 16) × (2 * k + 5 ≤ length out.old) }
    ensures { Put (both k first second) out.old out.new result × (result ≡ 2 * k + 5) }
{
    let mut at = put_spaced(first, 16, k, out);
    at += put_text(b" ->", &mut out[at..]);
    at += put_spaced(second, 16, k, &mut out[at..]);
    at
}

// A row's number and its name.
pub fn put_row(names: &Names, row: u64, out: &mut [u8]) -> usize
    requires { (names.now ≡ all_names) × (longest_row ≤ length out.old) }
    ensures { Put (row_text row) out.old out.new result × (result ≤ longest_row) }
{
    let mut at = put_spaced(row, 10, 2, out);
    at += put_byte(b' ', &mut out[at..]);
    at += put_name(names, row as usize, &mut out[at..]);
    at
}

// A word and the name of what it says.
pub fn put_word(names: &Names, word: u64, out: &mut [u8]) -> usize
    requires { (names.now ≡ all_names) × (18 + name_width ≤ length out.old) }
    ensures { Put (word_text word) out.old out.new result × (result ≤ 18 + name_width) }
{
    let at = put_spaced(word, 16, 16, out);
    at + put_reading(names, read_number(word), &mut out[at..])
}
