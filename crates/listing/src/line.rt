// The line of an instruction: index, word, name.
ghost use Rattle.std.specs.Prelude.{◌≡◌, ◌*◌, ◌<◌, ◌≤◌, length};
ghost use Rattle.rows.specs.Names.{names as all_names};
ghost use Rattle.container.specs.Container.{count_of, words_of};
ghost use Rattle.container.specs.Opening.{Opens};
ghost use Rattle.text.specs.Text.{Put};
ghost use Rattle.listing.specs.Listing.{line, word_in, lines, longest_line};

use reader::read_number;
use rows::names::WIDTH;
use text::name::{Names, put_reading};
use text::put::{put_byte, put_digits, put_spaced};
use view::{open_count, word_of};

// The most bytes that a line has.
pub(crate) const LONGEST: usize = 4 + 1 + 16 + 1 + WIDTH + 1;

// The line of word w at index i.
fn put_line(names: &Names, i: usize, w: u64, out: &mut [u8]) -> usize
    requires { (names.now ≡ all_names) × (longest_line ≤ length out.old) }
    ensures { Put (line i w) out.old out.new result × (result ≤ longest_line) }
{
    let r = read_number(w);
    let mut at = put_digits(i as u64, 10, 4, out);
    at += put_spaced(w, 16, 16, &mut out[at..]);
    at += put_reading(names, r, &mut out[at..]);
    at += put_byte(b'\n', &mut out[at..]);
    at
}

// The line of the word at index i of a container.
fn put_word(names: &Names, bytes: &[u8], i: usize, out: &mut [u8]) -> usize
    requires { Opens bytes.now × (i < count_of bytes.now) × (names.now ≡ all_names) × (longest_line ≤ length out.old) }
    ensures { Put (line i (word_in (words_of bytes.now) i)) out.old out.new result × (result ≤ longest_line) }
{
    match word_of(bytes, i) {
        Ok(w) => put_line(names, i, w, out),
        Err(_) => 0,
    }
}

// The lines of a container's words.
pub(crate) fn put_lines(bytes: &[u8], out: &mut [u8]) -> usize
    requires { Opens bytes.now × (longest_line * count_of bytes.now ≤ length out.old) }
    ensures { Put (lines (words_of bytes.now) (count_of bytes.now)) out.old out.new result × (result ≤ longest_line * count_of bytes.now) }
{
    let names = rows::names::all();
    let n = open_count(bytes);
    let mut at = 0;
    for i in 0..n {
        at += put_word(&names, bytes, i, &mut out[at..]);
    }
    at
}
