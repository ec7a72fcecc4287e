// The whole list of differences in a buffer, three numbers for each line. Each function here puts some lines after k others, and tells how
// many there are then. The loops are its own: put line by line by the cursor of `diff`, the list took three times as long.
ghost use Rattle.std.specs.Prelude.{◌≡◌, ◌+◌, ◌*◌, ◌<◌, ◌≤◌, [], ◌∷◌, length};
ghost use Rattle.container.specs.Formats.{most_instructions};
ghost use Rattle.differences.specs.Records.{field_count};
ghost use Rattle.differences.specs.Differences.{shared as shared_of, version_lines, instruction_lines, lines_from, differences};
ghost use Rattle.differences.specs.Numbers.{most_lines};
ghost use Rattle.diffparts.specs.Served.Parts.{Both, Counted, part_count, single_told, single_lines, singles_from};
ghost use Rattle.diff.specs.Served.Cursor.{field_line, fields_from};
ghost use Rattle.difflist.specs.Served.Placed.{Placed, Indexed};

use diff::cursor::{Contents, load};
use differences::line::{FIELDS, Line, field};
use differences::numbers::line_numbers;
use diffparts::single::{line_of_part, part_count, version_line};

// Puts the numbers of a line after k lines of a buffer, and tells how many lines there are then.
fn put_line(line: Line, k: usize, out: &mut [u64]) -> usize
    requires { (line.index < most_instructions) × (3 * (k + 1) ≤ length out.old) }
    ensures { Placed (line ∷ []) k out.old out.new result }
{
    let l = line_numbers(line);
    let at = 3 * k;
    out[at] = l[0];
    out[at + 1] = l[1];
    out[at + 2] = l[2];
    k + 1
}

// Field f of an instruction.
fn put_field(
    xs: &Contents,
    ys: &Contents,
    index: usize,
    f: usize,
    k: usize,
    out: &mut [u64],
) -> usize
    requires { (index < most_instructions) × (f < field_count) × (3 * (k + 1) ≤ length out.old) }
    ensures { Placed (field_line index xs.now ys.now f) k out.old out.new result }
{
    if xs[f] == ys[f] {
        return k;
    }
    let line = Line {
        what: field(f),
        index,
        first: xs[f],
        second: ys[f],
    };
    put_line(line, k, out)
}

// The fields of an instruction.
fn put_fields(xs: &Contents, ys: &Contents, index: usize, k: usize, out: &mut [u64]) -> usize
    requires { (index < most_instructions) × (3 * (k + field_count) ≤ length out.old) }
    ensures { Placed (fields_from index 0 xs.now ys.now) k out.old out.new result }
{
    let mut n = k;
    for f in 0..FIELDS {
        n = put_field(xs, ys, index, f, n, out);
    }
    n
}

// The instruction at index i.
fn put_instruction<'a>(
    first: &'a [u8],
    second: &'a [u8],
    i: usize,
    xs: &mut Contents,
    ys: &mut Contents,
    k: usize,
    out: &mut [u64],
) -> usize
    requires { Both first.now second.now × (i < shared_of first.now second.now) × (3 * (k + field_count) ≤ length out.old) }
    ensures { Placed (instruction_lines first.now second.now i) k out.old out.new result }
{
    if load(first, second, i, xs, ys) {
        return put_fields(xs, ys, i, k, out);
    }
    k
}

// The instructions that both have, the first `shared`, after the line of the versions, if there is one.
fn put_instructions<'a>(
    first: &'a [u8],
    second: &'a [u8],
    shared: usize,
    k: usize,
    out: &mut [u64],
) -> usize
    requires { Both first.now second.now × (shared ≡ shared_of first.now second.now) × (k ≤ 1) × (length out.old ≡ 3 * most_lines) }
    ensures { Placed (lines_from (instruction_lines first.now second.now) 0 shared) k out.old out.new result }
{
    let mut xs = [0; FIELDS];
    let mut ys = [0; FIELDS];
    let mut n = k;
    for i in 0..shared {
        n = put_instruction(first, second, i, &mut xs, &mut ys, n, out);
    }
    n
}

// The line of a part, if it has one.
fn put_single(single: Option<Line>, k: usize, out: &mut [u64]) -> usize
    requires { Indexed (single_told single) × (3 * (k + 1) ≤ length out.old) }
    ensures { Placed (single_told single) k out.old out.new result }
{
    match single {
        Some(line) => put_line(line, k, out),
        None => k,
    }
}

// Part p of those that have one line at most.
fn put_part<'a>(
    first: &'a [u8],
    n: usize,
    second: &'a [u8],
    m: usize,
    p: usize,
    k: usize,
    out: &mut [u64],
) -> usize
    requires { Counted first.now n second.now m × (shared_of first.now second.now ≤ p) × (p < part_count first.now second.now) × (3 * (k + 1) ≤ length out.old) }
    ensures { Placed (single_lines first.now second.now p) k out.old out.new result }
{
    put_single(line_of_part(first, n, second, m, p), k, out)
}

// All of these parts, after k lines.
fn put_parts<'a>(
    first: &'a [u8],
    n: usize,
    second: &'a [u8],
    m: usize,
    k: usize,
    out: &mut [u64],
) -> usize
    requires { Counted first.now n second.now m × (k ≤ 1 + field_count * shared_of first.now second.now) × (length out.old ≡ 3 * most_lines) }
    ensures { Placed (singles_from first.now second.now (shared_of first.now second.now)) k out.old out.new result }
{
    let mut l = k;
    for p in n.min(m)..part_count(first, n, second, m) {
        l = put_part(first, n, second, m, p, l, out);
    }
    l
}

// The line of the versions, if there is one, at the front.
fn put_version<'a>(first: &'a [u8], second: &'a [u8], out: &mut [u64]) -> usize
    requires { Both first.now second.now × (length out.old ≡ 3 * most_lines) }
    ensures { Placed (version_lines first.now second.now) 0 out.old out.new result }
{
    put_single(version_line(first, second), 0, out)
}

// The whole list, at the front.
pub(crate) fn put_lines<'a>(
    first: &'a [u8],
    n: usize,
    second: &'a [u8],
    m: usize,
    out: &mut [u64],
) -> usize
    requires { Counted first.now n second.now m × (length out.old ≡ 3 * most_lines) }
    ensures { Placed (differences first.now second.now) 0 out.old out.new result }
{
    let k = put_version(first, second, out);
    let l = put_instructions(first, second, n.min(m), k, out);
    put_parts(first, n, second, m, l, out)
}
