// A walk along what differs between two containers, their versions apart, one line at a time.
ghost use Rattle.std.specs.Prelude.{◌≡◌, ℕ, ◌<◌, ◌≤◌, max, List};
ghost use Rattle.differences.specs.Differences.{shared as shared_of};
ghost use Rattle.differences.specs.Records.{field_count};
ghost use Rattle.diffparts.specs.Served.Parts.{Both, Counted, singles_from};
ghost use Rattle.diff.specs.Served.Cursor.{Loaded, Found, differing_from, told_at, remaining, stepped, stage_stepped};

use differences::line::{FIELDS, Line, field};
use diffparts::contents::take_contents;
use diffparts::parts::word;
use diffparts::single::{line_of_part, part_count};

// Where a walk is: to be told are the fields from `field` on of the instruction `index`, and after them the parts from `next` on.
#[derive(Clone, Copy, Debug, PartialEq, Eq)]
pub struct At {
    pub index: usize,
    pub field: usize,
    pub next: usize,
}

impl At {
    // Before the first line.
    pub const START: At = At {
        index: 0,
        field: FIELDS,
        next: 0,
    };
}

// What the fields of the instruction at hand hold, in the first container or in the second.
pub type Contents = [u64; FIELDS];

// The first field from `from` on in which the contents differ.
fn differing(xs: &Contents, ys: &Contents, from: usize) -> Option<usize>
    ensures { result ≡ differing_from xs.now ys.now from }
{
    (from..FIELDS).find(|&f| xs[f] != ys[f])
}

// The line of field f of an instruction, and where the walk is after it.
fn tell(xs: &Contents, ys: &Contents, index: usize, f: usize, next: usize) -> (Line, At)
    requires { f < field_count }
    ensures { result ≡ told_at xs.now ys.now index f next }
{
    let line = Line {
        what: field(f),
        index,
        first: xs[f],
        second: ys[f],
    };
    let at = At {
        index,
        field: f + 1,
        next,
    };
    (line, at)
}

// Whether the words at index i differ; then what the instructions hold is taken.
pub fn load<'a>(
    first: &'a [u8],
    second: &'a [u8],
    i: usize,
    xs: &mut Contents,
    ys: &mut Contents,
) -> bool
    requires { Both first.now second.now × (i < shared_of first.now second.now) }
    ensures { Loaded first.now second.now i result xs.new ys.new }
{
    let x = word(first, i);
    let y = word(second, i);
    if x == y {
        return false;
    }
    take_contents(x, xs);
    take_contents(y, ys);
    true
}

// The first field in which the instructions at index i differ.
fn first_field<'a>(
    first: &'a [u8],
    second: &'a [u8],
    i: usize,
    xs: &mut Contents,
    ys: &mut Contents,
) -> Option<usize>
    requires { Both first.now second.now × (i < shared_of first.now second.now) }
    ensures { Found first.now second.now i result xs.new ys.new }
{
    if load(first, second, i, xs, ys) {
        return differing(xs, ys, 0);
    }
    None
}

// A step along the instructions that both have, the first `shared`.
fn step_fields<'a>(
    first: &'a [u8],
    second: &'a [u8],
    shared: usize,
    at: At,
    xs: &mut Contents,
    ys: &mut Contents,
) -> Option<(Line, At)>
    requires { Both first.now second.now × (shared ≡ shared_of first.now second.now) }
    ensures { stage_stepped first.now second.now (max at.next shared) result xs.new ys.new ≡ remaining first.now second.now at xs.old ys.old }
{
    if let Some(f) = differing(xs, ys, at.field) {
        return Some(tell(xs, ys, at.index, f, at.next));
    }
    for i in at.next..shared {
        if let Some(f) = first_field(first, second, i, xs, ys) {
            return Some(tell(xs, ys, i, f, i + 1));
        }
    }
    None
}

// A step along the parts from p on that have one line at most.
fn step_singles<'a>(
    first: &'a [u8],
    n: usize,
    second: &'a [u8],
    m: usize,
    from: usize,
) -> Option<(Line, At)>
    requires { Counted first.now n second.now m × (shared_of first.now second.now ≤ from) }
    ensures { (xs ys : List ℕ) → stepped first.now second.now result xs ys ≡ singles_from first.now second.now from }
{
    let end = part_count(first, n, second, m);
    for p in from..end {
        if let Some(line) = line_of_part(first, n, second, m, p) {
            let at = At {
                next: p + 1,
                ..At::START
            };
            return Some((line, at));
        }
    }
    None
}

// The next line of what two containers of n and m instructions hold that open and read.
pub fn advance<'a>(
    first: &'a [u8],
    n: usize,
    second: &'a [u8],
    m: usize,
    at: At,
    xs: &mut Contents,
    ys: &mut Contents,
) -> Option<(Line, At)>
    requires { Counted first.now n second.now m }
    ensures { stepped first.now second.now result xs.new ys.new ≡ remaining first.now second.now at xs.old ys.old }
{
    let shared = n.min(m);
    match step_fields(first, second, shared, at, xs, ys) {
        Some(told) => Some(told),
        None => step_singles(first, n, second, m, at.next.max(shared)),
    }
}
