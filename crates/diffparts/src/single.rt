// The parts of the list that have one line at most: the versions, extra instructions, the sets of the entry sets and of the annotations.
ghost use Rattle.std.specs.Prelude.{◌≡◌, ◌&&◌, [], ◌∷◌, ◌+◌, ◌*◌, ◌%◌, ◌<◌, ◌≤◌, max, min, eqb, length, get_or};
ghost use Rattle.differences.specs.Sets.{low_and_high, sets_of, set_in};
ghost use Rattle.differences.specs.Differences.{line, where_differs, version_lines};
ghost use Rattle.diffparts.specs.Served.Parts.{Both, Counted, set_count, part_count, single_told, set_line, set_part, single_lines};

use crate::parts::{entry, note, version, word};
use bits::halves::Halves;
use differences::line::{HIGH_SET, LOW_SET, Line, ONE_SET, What};

// The version whose sets are compared as one.
const ONE_SET_VERSION: u64 = 1;

// A line whatever the contents are.
fn tell(what: What, index: usize, first: u64, second: u64) -> Option<Line>
    ensures { single_told result ≡ line what index first second ∷ [] }
{
    Some(Line {
        what,
        index,
        first,
        second,
    })
}

// A line where the contents differ.
fn compare(what: What, index: usize, first: u64, second: u64) -> Option<Line>
    ensures { single_told result ≡ where_differs what index first second }
{
    if first == second {
        return None;
    }
    tell(what, index, first, second)
}

// The versions.
pub fn version_line<'a>(first: &'a [u8], second: &'a [u8]) -> Option<Line>
    requires { Both first.now second.now }
    ensures { single_told result ≡ version_lines first.now second.now }
{
    compare(What::Version, 0, version(first), version(second))
}

// Whether one set is compared: that of version 1.
fn one_set(v: u64, w: u64) -> bool
    ensures { result ≡ (eqb v 1 && eqb w 1) }
{
    v == ONE_SET_VERSION && w == ONE_SET_VERSION
}

// How many sets are compared.
#[tactic(auto, using(differences::proofs::SetLaws::one_set, differences::proofs::SetLaws::two_sets))]
fn set_count(v: u64, w: u64) -> usize
    ensures { result ≡ length (sets_of v w) }
{
    if one_set(v, w) { 1 } else { 2 }
}

// Set k of a set of halves.
fn set_in(k: u8, s: Halves) -> u64
    ensures { result ≡ set_in k s }
{
    if k == HIGH_SET { s.high } else { s.low }
}

// Set k of the entry sets, where j is 0, or of the annotation at index j - 1.
fn compare_set<'a>(
    first: &'a [u8],
    n: usize,
    second: &'a [u8],
    m: usize,
    j: usize,
    k: u8,
) -> Option<Line>
    requires { Counted first.now n second.now m × (j ≤ min n m) }
    ensures { single_told result ≡ set_line first.now second.now j k }
{
    if j == 0 {
        let x = entry(first);
        let y = entry(second);
        return compare(What::Entry(k), 0, set_in(k, x), set_in(k, y));
    }
    let i = j - 1;
    let x = note(first, n, i);
    let y = note(second, m, i);
    compare(What::Annotation(k), i, set_in(k, x), set_in(k, y))
}

// Which of two sets stands at place q, where they take turns: that of the low halves comes first.
fn in_turn(q: usize) -> u8
    ensures { result ≡ get_or low_and_high (q % 2) 0 }
{
    if q % 2 == 0 { LOW_SET } else { HIGH_SET }
}

// Part q of the sets: those of the entry sets, then those of each annotation.
fn line_of_set<'a>(first: &'a [u8], n: usize, second: &'a [u8], m: usize, q: usize) -> Option<Line>
    requires { Counted first.now n second.now m × (q < set_count first.now second.now * (min n m + 1)) }
    ensures { single_told result ≡ set_part first.now second.now q }
{
    if one_set(version(first), version(second)) {
        return compare_set(first, n, second, m, q, ONE_SET);
    }
    compare_set(first, n, second, m, q / 2, in_turn(q))
}

// Part p, after those of the instructions that both have.
pub fn line_of_part<'a>(
    first: &'a [u8],
    n: usize,
    second: &'a [u8],
    m: usize,
    p: usize,
) -> Option<Line>
    requires { Counted first.now n second.now m × (min n m ≤ p) × (p < part_count first.now second.now) }
    ensures { single_told result ≡ single_lines first.now second.now p }
{
    if p < n {
        return tell(What::Removed, p, word(first, p), 0);
    }
    if p < m {
        return tell(What::Added, p, 0, word(second, p));
    }
    line_of_set(first, n, second, m, p - n.max(m))
}

// How many parts there are, counted with the instructions that both have.
pub fn part_count<'a>(first: &'a [u8], n: usize, second: &'a [u8], m: usize) -> usize
    requires { Counted first.now n second.now m }
    ensures { result ≡ part_count first.now second.now }
{
    let sets = set_count(version(first), version(second));
    n.max(m) + sets * (n.min(m) + 1)
}
