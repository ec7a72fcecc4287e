// The comparison of two containers (the paper's compare): what differs between them, line by line.
#![tactic(auto)]

ghost use Rattle.std.specs.Prelude.{◌≡◌};
ghost use Rattle.bits.specs.Lists.{kth};
ghost use Rattle.safety.specs.Verdict.{all_read};
ghost use Rattle.differences.specs.Differences.{content_lines, differences};
ghost use Rattle.differences.specs.Answers.{compared_outcome, ready_outcome, of_side, both_read, line_outcome};
ghost use Rattle.diffparts.specs.Served.Parts.{Both};

use crate::cursor::{At, advance};
use differences::answer::{Side, Unread};
use differences::line::{FIELDS, Line};
use diffparts::single::version_line;
use verifier::read_all;
use view::open_count;

pub mod cursor;

// Whether the container of a side opens and reads.
fn side_read(side: Side, bytes: &[u8]) -> Result<(), Unread>
    ensures { ready_outcome result ≡ of_side side (all_read bytes.now) }
{
    read_all(bytes).map_err(|finding| Unread { side, finding })
}

// Whether both containers open and read: the first is asked first.
#[tactic(auto, using(bits::proofs::OutcomeLaws::left_by, bits::proofs::OutcomeLaws::stops, bits::proofs::OutcomeLaws::goes_on), unfolding(differences::specs::Answers::both_read))]
pub fn both_read<'a>(first: &'a [u8], second: &'a [u8]) -> Result<(), Unread>
    ensures { ready_outcome result ≡ both_read first.now second.now }
{
    side_read(Side::First, first)?;
    side_read(Side::Second, second)
}

// Line k of what two containers hold that open and read, by a walk from the front.
fn content_line<'a>(first: &'a [u8], second: &'a [u8], k: usize) -> Option<Line>
    requires { Both first.now second.now }
    ensures { result ≡ kth (content_lines first.now second.now) k }
{
    let n = open_count(first);
    let m = open_count(second);
    let mut xs = [0; FIELDS];
    let mut ys = [0; FIELDS];
    let mut at = At::START;
    for _i in 0..k {
        let (_, next) = advance(first, n, second, m, at, &mut xs, &mut ys)?;
        at = next;
    }
    let (line, _) = advance(first, n, second, m, at, &mut xs, &mut ys)?;
    Some(line)
}

// Line k of their list: where the versions differ, these come first.
fn list_line<'a>(first: &'a [u8], second: &'a [u8], k: usize) -> Option<Line>
    requires { Both first.now second.now }
    ensures { result ≡ kth (differences first.now second.now) k }
{
    match version_line(first, second) {
        Some(line) if k == 0 => Some(line),
        Some(_) => content_line(first, second, k - 1),
        None => content_line(first, second, k),
    }
}

// Line k of the list of differences, from 0.
#[tactic(auto, using(bits::proofs::OutcomeLaws::left_by, bits::proofs::OutcomeLaws::stops, bits::proofs::OutcomeLaws::goes_on, crate::proofs::AnswerLaws::are_both), unfolding(differences::specs::Answers::line_outcome))]
pub fn diff_line<'a>(first: &'a [u8], second: &'a [u8], k: usize) -> Result<Option<Line>, Unread>
    ensures { compared_outcome result ≡ line_outcome first.now second.now k }
{
    both_read(first, second)?;
    Ok(list_line(first, second, k))
}
