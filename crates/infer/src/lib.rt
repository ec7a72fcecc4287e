// Inference of annotations (the paper's maker of notes): from a version, words and an entry set to the annotations that name the most.
#![tactic(auto)]

ghost use Rattle.std.specs.Prelude.{◌≡◌, ◌*◌, ◌<◌, length};
ghost use Rattle.container.specs.Formats.{annotation_length};
ghost use Rattle.bits.specs.Outcomes.{refuses};
ghost use Rattle.packing.specs.Packing.{taken};
ghost use Rattle.reasons.specs.Numbers.{number_of};
ghost use Rattle.safety.specs.Program.{Worded, Annotated};
ghost use Rattle.safety.specs.Verdict.{plain};
ghost use Rattle.infer.specs.Inference.{inference_outcome};
ghost use Rattle.infer.specs.Asked.{Inferred};
ghost use Rattle.infer.specs.Served.Handed.{Ready, Swept, Handed};

use bits::halves::{Halves, both};
use container::format::{format_of, known};
use container::layout::{LONGEST_ANNOTATION, MOST_INSTRUCTIONS, WORD_LENGTH};
use packing::fit;
use reasons::Reason;
use safety::verdict::plain;
use sweeps::answer::Inference;
use sweeps::encode::encode;
use sweeps::plan::make_plan;
use sweeps::sweeps::rest;
use verifier::program::judge_words;

// All 64 registers.
const ALL: u64 = 0xFFFFFFFFFFFFFFFF;

// How long a list of the sweeps is: a cache line more than it takes, so that no two begin at the same place of a page, which makes the
// sweeps slower (docs/PERFORMANCE.md).
const LIST_ROOM: usize = MOST_INSTRUCTIONS + 8;

// A refusal that concerns no instruction and no register.
fn refuse(reason: Reason) -> Inference
    ensures { inference_outcome result ≡ refuses (plain (number_of reason) 0 0) }
{
    Err(plain(reason.number(), 0, 0))
}

// An entry set as a version takes it: where it has no place for the high halves, the low ones stand for both.
fn taken(version: u64, entry: Halves) -> Halves
    ensures { result ≡ taken version entry }
{
    let f = format_of(version);
    if f.high == 0 {
        return both(entry.low);
    }
    entry
}

// Reads the words, sweeps in memory of its own, and puts the annotations that were found into a buffer of their length. Refuses the lowest
// word that does not read.
fn propose(version: u64, words: &[u8], n: usize, entry: Halves, out: &mut [u8]) -> Inference
    requires { Ready version words.now n entry × (length out.old ≡ annotation_length version * n) }
    ensures { Swept version words.now n entry (inference_outcome result) out.new }
{
    let mut kills = [0u64; LIST_ROOM];
    let mut lows = [0u64; LIST_ROOM];
    let mut highs = [0u64; LIST_ROOM];
    let mut falls = [0usize; LIST_ROOM];
    let mut jumps = [0usize; LIST_ROOM];
    let mut new = [0u64; LIST_ROOM];
    let mut low_notes = [ALL; LIST_ROOM];
    let mut high_notes = [ALL; LIST_ROOM];
    let kills = &mut kills[..n];
    let lows = &mut lows[..n];
    let highs = &mut highs[..n];
    let falls = &mut falls[..n];
    let jumps = &mut jumps[..n];
    let new = &mut new[..n];
    let low_notes = &mut low_notes[..n];
    let high_notes = &mut high_notes[..n];
    make_plan(version, words, n, kills, lows, highs, falls, jumps)?;
    low_notes[0] = entry.low;
    high_notes[0] = entry.high;
    let k = rest(
        version, kills, lows, highs, falls, jumps, new, low_notes, high_notes,
    );
    encode(version, low_notes, high_notes, out);
    Ok(k)
}

// Hands a proposal to the check and, where that accepts it, to the caller.
fn hand_over<'a>(
    version: u64,
    words: &'a [u8],
    n: usize,
    entry: Halves,
    proposal: &'a [u8],
    k: usize,
    annotations: &mut [u8],
) -> Inference
    requires { Worded words.now n × Annotated version proposal.now n × (0 < n) × (length annotations.old ≡ length proposal.now) }
    ensures { Handed version words.now n entry proposal.now k annotations.old (inference_outcome result) annotations.new }
{
    // Whatever the check finds is told as one refusal.
    match judge_words(version, words, proposal, n, entry) {
        Ok(()) => {
            annotations.copy_from_slice(proposal);
            Ok(k)
        }
        Err(_) => refuse(Reason::NoneAcceptable),
    }
}

// Proposes annotations of a version for words and an entry set: how many sweeps that took, or the first refusal, which leaves the buffer as
// it is. In version 1 the low halves of the entry set stand for both.
pub fn infer(version: u64, words: &[u8], entry: Halves, annotations: &mut [u8]) -> Inference
    ensures { Inferred version words.now entry annotations.old (inference_outcome result) annotations.new }
{
    if !known(version) {
        return refuse(Reason::WrongVersion);
    }
    if !fit(version, words.len(), annotations.len()) {
        return refuse(Reason::WrongLength);
    }
    let n = words.len() / WORD_LENGTH;
    let held = taken(version, entry);
    let mut proposal = [0u8; LONGEST_ANNOTATION * MOST_INSTRUCTIONS];
    let proposal = &mut proposal[..annotations.len()];
    let k = propose(version, words, n, held, proposal)?;
    hand_over(version, words, n, held, proposal, k, annotations)
}
