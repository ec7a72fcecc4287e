// The verifier (the paper's check): whether a container's annotations prove that no walk reads a half of a register that
// is not defined there.
#![tactic(auto)]

ghost use Rattle.std.specs.Prelude.{◌≡◌};
ghost use Rattle.bits.specs.Outcomes.{passes};
ghost use Rattle.safety.specs.Verdict.{verdict_outcome, verdict_of, all_read};
ghost use Rattle.safety.specs.Demand3.{Demand3At};
ghost use Rattle.safety.specs.Reasons.{Grounded};

use crate::program::{Words, judge_words};
use container::header::open;
use container::parts::{annotations, words};
use safety::verdict::{Verdict, refused};

pub mod program;

// Verifies a container.
pub fn verify(bytes: &[u8]) -> Verdict
    ensures verdict { verdict_outcome result ≡ verdict_of bytes.now }
    ensures demand { Demand3At bytes.now (verdict_outcome result ≡ passes) }
    ensures reason { Grounded bytes.now (verdict_outcome result) }
{
    match open(bytes) {
        Ok(header) => judge_words(
            header.version,
            words(bytes),
            annotations(bytes),
            header.count,
            header.entry,
        ),
        Err(reason) => refused(reason.number(), 0, 0),
    }
}

// Opens a container and reads its words, and no more: accepted, or the first refusal of that.
pub fn read_all(bytes: &[u8]) -> Verdict
    ensures { verdict_outcome result ≡ all_read bytes.now }
{
    match open(bytes) {
        Ok(header) => {
            let words = Words {
                bytes: words(bytes),
                n: header.count,
            };
            words.read_from(0)
        }
        Err(unopened) => refused(unopened.number(), 0, 0),
    }
}
