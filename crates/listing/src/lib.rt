// The text that the lister writes (01, The lister), made in a buffer that the caller lends.
#![tactic(auto)]

ghost use Rattle.std.specs.Prelude.{◌≤◌, length};
ghost use Rattle.text.specs.Text.{Put};
ghost use Rattle.listing.specs.Listing.{listing, longest_listing};

use crate::line::put_lines;
use verdictline::{LONGEST_VERDICT, all_read, put_verdict};

mod line;

// The most bytes that a listing has.
pub const LONGEST: usize = line::LONGEST * container::layout::MOST_INSTRUCTIONS + LONGEST_VERDICT;

// The lines where all words read, then the verdict.
fn put_listing(bytes: &[u8], out: &mut [u8]) -> usize
    requires { longest_listing ≤ length out.old }
    ensures { Put (listing bytes.now) out.old out.new result }
{
    let v = verifier::verify(bytes);
    if !all_read(v) {
        return put_verdict(v, out);
    }
    let at = put_lines(bytes, out);
    at + put_verdict(v, &mut out[at..])
}

// Puts the listing of a container at the front of a buffer that has room for any, and answers how many bytes it has.
pub fn write(bytes: &[u8], out: &mut [u8; LONGEST]) -> usize
    ensures { Put (listing bytes.now) out.old out.new result }
{
    put_listing(bytes, out)
}
