// Notes as bytes.
ghost use Rattle.std.specs.Prelude.{◌≡◌, ◌*◌, length, get_or};
ghost use Rattle.bits.specs.Halves.{halves};
ghost use Rattle.container.specs.Formats.{annotation_length};
ghost use Rattle.sweeps.specs.Sweeps.{note_bytes};

use bits::bytes::store64;
use container::format::format_of;

// Stores each note as an annotation of a version, one after the other. Where the version has no place for the high halves, the low ones
// stand for both.
pub fn encode(version: u64, lows: &[u64], highs: &[u64], out: &mut [u8])
    requires { (length highs.now ≡ length lows.now) × (length out.old ≡ annotation_length version * length lows.now) }
    ensures { out.new ≡ note_bytes version (λ j. halves (get_or lows.now j 0) (get_or highs.now j 0)) (length lows.now) }
{
    let f = format_of(version);
    // By offsets, and not chunk by chunk: of a chunk that was lent only its length is known afterwards.
    for i in 0..lows.len() {
        let start = f.annotation * i;
        let middle = start + 8;
        store64(lows[i], &mut out[start..middle]);
        if f.high != 0 {
            let end = middle + 8;
            store64(highs[i], &mut out[middle..end]);
        }
    }
}
