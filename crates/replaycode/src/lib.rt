// The answer of a replay as one number.
#![tactic(auto)]

ghost use Rattle.std.specs.Prelude.{◌≡◌};
ghost use Rattle.replaycode.specs.ReplayCode.{stop_code};

use run::Stop;

// What stopped a run as one number: 0, 254 for the limit or 255 for a difference, the register at bit 8, the number of steps at bit 16.
pub fn stop_code(s: Stop) -> u64
    ensures { result ≡ stop_code s }
{
    match s {
        Stop::Ended(n) => 65536 * n as u64,
        Stop::Limit(n) => 254 + 65536 * n as u64,
        Stop::Differs(k, r) => 255 + 256 * r as u64 + 65536 * (k as u64 + 1),
    }
}
