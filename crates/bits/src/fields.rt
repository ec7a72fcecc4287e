ghost use Rattle.std.specs.Prelude.{◌≡◌, ◌<◌, ◌^◌};
ghost use Rattle.bits.specs.Fields.{bits};

// `width` bits of `w`, from bit `low` up.
pub fn bits_at(w: u64, low: u64, width: u64) -> u64
    requires { (low < 64) × (width < 64) }
    ensures { (result ≡ bits w low width) × (result < 2 ^ width) }
{
    (w >> low) % (1 << width)
}
