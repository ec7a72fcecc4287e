ghost use Rattle.std.specs.Prelude.{◌≡◌, ◌<◌, ◌≤◌, ◌++◌, length, take, drop};
ghost use Rattle.bits.specs.Bytes.{little, little_bytes};

// A byte as a wider number.
pub fn wide(x: u8) -> u64
    ensures { (result ≡ x) × (result < 256) }
{
    u64::from(x)
}

// The number that eight bytes give, the lowest first.
#[tactic(auto, using(crate::proofs::ByteLaws::load_eight))]
pub fn load64(b: &[u8]) -> u64
    requires { length b.now ≡ 8 }
    ensures { result ≡ little b.now }
{
    u64::from_le_bytes(b.try_into().unwrap())
}

// Stores a number as eight bytes, the lowest first.
#[tactic(auto, using(crate::proofs::ByteLaws::store_eight))]
pub fn store64(w: u64, b: &mut [u8])
    requires { length b.old ≡ 8 }
    ensures { b.new ≡ little_bytes 8 w }
{
    b.copy_from_slice(&w.to_le_bytes());
}

// Copies bytes to the front of a buffer that is long enough, and says how many there are.
pub fn copy(from: &[u8], to: &mut [u8]) -> usize
    requires { length from.now ≤ length to.old }
    ensures { (result ≡ length from.now) × (to.new ≡ take (length from.now) from.now ++ drop (length from.now) to.old) }
{
    to[..from.len()].copy_from_slice(from);
    from.len()
}
