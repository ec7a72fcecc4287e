// Numbers, bytes and texts at the front of a buffer, which is otherwise left as it is. Each answers how many bytes it put.
ghost use Rattle.std.specs.Prelude.{◌≡◌, [], ◌∷◌, ◌++◌, ◌+◌, ◌<◌, ◌≤◌, ◌==◌, length, position, replicate};
ghost use Rattle.text.specs.Text.{space, digit, digits, digit_count, number_text, unpadded, Put};

// A digit of a base up to 16.
fn digit(d: u64) -> u8
    requires { d < 16 }
    ensures { result ≡ digit d }
{
    if d < 10 {
        b'0' + d as u8
    } else {
        b'A' - 10 + d as u8
    }
}

// The k lowest digits of n in a base, the highest first.
pub fn put_digits(n: u64, base: u64, k: usize, out: &mut [u8]) -> usize
    requires { (0 < base) × (base ≤ 16) × (k ≤ length out.old) }
    ensures { Put (digits base k n) out.old out.new result × (result ≡ k) }
{
    let mut rest = n;
    for i in (0..k).rev() {
        out[i] = digit(rest % base);
        rest /= base;
    }
    k
}

pub fn put_byte(b: u8, out: &mut [u8]) -> usize
    requires { 0 < length out.old }
    ensures { Put (b ∷ []) out.old out.new result }
{
    out[0] = b;
    1
}

// A space, and digits after it.
pub fn put_spaced(n: u64, base: u64, k: usize, out: &mut [u8]) -> usize
    requires { (0 < base) × (base ≤ 16) × (k < length out.old) }
    ensures { Put (space ∷ digits base k n) out.old out.new result × (result ≡ 1 + k) }
{
    let at = put_byte(b' ', out);
    at + put_digits(n, base, k, &mut out[at..])
}

pub fn put_text(text: &[u8], out: &mut [u8]) -> usize
    requires { length text.now ≤ length out.old }
    ensures { Put text.now out.old out.new result }
{
    bits::bytes::copy(text, out)
}

// How many digits a number is written with.
fn digit_count(n: u64, base: u64, most: usize) -> usize
    requires { 0 < base }
    ensures { (result ≡ digit_count base most n) × (result ≤ most) }
{
    let mut rest = n;
    for k in 0..most {
        if rest < base {
            return k + 1;
        }
        rest /= base;
    }
    most
}

// A number without zeros in front of it, in at most so many digits.
pub fn put_number(n: u64, base: u64, most: usize, out: &mut [u8]) -> usize
    requires { (0 < base) × (base ≤ 16) × (most ≤ length out.old) }
    ensures { Put (number_text base most n) out.old out.new result × (result ≤ most) }
{
    let k = digit_count(n, base, most);
    put_digits(n, base, k, out)
}

// A text, and a number after it.
pub fn put_labelled(label: &[u8], n: u64, base: u64, most: usize, out: &mut [u8]) -> usize
    requires { (0 < base) × (base ≤ 16) × (length label.now + most ≤ length out.old) }
    ensures { Put (label.now ++ number_text base most n) out.old out.new result × (result ≤ length label.now + most) }
{
    let at = put_text(label, out);
    at + put_number(n, base, most, &mut out[at..])
}

// A decimal number between two texts.
pub fn put_enclosed(before: &[u8], n: u64, most: usize, after: &[u8], out: &mut [u8]) -> usize
    requires { length before.now + most + length after.now ≤ length out.old }
    ensures { Put (before.now ++ number_text 10 most n ++ after.now) out.old out.new result × (result ≤ length before.now + most + length after.now) }
{
    let at = put_labelled(before, n, 10, most, out);
    at + put_text(after, &mut out[at..])
}

// So many spaces.
pub fn put_spaces(k: usize, out: &mut [u8]) -> usize
    requires { k ≤ length out.old }
    ensures { Put (replicate k space) out.old out.new result × (result ≡ k) }
{
    out[..k].fill(b' ');
    k
}

// Where the first space stands.
fn first_space(s: &[u8]) -> Option<usize>
    ensures { result ≡ position (λ b. b == 32) s.now }
{
    s.iter().position(|b| *b == b' ')
}

// A text that is filled with spaces, without them.
pub fn put_padded(s: &[u8], out: &mut [u8]) -> usize
    requires { length s.now ≤ length out.old }
    ensures { Put (unpadded s.now) out.old out.new result × (result ≤ length s.now) }
{
    let n = first_space(s).unwrap_or(s.len());
    put_text(&s[..n], out)
}
