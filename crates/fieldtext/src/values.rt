// What is written for the values of modifiers, half masks and flows: by the number of their kind, and in the order of the values.
ghost use Rattle.std.specs.Prelude.{◌≡◌, ◌<◌, ◌≤◌, length};
ghost use Rattle.text.specs.Text.{Put};
ghost use Rattle.fieldtext.specs.Enumerations.{value_width};
ghost use Rattle.fieldtext.specs.Served.Coded.{value_list, coded_value};

use text::put::{put_padded, put_text};

// The most bytes that a name has, with its dot.
pub const WIDTH: usize = 13;

// How many names there are, and how many kinds.
const VALUES: usize = 125;

const KINDS: usize = 26;

pub type Names = [u8; WIDTH * VALUES];

// The kinds of modifiers by number, in the order of the tables below, and the two that are no modifiers. A place without one has the number 0.
#[derive(Clone, Copy, Debug, PartialEq, Eq)]
pub enum Kind {
    NanMode = 1,
    Ftz = 2,
    FlushInf = 3,
    Conservative = 4,
    Eq = 5,
    Condition = 6,
    IntegerCondition = 7,
    Mux = 8,
    Clamp = 9,
    RoundMode = 10,
    ResultType = 11,
    Saturate = 12,
    Negate = 13,
    Absolute = 14,
    Widen = 15,
    SwizzleHalf = 16,
    Lane8 = 17,
    Lane16 = 18,
    Swizzle32 = 19,
    Swizzle16 = 20,
    Swizzle8 = 21,
    HalfSwizzle = 22,
    Combine = 23,
    HalfMask = 24,
    Flow = 25,
}

// Where the names of a kind's values begin, and how many they are.
const FIRST: [u8; KINDS] = [
    0, // absent
    0, // NaN mode
    3, // ftz
    5, // flush_inf
    7, // conservative
    9, // eq
    11, // condition
    11, // condition of integers
    19, // mux
    23, // clamp
    27, // round mode
    31, // result type
    35, // saturate
    37, // negate
    39, // absolute
    41, // widen
    58, // H
    44, // lane of 8 bits
    48, // lane of 16 bits
    50, // W32
    58, // W16
    72, // W8
    84, // half-swizzle
    100, // combine
    105, // half mask
    109, // flow
];

const COUNT: [u8; KINDS] = [
    0, 3, 2, 2, 2, 2, 8, 8, 4, 4, 4, 4, 2, 2, 2, 3, 4, 4, 2, 8, 14, 12, 16, 5, 4, 16,
];

// The names, one after another, each filled with spaces. What is not written is spaces alone, the first as \x20, since those at the start
// of a line are not taken.
const NAMES: Names = *b"\
    .none        \
    .flush_nan   \
    .quiet_nan   \
    \x20            \
    .ftz         \
    \x20            \
    .flush_inf   \
    \x20            \
    .conservative\
    \x20            \
    .eq          \
    .eq          \
    .gt          \
    .ge          \
    .ne          \
    .lt          \
    .le          \
    .gtlt        \
    .total       \
    .neg         \
    \x20            \
    .fp_zero     \
    .bit         \
    \x20            \
    .clamp_0_inf \
    .clamp_m1_1  \
    .clamp_0_1   \
    \x20            \
    .rtp         \
    .rtn         \
    .rtz         \
    .i1          \
    .f1          \
    .m1          \
    .u1          \
    \x20            \
    .saturate    \
    \x20            \
    .neg         \
    \x20            \
    .abs         \
    \x20            \
    .h0          \
    .h1          \
    .b0          \
    .b1          \
    .b2          \
    .b3          \
    .h0          \
    .h1          \
    \x20            \
    .?           \
    .h0          \
    .h1          \
    .b0          \
    .b1          \
    .b2          \
    .b3          \
    .h00         \
    .h10         \
    \x20            \
    .h11         \
    .b00         \
    .b20         \
    .b02         \
    .b22         \
    .b11         \
    .b31         \
    .b13         \
    .b33         \
    .b01         \
    .b23         \
    \x20            \
    .b3210       \
    .b0101       \
    .b2323       \
    .b0000       \
    .b1111       \
    .b2222       \
    .b3333       \
    .b2301       \
    .b1032       \
    .b0011       \
    .b2233       \
    .b00         \
    .b10         \
    .b20         \
    .b30         \
    .b01         \
    .b11         \
    .b21         \
    .b31         \
    .b02         \
    .b12         \
    .b22         \
    .b32         \
    .b03         \
    .b13         \
    .b23         \
    .b33         \
    \x20            \
    .h0          \
    .h1          \
    .and         \
    .lowbits     \
    .?           \
    .h0          \
    .h1          \
    \x20            \
    \x20            \
    .wait0       \
    .wait1       \
    .wait01      \
    .wait2       \
    .wait02      \
    .wait12      \
    .wait012     \
    .wait0126    \
    .wait        \
    .reconverge  \
    .?           \
    .?           \
    .discard     \
    .?           \
    .end         \
";

// The names, for a caller to make once and lend.
pub fn all() -> Names
    ensures { result ≡ value_list }
{
    NAMES
}

// What is written for a value of the kind with a number.
pub fn put_value(names: &Names, kind: u8, v: u8, out: &mut [u8]) -> usize
    requires { (names.now ≡ value_list) × (kind < 26) × (value_width ≤ length out.old) }
    ensures { Put (coded_value kind v) out.old out.new result × (result ≤ value_width) }
{
    let k = kind as usize;
    if COUNT[k] <= v {
        return put_text(b".?", out);
    }
    let at = (FIRST[k] as usize + v as usize) * WIDTH;
    put_padded(&names[at..at + WIDTH], out)
}
