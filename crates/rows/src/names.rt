// The names of the rows, as the lister writes them.
ghost use Rattle.std.specs.Prelude.{◌≡◌, ◌<◌};
ghost use Rattle.rows.specs.Rows.{row_count};
ghost use Rattle.rows.specs.Names.{before_space, filled, name, name_of, names};

use crate::table;

// Room for the longest name.
pub const WIDTH: usize = 18;

// A name, with spaces after it, and its length.
#[derive(Clone, Copy, Debug, PartialEq, Eq)]
pub struct Name {
    pub bytes: [u8; WIDTH],
    pub len: u8,
}

// The names, one after another, each filled with spaces.
const NAMES: [u8; WIDTH * table::ROWS] = *b"\
    NOP               \
    BRANCHZ           \
    DISCARD.f32       \
    CSEL.f32          \
    CSEL.v2f16        \
    V2S16_TO_V2F16    \
    V2U16_TO_V2F16    \
    S32_TO_F32        \
    U32_TO_F32        \
    S16_TO_S32        \
    S16_TO_F32        \
    U16_TO_U32        \
    U16_TO_F32        \
    F32_TO_S32        \
    F32_TO_U32        \
    V2F16_TO_V2S16    \
    V2F16_TO_V2U16    \
    F16_TO_S32        \
    F16_TO_U32        \
    F16_TO_F32        \
    S8_TO_S32         \
    S8_TO_F32         \
    U8_TO_U32         \
    U8_TO_F32         \
    V2S8_TO_V2S16     \
    V2S8_TO_V2F16     \
    V2U8_TO_V2U16     \
    V2U8_TO_V2F16     \
    FROUND.f32        \
    FROUND.v2f16      \
    MOV.i32           \
    CLZ.u32           \
    CLZ.v2u16         \
    CLZ.v4u8          \
    IABS.s32          \
    IABS.v2s16        \
    IABS.v4s8         \
    POPCOUNT.i32      \
    BITREV.i32        \
    NOT_OLD.i32       \
    FLUSH.f32         \
    FLUSH.v2f16       \
    FRCP.f32          \
    FRSQ.f32          \
    FLOGD.f32         \
    FPCLASS.f32       \
    FLOG_TABLE.f32    \
    FRCP_APPROX.f32   \
    FRSQ_APPROX.f32   \
    FSIN_TABLE.u6     \
    FCOS_TABLE.u6     \
    FSINCOS_OFFSET.u6 \
    FEXP_TABLE.u4     \
    FADD.f32          \
    FADD.v2f16        \
    MUX.i32           \
    MUX.v2i16         \
    MUX.v4i8          \
    CUBE_SSEL         \
    CUBE_TSEL         \
    CUBEFACE1         \
    CUBEFACE2_V9      \
    IDP.v4s8          \
    IDP.v4u8          \
    ICMP_OR.u32       \
    ICMP_OR.v2u16     \
    ICMP_OR.v4u8      \
    ICMP_AND.u32      \
    ICMP_AND.v2u16    \
    ICMP_AND.v4u8     \
    FCMP_OR.f32       \
    FCMP_OR.v2f16     \
    FCMP_AND.f32      \
    FCMP_AND.v2f16    \
    ICMP_OR.s32       \
    ICMP_OR.v2s16     \
    ICMP_OR.v4s8      \
";

// The names of all rows, for a caller to make once and lend.
pub fn all() -> [u8; WIDTH * table::ROWS]
    ensures { result ≡ names }
{
    NAMES
}

// How many bytes stand before the first space.
fn before_space(s: [u8; WIDTH]) -> u8
    ensures { result ≡ before_space s }
{
    s.iter().position(|b| *b == b' ').unwrap_or(s.len()) as u8
}

// The bytes of a row's name, with spaces after it.
#[tactic(auto, using(crate::proofs::NameLaws::name_in))]
fn bytes_of(row: usize) -> [u8; WIDTH]
    requires { row < row_count }
    ensures { result ≡ filled (name_of row) }
{
    let start = row * WIDTH;
    all()[start..start + WIDTH].try_into().unwrap()
}

// The name of a row; of length 0 where there is no such row, as the definition `name_of` has none there.
pub fn of_row(row: usize) -> Name
    ensures { result ≡ name row }
{
    if table::ROWS <= row {
        return Name {
            bytes: [b' '; WIDTH],
            len: 0,
        };
    }
    let bytes = bytes_of(row);
    Name {
        bytes,
        len: before_space(bytes),
    }
}
