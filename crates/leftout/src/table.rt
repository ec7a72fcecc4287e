// The instructions that 002 has and the scope leaves out, in 002's order: by what a word is known as one, and the names.
ghost use Rattle.std.specs.Prelude.{◌≡◌};
ghost use Rattle.leftout.specs.Served.Tables.{key_table, key_fits, name_text};

use bits::fields::bits_at;

// How many there are.
pub(crate) const OMITTED: usize = 127;

// The most bytes that a name has.
pub(crate) const LONGEST: usize = 28;

// A key has the opcode in its lowest bits, and above it the lowest bit, the width and the value of the secondary opcode.
const LOW: u64 = 9;

const WIDTH: u64 = 15;

const SECOND: u64 = 18;

const AT_16: u64 = 16 << LOW | 4 << WIDTH;

const AT_24: u64 = 24 << LOW | 2 << WIDTH;

const KEYS: [u64; OMITTED] = [
    // a branch, a barrier, selects of integers
    0x2F, // BRANCHZI
    0x45, // BARRIER
    0x150, // CSEL.u32
    0x151, // CSEL.v2u16
    0x158, // CSEL.s32
    0x159, // CSEL.v2s16
    // varyings
    0x56, // LD_VAR_SPECIAL
    0x5C, // LD_VAR_BUF_IMM.f32
    0x5D, // LD_VAR_BUF_IMM.f16
    0x6C, // LD_VAR_BUF.f32
    0x6D, // LD_VAR_BUF.f16
    0x64, // LD_VAR
    0x54, // LD_VAR_IMM
    0x55, // LD_VAR_FLAT
    0x41, // LD_VAR_FLAT_IMM
    // attributes, textures, memory
    0x66, // LD_ATTR_IMM or LD_TEX_IMM
    0x76, // LD_ATTR or LD_TEX
    0x67, // LEA_ATTR_IMM or LEA_TEX_IMM
    0x77, // LEA_ATTR or LEA_TEX
    0x6A, // LD_BUFFER
    0x5E, // LEA_BUF_IMM
    0x60, // LOAD
    0x61, // STORE
    0x6B, // LEA_BUFFER
    0x71, // ST_CVT
    // tile buffer, blending, depth and stencil
    0x78, // LD_TILE
    0x79, // ST_TILE
    0x7F, // BLEND
    0x7D, // ATEST
    0x7E, // ZS_EMIT
    // one source
    AT_16 | 0xE << SECOND | 0x191, // NOT_OLD.i64
    0x95, // WMASK
    AT_16 | 0 << SECOND | 0x99, // FREXPM.f32
    AT_16 | 1 << SECOND | 0x99, // FREXPM.v2f16
    AT_16 | 2 << SECOND | 0x99, // FREXPE.f32
    AT_16 | 3 << SECOND | 0x99, // FREXPE.v2f16
    AT_16 | 1 << SECOND | 0x9C, // FRCP.f16
    AT_16 | 3 << SECOND | 0x9C, // FRSQ.f16
    AT_16 | 0xB << SECOND | 0x9C, // FPCLASS.f16
    // two sources, floating-point
    AT_16 | 2 << SECOND | 0xA4, // FMIN.f32
    AT_16 | 2 << SECOND | 0xA5, // FMIN.v2f16
    AT_16 | 3 << SECOND | 0xA4, // FMAX.f32
    AT_16 | 3 << SECOND | 0xA5, // FMAX.v2f16
    AT_16 | 4 << SECOND | 0xA5, // V2F32_TO_V2F16
    AT_16 | 6 << SECOND | 0xA4, // LDEXP.f32
    AT_16 | 6 << SECOND | 0xA5, // LDEXP.v2f16
    AT_16 | 8 << SECOND | 0xA4, // FEXP.f32
    AT_16 | 9 << SECOND | 0xA4, // FADD_LSCALE.f32
    AT_16 | 0xE << SECOND | 0xA4, // FATAN_ASSIST.f32
    // two sources, integers
    AT_16 | 0 << SECOND | 0xA0, // IADD.u32
    AT_16 | 0 << SECOND | 0xA1, // IADD.v2u16
    AT_16 | 0 << SECOND | 0xA2, // IADD.v4u8
    AT_16 | 0 << SECOND | 0xA8, // IADD.s32
    AT_16 | 0 << SECOND | 0xA9, // IADD.v2s16
    AT_16 | 0 << SECOND | 0xAA, // IADD.v4s8
    AT_16 | 0 << SECOND | 0x1A3, // IADD.u64
    AT_16 | 0 << SECOND | 0x1AB, // IADD.s64
    AT_16 | 5 << SECOND | 0xA1, // MKVEC.v2i16
    AT_16 | 1 << SECOND | 0xA0, // ISUB.u32
    AT_16 | 1 << SECOND | 0xA1, // ISUB.v2u16
    AT_16 | 1 << SECOND | 0xA2, // ISUB.v4u8
    AT_16 | 1 << SECOND | 0xA8, // ISUB.s32
    AT_16 | 1 << SECOND | 0xA9, // ISUB.v2s16
    AT_16 | 1 << SECOND | 0xAA, // ISUB.v4s8
    AT_16 | 1 << SECOND | 0x1A3, // ISUB.u64
    AT_16 | 1 << SECOND | 0x1AB, // ISUB.s64
    AT_16 | 6 << SECOND | 0x1A3, // SEG_ADD.u64
    AT_16 | 7 << SECOND | 0x1A3, // SHADDX.u64
    AT_16 | 7 << SECOND | 0x1AB, // SHADDX.s64
    AT_16 | 0xA << SECOND | 0xA0, // IMUL.i32
    AT_16 | 0xA << SECOND | 0xA1, // IMUL.v2i16
    AT_16 | 0xA << SECOND | 0xA2, // IMUL.v4i8
    AT_16 | 0xA << SECOND | 0xA8, // IMUL.s32
    AT_16 | 0xA << SECOND | 0xA9, // IMUL.v2s16
    AT_16 | 0xA << SECOND | 0xAA, // IMUL.v4s8
    AT_16 | 0xA << SECOND | 0x1A3, // IMULD.u64
    AT_16 | 0xB << SECOND | 0xA0, // HADD.u32
    AT_16 | 0xB << SECOND | 0xA1, // HADD.v2u16
    AT_16 | 0xB << SECOND | 0xA2, // HADD.v4u8
    AT_16 | 0xB << SECOND | 0xA8, // HADD.s32
    AT_16 | 0xB << SECOND | 0xA9, // HADD.v2s16
    AT_16 | 0xB << SECOND | 0xAA, // HADD.v4s8
    AT_16 | 0xF << SECOND | 0xA0, // CLPER.i32
    AT_16 | 0xF << SECOND | 0xA1, // CLPER.v2u16
    AT_16 | 0xF << SECOND | 0xA2, // CLPER.v4u8
    AT_16 | 0xF << SECOND | 0xA8, // CLPER.s32
    AT_16 | 0xF << SECOND | 0xA9, // CLPER.v2s16
    AT_16 | 0xF << SECOND | 0xAA, // CLPER.v4s8
    AT_16 | 0xF << SECOND | 0x1A3, // CLPER.u64
    AT_16 | 0xF << SECOND | 0x1AB, // CLPER.s64
    // three sources
    0xB2, // FMA.f32
    0xB3, // FMA.v2f16
    0xB4, // a shift, as LSHIFT_AND.i32
    0xB5, // a shift, as LSHIFT_AND.v2i16
    0xB6, // a shift, as LSHIFT_AND.v4i8
    0x1B7, // a shift, as LSHIFT_AND.i64
    0xBD, // MKVEC.v2i8
    // three sources, comparisons
    AT_24 | 1 << SECOND | 0xF8, // ICMP_AND.s32
    AT_24 | 1 << SECOND | 0xF9, // ICMP_AND.v2s16
    AT_24 | 1 << SECOND | 0xFA, // ICMP_AND.v4s8
    AT_24 | 2 << SECOND | 0xF0, // ICMP_MULTI.u32
    AT_24 | 2 << SECOND | 0xF8, // ICMP_MULTI.s32
    // one source and an immediate
    0x110, // IADD_IMM.i32
    0x111, // IADD_IMM.v2i16
    0x112, // IADD_IMM.v4i8
    0x114, // FADD_IMM.f32
    0x115, // FADD_IMM.v2f16
    // atomic operations on memory
    0x69, // ATOM1_RETURN
    0x68, // ATOM
    0x120, // ATOM_RETURN
    // textures, and varyings with textures
    0x125, // TEX_FETCH
    0x128, // TEX_SINGLE
    0x129, // TEX_GATHER
    0x12A, // TEX_GRADIENT
    0x12F, // TEX_DUAL
    0x130, // VAR_TEX_BUF_SINGLE
    0x131, // VAR_TEX_BUF_GATHER
    0x132, // VAR_TEX_BUF_GRADIENT
    0x137, // VAR_TEX_BUF_DUAL
    0x138, // VAR_TEX_SINGLE
    0x139, // VAR_TEX_GATHER
    0x13A, // VAR_TEX_GRADIENT
    0x13F, // VAR_TEX_DUAL
    // four sources
    0x160, // FMA_RSCALE.f32
    0x161, // FMA_RSCALE_N.f32
    0x162, // FMA_RSCALE_LEFT.f32
    0x163, // FMA_RSCALE_SCALE16.f32
];

// The names, one after another, each filled with spaces.
const NAMES: [u8; LONGEST * OMITTED] = *b"\
    BRANCHZI                    \
    BARRIER                     \
    CSEL.u32                    \
    CSEL.v2u16                  \
    CSEL.s32                    \
    CSEL.v2s16                  \
    LD_VAR_SPECIAL              \
    LD_VAR_BUF_IMM.f32          \
    LD_VAR_BUF_IMM.f16          \
    LD_VAR_BUF.f32              \
    LD_VAR_BUF.f16              \
    LD_VAR                      \
    LD_VAR_IMM                  \
    LD_VAR_FLAT                 \
    LD_VAR_FLAT_IMM             \
    LD_ATTR_IMM or LD_TEX_IMM   \
    LD_ATTR or LD_TEX           \
    LEA_ATTR_IMM or LEA_TEX_IMM \
    LEA_ATTR or LEA_TEX         \
    LD_BUFFER                   \
    LEA_BUF_IMM                 \
    LOAD                        \
    STORE                       \
    LEA_BUFFER                  \
    ST_CVT                      \
    LD_TILE                     \
    ST_TILE                     \
    BLEND                       \
    ATEST                       \
    ZS_EMIT                     \
    NOT_OLD.i64                 \
    WMASK                       \
    FREXPM.f32                  \
    FREXPM.v2f16                \
    FREXPE.f32                  \
    FREXPE.v2f16                \
    FRCP.f16                    \
    FRSQ.f16                    \
    FPCLASS.f16                 \
    FMIN.f32                    \
    FMIN.v2f16                  \
    FMAX.f32                    \
    FMAX.v2f16                  \
    V2F32_TO_V2F16              \
    LDEXP.f32                   \
    LDEXP.v2f16                 \
    FEXP.f32                    \
    FADD_LSCALE.f32             \
    FATAN_ASSIST.f32            \
    IADD.u32                    \
    IADD.v2u16                  \
    IADD.v4u8                   \
    IADD.s32                    \
    IADD.v2s16                  \
    IADD.v4s8                   \
    IADD.u64                    \
    IADD.s64                    \
    MKVEC.v2i16                 \
    ISUB.u32                    \
    ISUB.v2u16                  \
    ISUB.v4u8                   \
    ISUB.s32                    \
    ISUB.v2s16                  \
    ISUB.v4s8                   \
    ISUB.u64                    \
    ISUB.s64                    \
    SEG_ADD.u64                 \
    SHADDX.u64                  \
    SHADDX.s64                  \
    IMUL.i32                    \
    IMUL.v2i16                  \
    IMUL.v4i8                   \
    IMUL.s32                    \
    IMUL.v2s16                  \
    IMUL.v4s8                   \
    IMULD.u64                   \
    HADD.u32                    \
    HADD.v2u16                  \
    HADD.v4u8                   \
    HADD.s32                    \
    HADD.v2s16                  \
    HADD.v4s8                   \
    CLPER.i32                   \
    CLPER.v2u16                 \
    CLPER.v4u8                  \
    CLPER.s32                   \
    CLPER.v2s16                 \
    CLPER.v4s8                  \
    CLPER.u64                   \
    CLPER.s64                   \
    FMA.f32                     \
    FMA.v2f16                   \
    a shift, as LSHIFT_AND.i32  \
    a shift, as LSHIFT_AND.v2i16\
    a shift, as LSHIFT_AND.v4i8 \
    a shift, as LSHIFT_AND.i64  \
    MKVEC.v2i8                  \
    ICMP_AND.s32                \
    ICMP_AND.v2s16              \
    ICMP_AND.v4s8               \
    ICMP_MULTI.u32              \
    ICMP_MULTI.s32              \
    IADD_IMM.i32                \
    IADD_IMM.v2i16              \
    IADD_IMM.v4i8               \
    FADD_IMM.f32                \
    FADD_IMM.v2f16              \
    ATOM1_RETURN                \
    ATOM                        \
    ATOM_RETURN                 \
    TEX_FETCH                   \
    TEX_SINGLE                  \
    TEX_GATHER                  \
    TEX_GRADIENT                \
    TEX_DUAL                    \
    VAR_TEX_BUF_SINGLE          \
    VAR_TEX_BUF_GATHER          \
    VAR_TEX_BUF_GRADIENT        \
    VAR_TEX_BUF_DUAL            \
    VAR_TEX_SINGLE              \
    VAR_TEX_GATHER              \
    VAR_TEX_GRADIENT            \
    VAR_TEX_DUAL                \
    FMA_RSCALE.f32              \
    FMA_RSCALE_N.f32            \
    FMA_RSCALE_LEFT.f32         \
    FMA_RSCALE_SCALE16.f32      \
";

pub(crate) fn keys() -> [u64; OMITTED]
    ensures { result ≡ key_table }
{
    KEYS
}

// Whether a word has the opcode and the secondary opcode of a key.
pub(crate) fn fits(key: u64, w: u64) -> bool
    ensures { result ≡ key_fits key w }
{
    if bits_at(w, 48, 9) != bits_at(key, 0, 9) {
        return false;
    }
    let low = bits_at(key, LOW, 6);
    let width = bits_at(key, WIDTH, 3);
    bits_at(w, low, width) == bits_at(key, SECOND, 4)
}

pub(crate) fn names() -> [u8; LONGEST * OMITTED]
    ensures { result ≡ name_text }
{
    NAMES
}
