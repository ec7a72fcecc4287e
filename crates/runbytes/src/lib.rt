// What a replay is asked, in bytes: where its parts stand, and the numbers in them.
#![tactic(auto)]

ghost use Rattle.std.specs.Prelude.{◌≡◌, ◌+◌, ◌*◌, ◌≤◌, length};
ghost use Rattle.runbytes.specs.RunBytes.{uniforms_start, number_at, numbers, registers_in, uniforms_in, trace_in, container_in, split_outcome, parted_outcome};
ghost use Rattle.runbytes.specs.Served.Whole.{Whole};

use trace::REGISTERS;

// Where the start registers stand, and where the uniforms do.
const REGISTERS_START: usize = 16;

pub const UNIFORMS_START: usize = REGISTERS_START + 4 * REGISTERS;

// The most uniforms, and the most numbers of a trace.
pub const MOST_UNIFORMS: usize = 256;

pub const MOST_RECORDED: usize = 262144;

// Where the first number, the limit and the two counts stand.
const ROWS: usize = 0;

const LIMIT: usize = 4;

const UNIFORMS: usize = 8;

const RECORDED: usize = 12;

// What stands before the start registers: whether the registers after each step are wanted, the limit, how many uniforms there are, and
// how many numbers the trace has.
#[derive(Clone, Copy, Debug, PartialEq, Eq)]
pub struct Front {
    pub rows: bool,
    pub limit: u32,
    pub uniforms: usize,
    pub recorded: usize,
}

// What can be wrong: no room for the start registers, another first number than 0 and 1, a count that is too large, no room for what is
// counted.
#[derive(Clone, Copy, Debug, PartialEq, Eq)]
pub enum Fault {
    Short,
    Kind,
    Counts,
    Cut,
}

// What stands in front, where all parts are there.
pub type Parted = Result<Front, Fault>;

// The number that four bytes give, the lowest first.
pub fn number_at(bytes: &[u8], start: usize) -> u32
    requires { start + 4 ≤ length bytes.now }
    ensures { result ≡ number_at bytes.now start }
{
    u32::from_le_bytes([
        bytes[start],
        bytes[start + 1],
        bytes[start + 2],
        bytes[start + 3],
    ])
}

// Fills a list with the numbers that stand one after the other from a byte on.
fn load(bytes: &[u8], start: usize, out: &mut [u32])
    requires { start + 4 * length out.old ≤ length bytes.now }
    ensures { out.new ≡ numbers bytes.now start (length out.old) }
{
    for i in 0..out.len() {
        out[i] = number_at(bytes, start + 4 * i);
    }
}

// The start registers.
pub fn load_registers(bytes: &[u8], registers: &mut [u32; REGISTERS])
    requires { uniforms_start ≤ length bytes.now }
    ensures { registers.new ≡ registers_in bytes.now }
{
    load(bytes, REGISTERS_START, registers);
}

// The uniforms and the trace, in lists that are as long as they are counted.
pub fn load_lists(bytes: &[u8], f: Front, uniforms: &mut [u32], trace: &mut [u32])
    requires { Whole bytes.now f × (length uniforms.old ≡ f.uniforms) × (length trace.old ≡ f.recorded) }
    ensures { (uniforms.new ≡ uniforms_in bytes.now) × (trace.new ≡ trace_in bytes.now) }
{
    load(bytes, UNIFORMS_START, uniforms);
    load(bytes, UNIFORMS_START + 4 * f.uniforms, trace);
}

// The bytes of the container.
pub fn container(bytes: &[u8], f: Front) -> &[u8]
    requires { Whole bytes.now f }
    ensures { result.now ≡ container_in bytes.now }
{
    let start = UNIFORMS_START + 4 * f.uniforms + 4 * f.recorded;
    &bytes[start..]
}

// Whether the parts are there.
pub fn split(bytes: &[u8]) -> Parted
    ensures { parted_outcome result ≡ split_outcome bytes.now }
{
    if bytes.len() < UNIFORMS_START {
        return Err(Fault::Short);
    }
    let rows = number_at(bytes, ROWS);
    let uniforms = number_at(bytes, UNIFORMS) as usize;
    let recorded = number_at(bytes, RECORDED) as usize;
    if 1 < rows {
        return Err(Fault::Kind);
    }
    if MOST_UNIFORMS < uniforms || MOST_RECORDED < recorded {
        return Err(Fault::Counts);
    }
    if bytes.len() < UNIFORMS_START + 4 * uniforms + 4 * recorded {
        return Err(Fault::Cut);
    }
    Ok(Front {
        rows: rows == 1,
        limit: number_at(bytes, LIMIT),
        uniforms,
        recorded,
    })
}
