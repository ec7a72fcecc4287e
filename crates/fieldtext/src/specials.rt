// The names of special constants.
ghost use Rattle.std.specs.Prelude.{◌≡◌, ◌≤◌, length};
ghost use Rattle.rows.specs.Sources.{special_at};
ghost use Rattle.text.specs.Text.{Put};
ghost use Rattle.fieldtext.specs.Enumerations.{special_text};
ghost use Rattle.fieldtext.specs.Enumerations.{special_width};
ghost use Rattle.fieldtext.specs.Served.Coded.{special_table};

use text::put::{put_padded, put_text};

// The most bytes that a name has.
pub const WIDTH: usize = 23;

const PAGES: usize = 4;

const SPECIALS: usize = 16;

type Names = [u8; WIDTH * SPECIALS * PAGES];

// The special constants page by page, each filled with spaces; a question mark where there is none.
const NAMES: Names = *b"\
    ?                      \
    ?                      \
    warp_id                \
    ?                      \
    framebuffer_size       \
    atest_datum            \
    sample                 \
    ?                      \
    blend_descriptor_0     \
    blend_descriptor_1     \
    blend_descriptor_2     \
    blend_descriptor_3     \
    blend_descriptor_4     \
    blend_descriptor_5     \
    blend_descriptor_6     \
    blend_descriptor_7     \
    ?                      \
    thread_local_pointer   \
    ?                      \
    workgroup_local_pointer\
    ?                      \
    ?                      \
    ?                      \
    resource_table_pointer \
    ?                      \
    ?                      \
    ?                      \
    ?                      \
    ?                      \
    ?                      \
    ?                      \
    ?                      \
    ?                      \
    ?                      \
    ?                      \
    ?                      \
    ?                      \
    ?                      \
    ?                      \
    ?                      \
    ?                      \
    ?                      \
    ?                      \
    ?                      \
    ?                      \
    ?                      \
    ?                      \
    ?                      \
    ?                      \
    lane_id                \
    ?                      \
    core_id                \
    ?                      \
    ?                      \
    ?                      \
    ?                      \
    ?                      \
    ?                      \
    ?                      \
    ?                      \
    ?                      \
    ?                      \
    ?                      \
    program_counter        \
";

fn all() -> Names
    ensures { result ≡ special_table }
{
    NAMES
}

// The name of value i of a page's special constants.
pub fn put_special(page: u8, i: u8, out: &mut [u8]) -> usize
    requires { special_width ≤ length out.old }
    ensures { Put (special_text (special_at page i)) out.old out.new result × (result ≤ special_width) }
{
    let p = page as usize;
    let k = i as usize;
    if PAGES <= p || SPECIALS <= k {
        return put_text(b"?", out);
    }
    let names = all();
    let at = (p * SPECIALS + k) * WIDTH;
    put_padded(&names[at..at + WIDTH], out)
}
