// The functions of capi under their C names, each with the same promises; include/vsp.h declares them. They stand beside those of capi, whose
// contracts `claims` cites: an export is for C alone.
#![tactic(auto)]

ghost use Rattle.std.specs.Prelude.{◌≡◌, length};
ghost use Rattle.bits.specs.Halves.{halves};
ghost use Rattle.rows.specs.Names.{name_of};
ghost use Rattle.opcoderows.specs.Opcodes.{row_with};
ghost use Rattle.reading.specs.Reader.{read};
ghost use Rattle.record.specs.Defaults.{fresh};
ghost use Rattle.safety.specs.Verdict.{verdict_of};
ghost use Rattle.safety.specs.Demand3.{Demand3At};
ghost use Rattle.infer.specs.Inference.{infer_outcome, infer_buffer};
ghost use Rattle.infer.specs.Asked.{AsAsked};
ghost use Rattle.differences.specs.Answers.{line_outcome, list_outcome, list_buffer};
ghost use Rattle.replay.specs.Replay.{asked, replay_outcome, replay_registers};
ghost use Rattle.replaycode.specs.ReplayCode.{replay_code};
ghost use Rattle.codes.specs.Codes.{outcome_code, verdict_code, infer_code, row_code, line_code, line_after, list_code};
ghost use Rattle.form.specs.Form.{form_after, write_form, word_after};
ghost use Rattle.codes.specs.Texts.{text_after, form_text, name_after};

use capi::{NAME, TEXT};
use differences::numbers::MOST_NUMBERS;

// Verifies a container: 0 where it is accepted, else the finding as one number.
#[unsafe(no_mangle)]
pub extern "C" fn vsp_check(container: &[u8]) -> u64
    ensures answer { result ≡ verdict_code (verdict_of container.now) }
    ensures demand { Demand3At container.now (result ≡ 0) }
{
    capi::vsp_check(container)
}

// Makes annotations of a version for words and an entry set: 2^16 times the number of sweeps, or the finding as one number, and then the
// buffer keeps its bytes.
#[unsafe(no_mangle)]
pub extern "C" fn vsp_infer(
    version: u64,
    words: &[u8],
    low: u64,
    high: u64,
    annotations: &mut [u8],
) -> u64
    ensures answer { result ≡ infer_code (infer_outcome version words.now (halves low high) annotations.old) }
    ensures kept { annotations.new ≡ infer_buffer version words.now (halves low high) annotations.old }
    ensures asked { AsAsked version words.now (halves low high) annotations.old (infer_outcome version words.now (halves low high) annotations.old) annotations.new }
{
    capi::vsp_infer(version, words, low, high, annotations)
}

// Line k of the list of differences between two containers: 0 and the line's three numbers; 255 where the list has fewer, or which
// container cannot be compared as one number, and then the numbers stay.
#[unsafe(no_mangle)]
pub extern "C" fn vsp_diff_line<'a>(
    first: &'a [u8],
    second: &'a [u8],
    k: usize,
    line: &mut [u64; 3],
) -> u64
    ensures answer { result ≡ line_code (line_outcome first.now second.now k) }
    ensures kept { line.new ≡ line_after (line_outcome first.now second.now k) line.old }
{
    capi::vsp_diff_line(first, second, k, line)
}

// The whole list, three numbers a line at the front of a buffer for any list: 2^16 times the number of lines, or which container cannot be
// compared as one number, and then the buffer keeps its numbers.
#[unsafe(no_mangle)]
pub extern "C" fn vsp_diff_lines<'a>(
    first: &'a [u8],
    second: &'a [u8],
    lines: &mut [u64; MOST_NUMBERS],
) -> u64
    ensures answer { result ≡ list_code (list_outcome first.now second.now) }
    ensures kept { lines.new ≡ list_buffer first.now second.now lines.old }
{
    capi::vsp_diff_lines(first, second, lines)
}

// Replays a container on 64 registers, which are changed in place, with some uniforms, against a recorded trace, at most `limit` steps: what
// stopped the run as one number, or the finding as one number, and then the registers stay.
#[unsafe(no_mangle)]
pub extern "C" fn vsp_replay<'a>(
    container: &'a [u8],
    registers: &mut [u32; 64],
    uniforms: &'a [u32],
    trace: &'a [u32],
    limit: u32,
) -> u64
    ensures answer { result ≡ replay_code (replay_outcome (asked container.now registers.old uniforms.now trace.now limit)) }
    ensures left { registers.new ≡ replay_registers (asked container.now registers.old uniforms.now trace.now limit) }
{
    capi::vsp_replay(container, registers, uniforms, trace, limit)
}

// Reads a word into a form: 0, or the refusal as one number, and then the form keeps its bytes.
#[unsafe(no_mangle)]
pub extern "C" fn vsp_read(word: &[u8], form: &mut [u8; 32]) -> u32
    ensures answer { result ≡ outcome_code (read word.now) }
    ensures kept { form.new ≡ form_after (read word.now) form.old }
{
    capi::vsp_read(word, form)
}

// Writes a form's word: 0, or the refusal as one number, and then the word's buffer keeps its bytes.
#[unsafe(no_mangle)]
pub extern "C" fn vsp_write(form: &[u8; 32], word: &mut [u8]) -> u32
    ensures answer { result ≡ outcome_code (write_form form.now word.old) }
    ensures kept { word.new ≡ word_after form.now word.old }
{
    capi::vsp_write(form, word)
}

// Makes a row's default in a form: 0, or the refusal as one number, and then the form keeps its bytes.
#[unsafe(no_mangle)]
pub extern "C" fn vsp_fresh(row: usize, form: &mut [u8; 32]) -> u32
    ensures answer { result ≡ outcome_code (fresh row) }
    ensures kept { form.new ≡ form_after (fresh row) form.old }
{
    capi::vsp_fresh(row, form)
}

// The k-th row that has an opcode, from 0 in row order, or 255.
#[unsafe(no_mangle)]
pub extern "C" fn vsp_row_of(opcode: u64, k: u64) -> u32
    ensures { result ≡ row_code (row_with opcode k) }
{
    capi::vsp_row_of(opcode, k)
}

// Puts the text of a form and a 0 after it at the front of a buffer for any text: the length of the text.
#[unsafe(no_mangle)]
pub extern "C" fn vsp_text(form: &[u8; 32], text: &mut [u8; TEXT]) -> usize
    ensures answer { result ≡ length (form_text form.now) }
    ensures kept { text.new ≡ text_after (form_text form.now) text.old }
{
    capi::vsp_text(form, text)
}

// Puts the name of a row and a 0 after it at the front of a buffer for any name: the length of the name, or 0 where there is no such row,
// and then the buffer keeps its bytes.
#[unsafe(no_mangle)]
pub extern "C" fn vsp_name(row: usize, name: &mut [u8; NAME]) -> usize
    ensures answer { result ≡ length (name_of row) }
    ensures kept { name.new ≡ name_after row name.old }
{
    capi::vsp_name(row, name)
}
