// The word that nesting and frames give each row of the statement table.
#![tactic(auto)]

ghost use Rattle.std.specs.Prelude.{◌≡◌, ◌≤◌, ◌<◌, length};
ghost use Rattle.base_limits.specs.Limits as limits;
ghost use Rattle.prog_tables.specs.Statement.{row_at};
ghost use Rattle.prog_tables.specs.Frames.{frame_size};
ghost use Rattle.res_frame_words.specs.Framing.{frame_value, word_of, words_in, words_of};

use base_limits::Machine;
use lang_kinds::Kind;

// A function and the blocks in it.
const FRAME_DEPTH: u32 = Machine::BLOCK_DEPTH + 1;

// The frame size of a function, whatever its parameters.
fn size_of(k: &[u32], c: u32, n: u32) -> u64
    requires { c ≤ limits.statements }
    ensures { result ≡ frame_size (row_at k.now) c n }
{
    let p = prog_tables::parameters_at(k, n);
    let need = prog_frames::need(k, c, FRAME_DEPTH, n);
    3 + u64::from(p) + u64::from(need)
}

fn value_of(k: &[u32], c: u32, n: u32) -> u64
    requires { (c ≤ limits.statements) × (n < c) }
    ensures { result ≡ frame_value (row_at k.now) c n }
{
    let kind = prog_tables::kind_at(k, n);
    match kind {
        Kind::FUNCTION => size_of(k, c, n),
        Kind::BLOCK => prog_frames::block_word(k, c, n),
        Kind::END_BLOCK => prog_frames::block_word(k, c, prog_tables::scope_at(k, n)),
        Kind::LET => prog_frames::let_word(k, c, n),
        _ if prog_faults::has_target(kind) => u64::from(prog_frames::target_of(k, c, n)),
        _ => 0,
    }
}

fn word_of(k: &[u32], c: u32, n: u32) -> u32
    requires { (c ≤ limits.statements) × (n < c) }
    ensures { result ≡ word_of (row_at k.now) c n }
{
    (value_of(k, c, n) % Machine::WORD_VALUES) as u32
}

fn put_words(k: &[u32], c: u32, out: &mut [u32])
    requires { (c ≤ limits.statements) × (length out.old ≡ limits.statements) }
    ensures { out.new ≡ words_in out.old (row_at k.now) c c }
{
    for n in 0..c {
        out[n as usize] = word_of(k, c, n);
    }
}

// The words of c rows; the table is cleared first.
pub fn make_words(k: &[u32], c: u32, out: &mut [u32])
    requires { (c ≤ limits.statements) × (length out.old ≡ limits.statements) }
    ensures { out.new ≡ words_of (row_at k.now) c }
{
    base_prelude::clear_from(out, 0);
    put_words(k, c, out);
}
