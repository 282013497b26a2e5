// The data image: how long data is, where each line of it stands, and its bytes.
#![tactic(auto)]

ghost use Rattle.std.specs.Prelude.{◌≡◌, ◌+◌, ◌-◌, ◌≤◌, ◌<◌, length};
ghost use Rattle.base_limits.specs.Limits as limits;
ghost use Rattle.base_prelude.specs.Lists.{overlay};
ghost use Rattle.base_limits.specs.Width.{data_limit};
ghost use Rattle.base_word.specs.Bytes.{word_bytes};
ghost use Rattle.res_data.specs.Sizes.{align_of, fill_of, align_size, size_of, cursor_behind, add_line, next_of, next_at, measure_from, measure_of, address_of, first_cursor};
ghost use Rattle.res_data.specs.Image.{line_bytes, put_bytes, laying, lay_step, lay_from, laid, image_of};
ghost use Rattle.res_data.specs.Fits.{CursorFits};

use base_limits::Width;
use lang_kinds::{Ground, Kind, TokenRow};
use parse_lines::Span;

// Between two units: the next token, the section, the bytes of data so far.
#[derive(Clone, Copy)]
pub struct Cursor {
    pub at: u32,
    pub section: u32,
    pub size: u32,
}

fn align_of(w: Width, t: &[u32], u: Span) -> u32
    requires { u.word < limits.greatest_word }
    ensures { result ≡ align_of w t.now u }
{
    if parse_shapes::operand_count(u) == 0 {
        return base_limits::bytes_of(w);
    }
    parse_lines::value_at(t, u.word + 1)
}

fn fill_of(n: u32, len: u32) -> u32
    ensures { result ≡ fill_of n len }
{
    if n == 0 {
        return 0;
    }
    (n - len % n) % n
}

fn align_size(w: Width, t: &[u32], u: Span, section: u32, len: u32) -> u32
    requires { u.word < limits.greatest_word }
    ensures { result ≡ align_size w t.now u section len }
{
    if section < Ground::DATA_SECTION {
        return 0;
    }
    fill_of(align_of(w, t, u), len)
}

fn size_of(w: Width, t: &[u32], u: Span, k: u32, section: u32, len: u32) -> u32
    requires { u.word < limits.greatest_word }
    ensures { result ≡ size_of w t.now u k section len }
{
    if k == Kind::BYTE {
        return 1;
    }
    if k == Kind::WORD {
        return base_limits::bytes_of(w);
    }
    if k == Kind::STRING {
        return parse_lines::value_at(t, u.word + 1);
    }
    if k == Kind::ALIGN {
        return align_size(w, t, u, section, len);
    }
    0
}

fn room_behind(w: Width, size: u32) -> usize
    ensures { result ≡ data_limit w - size }
{
    let limit = base_limits::data_limit(w);
    if (size as usize) < limit {
        return limit - size as usize;
    }
    0
}

fn cursor_behind(u: Span, k: u32, more: u32, s: Cursor) -> Cursor
    requires { s.size + more < limits.word_values }
    ensures { result ≡ cursor_behind u k more s }
{
    Cursor {
        at: u.next,
        section: parse_units::section_behind(k, s.section),
        size: s.size + more,
    }
}

// Where a line leads: on, or past the limit at its magic word.
fn add_line(w: Width, u: Span, k: u32, more: u32, s: Cursor) -> Result<Option<Cursor>, u32>
    ensures { result ≡ add_line w u k more s }
{
    if room_behind(w, s.size) < more as usize {
        return Err(u.word);
    }
    Ok(Some(cursor_behind(u, k, more, s)))
}

// Where a unit leads: on, to the end, or past the limit at its magic word.
fn next_of(w: Width, t: &[u32], end: u32, u: Span, k: u32, s: Cursor) -> Result<Option<Cursor>, u32>
    requires { u.word < limits.greatest_word }
    ensures { result ≡ next_of w t.now end u k s }
{
    if k == Kind::EDGE {
        return Ok(None);
    }
    if u.word < end {
        return add_line(w, u, k, size_of(w, t, u, k, s.section, s.size), s);
    }
    Ok(None)
}

fn next_at(w: Width, t: &[u32], end: u32, s: Cursor) -> Result<Option<Cursor>, u32>
    requires { CursorFits t.now s }
    ensures { result ≡ next_at w t.now end s }
{
    let u = parse_lines::unit_at(t, s.at);
    let k = parse_lines::line_kind(t, u.word);
    next_of(w, t, end, u, k, s)
}

fn measure_from(w: Width, t: &[u32], end: u32, start: Cursor) -> Result<u32, u32>
    requires { CursorFits t.now start }
    ensures { result ≡ measure_from w t.now end start }
{
    let mut s = start;
    while let Some(y) = next_at(w, t, end, s)? {
        s = y;
    }
    Ok(s.size)
}

fn first_cursor() -> Cursor
    ensures { result ≡ first_cursor }
{
    Cursor {
        at: 0,
        section: Ground::BEFORE_SECTIONS,
        size: 0,
    }
}

// The bytes of all lines before the token `end`, or the magic word of the first that is too big.
pub fn measure(w: Width, t: &[u32], end: u32) -> Result<u32, u32>
    requires { length t.now ≡ limits.token_words }
    ensures { result ≡ measure_of w t.now end }
{
    measure_from(w, t, end, first_cursor())
}

// Some bytes of a number, the low byte first, over the front of a buffer.
fn write_number(count: usize, value: u32, out: &mut [u8])
    ensures { out.new ≡ overlay (word_bytes count value) out.old }
{
    let mut v = value;
    for k in 0..count.min(out.len()) {
        out[k] = (v % 256) as u8;
        v /= 256;
    }
}

fn write_line(w: Width, s: &[u8], t: &[u32], u: Span, k: u32, out: &mut [u8])
    requires { u.word < limits.greatest_word }
    ensures { out.new ≡ overlay (line_bytes w s.now t.now u k) out.old }
{
    if k == Kind::BYTE {
        write_number(1, parse_lines::value_at(t, u.word + 1), out);
        return;
    }
    if k == Kind::WORD {
        write_number(
            base_limits::bytes_of(w) as usize,
            parse_lines::value_at(t, u.word + 1),
            out,
        );
        return;
    }
    if k == Kind::STRING {
        let first = parse_lines::token_word(t, u.word + 1, TokenRow::FIRST);
        lex_spelling::copy_text(true, s, first as usize + 1, out);
    }
}

fn put_line(w: Width, s: &[u8], t: &[u32], u: Span, k: u32, size: u32, out: &mut [u8])
    requires { u.word < limits.greatest_word }
    ensures { out.new ≡ put_bytes out.old size (line_bytes w s.now t.now u k) }
{
    let from = size as usize;
    if from < out.len() {
        write_line(w, s, t, u, k, &mut out[from..]);
    }
}

fn lay_step(w: Width, s: &[u8], t: &[u32], c: Cursor, out: &mut [u8]) -> Result<Option<Cursor>, u32>
    requires { CursorFits t.now c }
    ensures { laid result out.new out.new ≡ lay_step w s.now t.now (laying c out.old) }
{
    let u = parse_lines::unit_at(t, c.at);
    let k = parse_lines::line_kind(t, u.word);
    let next = next_of(w, t, 4098, u, k, c)?;
    if next.is_some() {
        put_line(w, s, t, u, k, c.size, out);
    }
    Ok(next)
}

fn lay_from(w: Width, s: &[u8], t: &[u32], start: Cursor, out: &mut [u8])
    requires { CursorFits t.now start }
    ensures { out.new ≡ lay_from w s.now t.now (laying start out.old) }
{
    let mut c = start;
    // A loop, not a for: each unit says where the next one begins.
    loop {
        match lay_step(w, s, t, c, out) {
            Ok(Some(y)) => c = y,
            Ok(None) => return,
            Err(_) => return,
        }
    }
}

// The address of what a label names, by the token of its magic word.
pub fn address_of(w: Width, t: &[u32], word: u32) -> u32
    requires { length t.now ≡ limits.token_words }
    ensures { result ≡ address_of w t.now word }
{
    measure(w, t, word).unwrap_or(0)
}

// The data of the source s, over a buffer that is zeros where an `align` fills.
pub fn write_image(w: Width, s: &[u8], t: &[u32], out: &mut [u8])
    requires { length t.now ≡ limits.token_words }
    ensures { out.new ≡ image_of w s.now t.now out.old }
{
    lay_from(w, s, t, first_cursor(), out);
}
