// Characters and texts: continuations, escapes, and the decoded bytes of symbols and strings.
#![tactic(auto)]

ghost use Rattle.std.specs.Prelude.{◌≡◌, ◌+◌, ◌≤◌, ◌<◌, length};
ghost use Rattle.base_prelude.specs.Lists.{same_list, overlay};
ghost use Rattle.lex_spelling.specs.Classes.{is_blank, is_letter, is_digit, is_name_byte, is_separator};
ghost use Rattle.lex_spelling.specs.Continuation.{blanks_end, is_joint, joined};
ghost use Rattle.lex_spelling.specs.Escape.{hex_of, plain_of, bad_place, plain_at, hex_from, escape_at};
ghost use Rattle.lex_spelling.specs.Text.{in_string, in_symbol, raw_at, character_from, character_at, spelled_at, name_at, mix, measured};
ghost use Rattle.lex_spelling.specs.Pair.{pair_of, pair_at};

use base_limits::Machine;
use std::ops::ControlFlow;

// A decoded byte: its value, and the place behind it.
#[derive(Clone, Copy)]
pub struct Decoded {
    pub value: u32,
    pub next: usize,
}

// Where and how a text ends: before what is no character of it, or at the byte that breaks an escape.
#[derive(Clone, Copy)]
pub enum Ending {
    Stopped(usize),
    Broken(usize),
}

// A text's number of decoded bytes, their hash, and its end.
#[derive(Drop)]
pub struct Spelled {
    pub size: usize,
    pub hash: u32,
    pub ending: Ending,
}

pub fn is_blank(c: u32) -> bool
    ensures { result ≡ is_blank c }
{
    matches!(c, 32 | 9 | 13)
}

pub fn is_digit(c: u32) -> bool
    ensures { result ≡ is_digit c }
{
    matches!(c, 48..=57)
}

// A letter or an underscore.
pub fn is_letter(c: u32) -> bool
    ensures { result ≡ is_letter c }
{
    matches!(c, 65..=90 | 95 | 97..=122)
}

pub fn is_name_byte(c: u32) -> bool
    ensures { result ≡ is_name_byte c }
{
    is_letter(c) || is_digit(c) || c == 45
}

// What may follow a token: a blank, byte 10, a comment or the end.
pub fn is_separator(c: u32) -> bool
    ensures { result ≡ is_separator c }
{
    matches!(c, 32 | 9 | 13 | 10 | 35 | 256)
}

// The place after the blanks from a place on.
pub fn blanks_end(s: &[u8], at: usize) -> usize
    ensures { result ≡ blanks_end s.now at }
{
    for i in at..s.len() {
        if !is_blank(base_prelude::byte_at(s, i)) {
            return i;
        }
    }
    at.max(s.len())
}

// Whether a continuation starts at a place.
pub fn is_joint(s: &[u8], at: usize) -> bool
    requires { at < length s.now }
    ensures { result ≡ is_joint s.now at }
{
    base_prelude::byte_at(s, at) == 92 && base_prelude::byte_at(s, at + 1) == 10
}

// The place after the continuations at a place.
pub fn join(s: &[u8], at: usize) -> usize
    ensures { result ≡ joined s.now at }
{
    let mut i = at;
    // By index: a step leads over a continuation and its blanks, so it is not one.
    while i < s.len() && is_joint(s, i) {
        i = blanks_end(s, i + 2);
    }
    i
}

// The value of a hex digit, 16 of any other byte.
fn hex(c: u32) -> u32
    ensures { result ≡ hex_of c }
{
    match c {
        48..=57 => c - 48,
        65..=70 => c - 55,
        97..=102 => c - 87,
        _ => 16,
    }
}

fn plain(c: u32) -> u32
    ensures { result ≡ plain_of c }
{
    match c {
        92 => 92,
        34 => 34,
        110 => 10,
        114 => 13,
        116 => 9,
        32 => 32,
        _ => 256,
    }
}

// The place behind a backslash and the n bytes that go on with its escape.
fn bad_place(at: usize, n: usize) -> usize
    requires { at + n < 18446744073709551615 }
    ensures { result ≡ bad_place at n }
{
    at + 1 + n
}

fn plain_at(at: usize, v: u32) -> Result<Decoded, usize>
    requires { at + 1 < 18446744073709551615 }
    ensures { result ≡ plain_at at v }
{
    if v < 256 {
        return Ok(Decoded {
            value: v,
            next: at + 2,
        });
    }
    Err(bad_place(at, 0))
}

// The escape whose backslash stands at a place, with an `x` behind it.
fn hex_from(s: &[u8], at: usize) -> Result<Decoded, usize>
    requires { at < length s.now }
    ensures { result ≡ hex_from s.now at }
{
    let a = hex(base_prelude::byte_at(s, at + 2));
    if a < 16 {
        let b = hex(base_prelude::byte_at(s, at + 3));
        if b < 16 {
            return Ok(Decoded {
                value: a * 16 + b,
                next: at + 4,
            });
        }
        return Err(bad_place(at, 2));
    }
    Err(bad_place(at, 1))
}

// What the escape whose backslash stands at a place stands for, or the place of the byte that breaks it.
pub fn escape(s: &[u8], at: usize) -> Result<Decoded, usize>
    requires { at < length s.now }
    ensures { result ≡ escape_at s.now at }
{
    let c = base_prelude::byte_at(s, at + 1);
    if c == 120 {
        return hex_from(s, at);
    }
    plain_at(at, plain(c))
}

fn string_byte(c: u32, at: usize) -> Result<Decoded, Ending>
    requires { at < 18446744073709551615 }
    ensures { result ≡ in_string c at }
{
    if c == 34 || c == 10 || 256 <= c {
        return Err(Ending::Stopped(at));
    }
    Ok(Decoded {
        value: c,
        next: at + 1,
    })
}

fn symbol_byte(c: u32, at: usize) -> Result<Decoded, Ending>
    requires { at < 18446744073709551615 }
    ensures { result ≡ in_symbol c at }
{
    if is_name_byte(c) {
        return Ok(Decoded {
            value: c,
            next: at + 1,
        });
    }
    Err(Ending::Stopped(at))
}

fn raw_byte(quoted: bool, c: u32, at: usize) -> Result<Decoded, Ending>
    requires { at < 18446744073709551615 }
    ensures { result ≡ raw_at quoted c at }
{
    if quoted {
        return string_byte(c, at);
    }
    symbol_byte(c, at)
}

fn character_from(quoted: bool, s: &[u8], at: usize) -> Result<Decoded, Ending>
    requires { at < length s.now }
    ensures { result ≡ character_from quoted s.now at }
{
    let c = base_prelude::byte_at(s, at);
    if c == 92 {
        return escape(s, at).map_err(Ending::Broken);
    }
    raw_byte(quoted, c, at)
}

// The character at a place of a string (quoted) or a symbol, or where and how the text ends there.
pub fn read_character(quoted: bool, s: &[u8], at: usize) -> Result<Decoded, Ending>
    ensures { result ≡ character_at quoted s.now at }
{
    let i = join(s, at);
    if i < s.len() {
        return character_from(quoted, s, i);
    }
    Err(Ending::Stopped(i))
}

// One byte more in a hash.
fn mixed(hash: u32, value: u32) -> u32
    ensures { result ≡ mix hash value }
{
    ((u64::from(hash) * 16777619 + u64::from(value)) % Machine::WORD_VALUES) as u32
}

// The text of a string (quoted) or a symbol from a place on, measured.
pub fn spell(quoted: bool, s: &[u8], at: usize) -> Spelled
    ensures { result ≡ measured (spelled_at quoted s.now at) }
{
    let mut i = at;
    let mut size: usize = 0;
    let mut hash: u32 = 0;
    // By index: a step leads behind a character, which may be of several bytes.
    loop {
        match read_character(quoted, s, i) {
            Ok(x) => {
                size += 1;
                hash = mixed(hash, x.value);
                i = x.next;
            }
            Err(ending) => return Spelled { size, hash, ending },
        }
    }
}

// Two characters side by side: the places behind both where they are the same byte, else whether both texts end.
fn pair(a: Result<Decoded, Ending>, b: Result<Decoded, Ending>) -> ControlFlow<bool, (usize, usize)>
    ensures { result ≡ pair_of a b }
{
    match (a, b) {
        (Ok(x), Ok(y)) => {
            if x.value == y.value {
                ControlFlow::Continue((x.next, y.next))
            } else {
                ControlFlow::Break(false)
            }
        }
        (Err(_), Err(_)) => ControlFlow::Break(true),
        (Ok(_), Err(_)) => ControlFlow::Break(false),
        (Err(_), Ok(_)) => ControlFlow::Break(false),
    }
}

fn pair_at(s: &[u8], i: usize, j: usize) -> ControlFlow<bool, (usize, usize)>
    ensures { result ≡ pair_at s.now i j }
{
    pair(read_character(false, s, i), read_character(false, s, j))
}

// Whether the symbols at two places have the same decoded bytes, all of them.
pub fn same_name(s: &[u8], p: usize, q: usize) -> bool
    ensures { result ≡ same_list (name_at s.now p) (name_at s.now q) }
{
    let mut i = p;
    let mut j = q;
    // By index: a step leads behind a character of each text, which may be of several bytes.
    loop {
        match pair_at(s, i, j) {
            ControlFlow::Continue((one, two)) => {
                i = one;
                j = two;
            }
            ControlFlow::Break(same) => return same,
        }
    }
}

fn narrow(v: u32) -> u8
    requires { v < 256 }
    ensures { result ≡ v }
{
    // No `try_from`: it would add a branch that never runs.
    v as u8
}

// The decoded bytes of a string (quoted) or a symbol over the front of a buffer, as many as it has room for.
pub fn copy_text(quoted: bool, s: &[u8], at: usize, out: &mut [u8])
    ensures { out.new ≡ overlay (spelled_at quoted s.now at).bytes out.old }
{
    let mut i = at;
    for k in 0..out.len() {
        let Ok(x) = read_character(quoted, s, i) else {
            return;
        };
        out[k] = narrow(x.value);
        i = x.next;
    }
}
