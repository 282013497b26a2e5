// Tokens as they are read: gaps, integers, symbols, strings, and the marks `%` and `@`.
#![tactic(auto)]

ghost use Rattle.std.specs.Prelude.{◌≡◌, ◌+◌, ◌*◌, ◌≤◌, ◌<◌, ◌-◌, ◌^◌, min, length};
ghost use Rattle.base_limits.specs.Limits.{word_values};
ghost use Rattle.base_limits.specs.Width.{bits_of};
ghost use Rattle.lex_lexeme.specs.Number.{digit_from, digit_at, digits_at, decimal_of, half_of, whole_of, integer_of};
ghost use Rattle.lex_lexeme.specs.Gap.{comment_end, gap_skip, gap_end};
ghost use Rattle.lex_lexeme.specs.Reading.{starts_symbol, starts_integer, texted, valued, symbol_to, symbol_by, symbol_at, string_to, string_by, string_read, digits_read, integer_at, marked_from, marked_at, at_from, at_read, plain_read, token_at, next_read, is_named, name_start};
ghost use Rattle.lex_spelling.specs.Text.{end_of};

use base_limits::{Machine, Width};
use lang_kinds::Token;
use lex_spelling::{Decoded, Ending, Spelled};

// Digits read: how many, their value, at most 2^32, and the place behind them.
#[derive(Drop)]
pub struct Decimal {
    pub count: usize,
    pub value: u64,
    pub next: usize,
}

// A token: its kind, first byte, first byte of its text, next byte, its text's size and hash, and an integer's word, none where
// it is out of range.
#[derive(Clone, Copy)]
pub struct Lexeme {
    pub kind: u32,
    pub first: usize,
    pub start: usize,
    pub next: usize,
    pub size: usize,
    pub hash: u32,
    pub value: Option<u32>,
}

// Why no token is read: a byte that starts none, a bad escape, or a string that does not end, each with its place.
#[derive(Clone, Copy)]
pub enum TokenError {
    Lone(usize),
    Broken(usize),
    Open(usize),
}

fn digit_from(s: &[u8], at: usize) -> Result<Decoded, usize>
    requires { at < length s.now }
    ensures { result ≡ digit_from s.now at }
{
    let c = base_prelude::byte_at(s, at);
    if lex_spelling::is_digit(c) {
        return Ok(Decoded {
            value: c - 48,
            next: at + 1,
        });
    }
    Err(at)
}

// The digit at a place, or the place behind continuations where none stands.
fn read_digit(s: &[u8], at: usize) -> Result<Decoded, usize>
    ensures { result ≡ digit_at s.now at }
{
    let i = lex_spelling::join(s, at);
    if i < s.len() {
        return digit_from(s, i);
    }
    Err(i)
}

// One digit more, at most 2^32.
fn push(value: u64, digit: u32) -> u64
    requires { value ≤ word_values }
    ensures { result ≡ min (value * 10 + digit) word_values }
{
    (value * 10 + u64::from(digit)).min(Machine::WORD_VALUES)
}

fn read_digits(s: &[u8], at: usize) -> Decimal
    ensures { result ≡ decimal_of (digits_at s.now at) }
{
    let mut i = at;
    let mut count: usize = 0;
    let mut value: u64 = 0;
    // By index: a step leads behind a digit and the continuations before it.
    loop {
        match read_digit(s, i) {
            Ok(x) => {
                count += 1;
                value = push(value, x.value);
                i = x.next;
            }
            Err(next) => return Decimal { count, value, next },
        }
    }
}

// A table of constants, as whole_of: one function with both would only move the numbers.
fn half_of(w: Width) -> u64
    ensures { result ≡ half_of w }
{
    match w {
        Width::Bits32 => 2147483648,
        Width::Bits16 => 32768,
    }
}

fn whole_of(w: Width) -> u64
    ensures { result ≡ whole_of w }
{
    match w {
        Width::Bits32 => Machine::WORD_VALUES,
        Width::Bits16 => 65536,
    }
}

// The word of an integer of a magnitude, where it is in range.
fn to_word(w: Width, negative: bool, v: u64) -> Option<u32>
    ensures { result ≡ integer_of w negative v }
{
    let whole = whole_of(w);
    if negative {
        if half_of(w) < v {
            return None;
        }
        return Some(((whole - v) % whole) as u32);
    }
    if v < whole {
        return Some(v as u32);
    }
    None
}

pub fn starts_symbol(c: u32) -> bool
    ensures { result ≡ starts_symbol c }
{
    lex_spelling::is_letter(c) || c == 92
}

pub fn starts_integer(c: u32) -> bool
    ensures { result ≡ starts_integer c }
{
    lex_spelling::is_digit(c) || c == 43 || c == 45
}

fn with_text(kind: u32, first: usize, start: usize, next: usize, size: usize, hash: u32) -> Lexeme
    ensures { result ≡ texted kind first start next size hash }
{
    Lexeme {
        kind,
        first,
        start,
        next,
        size,
        hash,
        value: Some(0),
    }
}

fn with_value(kind: u32, first: usize, next: usize, value: Option<u32>) -> Lexeme
    ensures { result ≡ valued kind first next value }
{
    Lexeme {
        kind,
        first,
        start: first,
        next,
        size: 0,
        hash: 0,
        value,
    }
}

// The place before byte 10, or the end.
fn comment_end(s: &[u8], at: usize) -> usize
    ensures { result ≡ comment_end s.now at }
{
    for i in at..s.len() {
        if s[i] == b'\n' {
            return i;
        }
    }
    at.max(s.len())
}

// One blank, comment or continuation less.
fn skip_one(s: &[u8], i: usize) -> usize
    requires { i < length s.now }
    ensures { result ≡ gap_skip s.now i }
{
    let c = base_prelude::byte_at(s, i);
    if lex_spelling::is_blank(c) {
        return i + 1;
    }
    if c == 35 {
        return comment_end(s, i + 1);
    }
    if lex_spelling::is_joint(s, i) {
        return i + 2;
    }
    i
}

// The place where the next token may start.
pub fn gap_end(s: &[u8], at: usize) -> usize
    ensures { result ≡ gap_end s.now at }
{
    let mut i = at;
    // By index: a step leads over a blank, a comment or a continuation, so it is not one.
    while i < s.len() {
        let j = skip_one(s, i);
        if i < j {
            i = j;
        } else {
            return i;
        }
    }
    i
}

fn symbol_to(
    s: &[u8],
    kind: u32,
    first: usize,
    start: usize,
    size: usize,
    hash: u32,
    p: usize,
) -> Lexeme
    requires { p ≤ length s.now }
    ensures { result ≡ symbol_to s.now kind first start size hash p }
{
    if kind == Token::SYMBOL {
        if base_prelude::byte_at(s, p) == 58 {
            return with_text(Token::LABEL, first, start, p + 1, size, hash);
        }
        return with_text(Token::SYMBOL, first, start, p, size, hash);
    }
    with_text(kind, first, start, p, size, hash)
}

fn symbol_end(
    s: &[u8],
    kind: u32,
    first: usize,
    start: usize,
    x: Spelled,
) -> Result<Lexeme, TokenError>
    requires { end_of x.ending ≤ length s.now }
    ensures { result ≡ symbol_by s.now kind first start x }
{
    match x.ending {
        Ending::Stopped(p) => Ok(symbol_to(s, kind, first, start, x.size, x.hash, p)),
        Ending::Broken(p) => Err(TokenError::Broken(p)),
    }
}

// A token whose symbol starts at a place.
fn read_symbol(s: &[u8], kind: u32, first: usize, start: usize) -> Result<Lexeme, TokenError>
    requires { start ≤ length s.now }
    ensures { result ≡ symbol_at s.now kind first start }
{
    symbol_end(s, kind, first, start, lex_spelling::spell(false, s, start))
}

fn string_to(s: &[u8], first: usize, size: usize, hash: u32, p: usize) -> Result<Lexeme, TokenError>
    requires { (p ≤ length s.now) × (first < length s.now) }
    ensures { result ≡ string_to s.now first size hash p }
{
    if base_prelude::byte_at(s, p) == 34 {
        return Ok(with_text(
            Token::STRING,
            first,
            first + 1,
            lex_spelling::join(s, p + 1),
            size,
            hash,
        ));
    }
    Err(TokenError::Open(first))
}

fn string_end(s: &[u8], first: usize, x: Spelled) -> Result<Lexeme, TokenError>
    requires { (end_of x.ending ≤ length s.now) × (first < length s.now) }
    ensures { result ≡ string_by s.now first x }
{
    match x.ending {
        Ending::Stopped(p) => string_to(s, first, x.size, x.hash, p),
        Ending::Broken(p) => Err(TokenError::Broken(p)),
    }
}

// The string whose opening quote stands at a place.
fn read_string(s: &[u8], first: usize) -> Result<Lexeme, TokenError>
    requires { first < length s.now }
    ensures { result ≡ string_read s.now first }
{
    string_end(s, first, lex_spelling::spell(true, s, first + 1))
}

fn read_unsigned(
    w: Width,
    s: &[u8],
    kind: u32,
    first: usize,
    negative: bool,
    at: usize,
) -> Result<Lexeme, TokenError>
    ensures { result ≡ digits_read w s.now kind first negative at }
{
    let d = read_digits(s, at);
    if d.count == 0 {
        return Err(TokenError::Lone(first));
    }
    Ok(with_value(kind, first, d.next, to_word(w, negative, d.value)))
}

// An integer whose sign or first digit stands at a place.
fn read_integer(
    w: Width,
    s: &[u8],
    kind: u32,
    first: usize,
    at: usize,
) -> Result<Lexeme, TokenError>
    requires { at < length s.now }
    ensures { result ≡ integer_at w s.now kind first at }
{
    let c = base_prelude::byte_at(s, at);
    if c == 45 {
        return read_unsigned(w, s, kind, first, true, at + 1);
    }
    if c == 43 {
        return read_unsigned(w, s, kind, first, false, at + 1);
    }
    read_unsigned(w, s, kind, first, false, at)
}

fn marked_from(s: &[u8], kind: u32, first: usize, at: usize) -> Result<Lexeme, TokenError>
    requires { at ≤ length s.now }
    ensures { result ≡ marked_from s.now kind first at }
{
    if starts_symbol(base_prelude::byte_at(s, at)) {
        return read_symbol(s, kind, first, at);
    }
    Err(TokenError::Lone(first))
}

// What stands behind a `%`.
fn read_marked(s: &[u8], kind: u32, first: usize, at: usize) -> Result<Lexeme, TokenError>
    requires { at ≤ length s.now }
    ensures { result ≡ marked_at s.now kind first at }
{
    marked_from(s, kind, first, lex_spelling::join(s, at))
}

fn at_from(w: Width, s: &[u8], first: usize, at: usize) -> Result<Lexeme, TokenError>
    requires { at ≤ length s.now }
    ensures { result ≡ at_from w s.now first at }
{
    let c = base_prelude::byte_at(s, at);
    if c == 37 {
        return read_marked(s, Token::AT_SUBSTITUTE, first, at + 1);
    }
    if starts_symbol(c) {
        return read_symbol(s, Token::AT_SYMBOL, first, at);
    }
    if starts_integer(c) {
        return read_integer(w, s, Token::AT_INTEGER, first, at);
    }
    Err(TokenError::Lone(first))
}

// The token whose `@` stands at a place.
fn read_at_sign(w: Width, s: &[u8], first: usize) -> Result<Lexeme, TokenError>
    requires { first < length s.now }
    ensures { result ≡ at_read w s.now first }
{
    at_from(w, s, first, lex_spelling::join(s, first + 1))
}

// A token that starts with no mark.
fn read_plain(w: Width, s: &[u8], at: usize, c: u32) -> Result<Lexeme, TokenError>
    requires { at < length s.now }
    ensures { result ≡ plain_read w s.now at c }
{
    if starts_symbol(c) {
        return read_symbol(s, Token::SYMBOL, at, at);
    }
    if starts_integer(c) {
        return read_integer(w, s, Token::INTEGER, at, at);
    }
    Err(TokenError::Lone(at))
}

// The token at a place.
fn read_token(w: Width, s: &[u8], at: usize) -> Result<Lexeme, TokenError>
    requires { at < length s.now }
    ensures { result ≡ token_at w s.now at }
{
    let c = base_prelude::byte_at(s, at);
    match c {
        10 => Ok(with_value(Token::NEWLINE, at, at + 1, Some(0))),
        34 => read_string(s, at),
        37 => read_marked(s, Token::SUBSTITUTE, at, at + 1),
        64 => read_at_sign(w, s, at),
        _ => read_plain(w, s, at, c),
    }
}

// The first token from a place on, or none where the source ends.
pub fn next_token(w: Width, s: &[u8], at: usize) -> Result<Option<Lexeme>, TokenError>
    ensures { result ≡ next_read w s.now at }
{
    let i = gap_end(s, at);
    if i < s.len() {
        return read_token(w, s, i).map(Some);
    }
    Ok(None)
}

// A symbol, plain, as a label, or under a mark. One line, as parse_shapes.is_operator: two bounds passed are no plainer.
pub fn is_named(kind: u32) -> bool
    ensures { result ≡ is_named kind }
{
    Token::LABEL <= kind && kind < Token::INTEGER
}

// Where the symbol of a token starts.
pub fn name_start(s: &[u8], kind: u32, first: u32) -> usize
    ensures { result ≡ name_start s.now kind first }
{
    let at = first as usize;
    if kind < Token::SUBSTITUTE {
        return at;
    }
    if kind == Token::AT_SUBSTITUTE {
        return lex_spelling::join(s, lex_spelling::join(s, at + 1) + 1);
    }
    lex_spelling::join(s, at + 1)
}
