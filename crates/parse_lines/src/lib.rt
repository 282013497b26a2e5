// Units and lines of tokens, and the rules that need no state.
#![tactic(auto)]

ghost use Rattle.std.specs.Prelude.{◌≡◌, ◌+◌, ◌*◌, ◌-◌, ◌^◌, ◌≤◌, ◌<◌, length};
ghost use Rattle.base_limits.specs.Limits as limits;
ghost use Rattle.lang_kinds.specs.TokenRow as field;
ghost use Rattle.parse_lines.specs.Tokens.{token_word, place_at, key_at, skip, all_from};
ghost use Rattle.parse_lines.specs.Units.{span_from, span_of, unit_at};
ghost use Rattle.parse_lines.specs.Lines.{section_kind, end_kind, test_kind, else_kind, set_kind, symbol_kind, other_kind, line_kind};

use base_limits::Machine;
use lang_kinds::{Kind, Token, TokenRow};
use lang_words::{Substitutes, Word};

// A unit's first label or magic word, its magic word, and the token behind its line.
#[derive(Clone, Copy)]
pub struct Span {
    pub first: u32,
    pub word: u32,
    pub next: u32,
}

// Word f of token i, 0 behind the table.
pub fn token_word(t: &[u32], i: u32, f: usize) -> u32
    requires { f < limits.token_row }
    ensures { result ≡ token_word t.now i f }
{
    let at = i as usize * Machine::TOKEN_ROW + f;
    if at < t.len() { t[at] } else { 0 }
}

// This and the three below are accessors of one line, a constant each.
pub fn kind_at(t: &[u32], i: u32) -> u32
    ensures { result ≡ token_word t.now i field.kind }
{
    token_word(t, i, TokenRow::KIND)
}

pub fn value_at(t: &[u32], i: u32) -> u32
    ensures { result ≡ token_word t.now i field.value }
{
    token_word(t, i, TokenRow::VALUE)
}

pub fn word_at(t: &[u32], i: u32) -> u32
    ensures { result ≡ token_word t.now i field.word }
{
    token_word(t, i, TokenRow::WORD)
}

// The host's mark of an import's name, 0 for none.
pub fn host_at(t: &[u32], i: u32) -> u32
    ensures { result ≡ token_word t.now i field.host }
{
    token_word(t, i, TokenRow::HOST)
}

// A token's place; the source's length n at its end.
pub fn place_at(t: &[u32], n: u32, i: u32) -> u32
    ensures { result ≡ place_at t.now n i }
{
    if kind_at(t, i) == Token::SOURCE_END {
        return n;
    }
    token_word(t, i, TokenRow::FIRST)
}

pub fn key_at(t: &[u32], n: u32, i: u32, number: u32) -> u64
    requires { number < 64 }
    ensures { result ≡ key_at t.now n i number }
{
    base_prelude::fault(place_at(t, n, i) as usize, number)
}

// The first token from a place on whose kind is not from lo to before hi.
pub fn skip_kinds(t: &[u32], lo: u32, hi: u32, from: u32) -> u32
    requires { (length t.now ≡ limits.token_words) × (1 ≤ lo) }
    ensures { result ≡ skip t.now lo hi from }
{
    let mut i = from;
    // By index: the scan has no end to count to, it stops at the kind 0 behind the table.
    loop {
        let k = kind_at(t, i);
        if k < lo || hi <= k {
            return i;
        }
        i += 1;
    }
}

// Whether all tokens to the line's end have a kind from lo to before hi.
pub fn all_from(t: &[u32], lo: u32, hi: u32, i: u32, next: u32) -> bool
    requires { (length t.now ≡ limits.token_words) × (1 ≤ lo) }
    ensures { result ≡ all_from t.now lo hi i next }
{
    skip_kinds(t, lo, hi, i) == next
}

fn span_from(t: &[u32], first: u32, word: u32) -> Span
    requires { (length t.now ≡ limits.token_words) × (word < limits.greatest_word) }
    ensures { result ≡ span_from t.now first word }
{
    Span {
        first,
        word,
        next: skip_kinds(t, Token::LABEL, Token::PAST_TOKENS, word + 1),
    }
}

fn span_of(t: &[u32], first: u32) -> Span
    requires { (length t.now ≡ limits.token_words) × (first ≤ limits.tokens + 1) }
    ensures { result ≡ span_of t.now first }
{
    span_from(
        t,
        first,
        skip_kinds(t, Token::NEWLINE, Token::SYMBOL, first),
    )
}

// The unit that starts at a token.
pub fn unit_at(t: &[u32], at: u32) -> Span
    requires { (length t.now ≡ limits.token_words) × (at ≤ limits.tokens + 1) }
    ensures { result ≡ unit_at t.now at }
{
    span_of(t, skip_kinds(t, Token::NEWLINE, Token::LABEL, at))
}

fn section_kind(w: u32) -> u32
    ensures { result ≡ section_kind w }
{
    match w {
        Word::DATA => Kind::SECTION_DATA,
        Word::FUNCTIONS => Kind::SECTION_FUNCTIONS,
        Word::CODE => Kind::LEFT_OUT,
        _ => Kind::UNKNOWN,
    }
}

fn end_kind(w: u32) -> u32
    ensures { result ≡ end_kind w }
{
    match w {
        Word::FUNCTION => Kind::END_FUNCTION,
        Word::BLOCK => Kind::END_BLOCK,
        Word::IF => Kind::END_IF,
        Word::GROUP => Kind::END_GROUP,
        _ => Kind::UNKNOWN,
    }
}

fn test_kind(w: u32) -> u32
    ensures { result ≡ test_kind w }
{
    if Word::IFEQ <= w && w < Word::ADD {
        return Kind::ELSE_IF;
    }
    Kind::UNKNOWN
}

fn else_kind(kind: u32, w: u32) -> u32
    ensures { result ≡ else_kind kind w }
{
    if kind < Token::LABEL {
        return Kind::ELSE;
    }
    if kind == Token::SYMBOL {
        return test_kind(w);
    }
    Kind::UNKNOWN
}

fn set_kind(kind: u32) -> u32
    ensures { result ≡ set_kind kind }
{
    match kind {
        Token::AT_SYMBOL | Token::AT_SUBSTITUTE | Token::AT_INTEGER => Kind::SET_AT,
        _ => Kind::SET,
    }
}

fn symbol_kind(w: u32, kind: u32, second: u32) -> u32
    ensures { result ≡ symbol_kind w kind second }
{
    match w {
        Word::SECTION if kind == Token::SYMBOL => section_kind(second),
        Word::END if kind == Token::SYMBOL => end_kind(second),
        Word::SECTION | Word::END => Kind::UNKNOWN,
        Word::ELSE => else_kind(kind, second),
        Word::SET => set_kind(kind),
        _ => lang_kinds::kind_of_word(w),
    }
}

fn other_kind(kind: u32, w: u32) -> u32
    ensures { result ≡ other_kind kind w }
{
    match kind {
        Token::SOURCE_END => Kind::EDGE,
        Token::SUBSTITUTE | Token::AT_SUBSTITUTE if w == Substitutes::SAVED_FRAME_SIZE =>
            Kind::LEFT_OUT,
        _ => Kind::UNKNOWN,
    }
}

// The kind of the line whose magic word is a token.
pub fn line_kind(t: &[u32], i: u32) -> u32
    requires { i < limits.greatest_word }
    ensures { result ≡ line_kind t.now i }
{
    let kind = kind_at(t, i);
    let w = word_at(t, i);
    if kind == Token::SYMBOL {
        return symbol_kind(w, kind_at(t, i + 1), word_at(t, i + 1));
    }
    other_kind(kind, w)
}
