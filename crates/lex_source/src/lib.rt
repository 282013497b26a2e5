// Source bytes to the token table.
#![tactic(auto)]

ghost use Rattle.std.specs.Prelude.{◌≡◌, ◌+◌, ◌*◌, ◌≤◌, ◌<◌, ◌-◌, min, length, take, [], Err};
ghost use Rattle.base_limits.specs.Limits as limits;
ghost use Rattle.base_prelude.specs.Fault.{none};
ghost use Rattle.lex_spelling.specs.Text.{name_at, hash_of};
ghost use Rattle.lex_source.specs.Token.{is_substitute, substitute_value, token_value};
ghost use Rattle.lex_source.specs.Faults.{range_fault, length_fault, limit_fault, follow_fault, fault_of};
ghost use Rattle.lex_source.specs.Filling.{row_named, find_name, word_named, row_from, put_row, filled, fill_by, fill_reading, fill_at};
ghost use Rattle.base_prelude.specs.Lists.{zeros};
ghost use Rattle.base_limits.specs.Limits.{token_row};
ghost use Rattle.lex_source.specs.Fits.{LexemeFits, ReadingFits};
ghost use Rattle.lex_source.specs.Lex.{lex_of, tokens_from, state, answer_of, table_of};

use base_limits::{Machine, Refusal, Width};
use lang_kinds::{Token, TokenRow};
use lang_words::Substitutes;
use lex_lexeme::{Lexeme, TokenError};

// A token row without its last word.
#[derive(Drop)]
pub struct Row {
    pub kind: u32,
    pub first: u32,
    pub next: u32,
    pub value: u32,
    pub name: u32,
    pub word: u32,
    pub hash: u32,
}

// Under a `%`.
pub fn is_substitute(kind: u32) -> bool
    ensures { result ≡ is_substitute kind }
{
    matches!(kind, Token::SUBSTITUTE | Token::AT_SUBSTITUTE)
}

fn substitute_value(w: Width, k: u32) -> u32
    ensures { result ≡ substitute_value w k }
{
    match k {
        Substitutes::BITS_PER_WORD => base_limits::bits_of(w),
        Substitutes::BYTES_PER_WORD => base_limits::bytes_of(w),
        _ => 0,
    }
}

fn value_of(w: Width, kind: u32, value: u32, size: usize, word: u32) -> u32
    requires { size < limits.word_values }
    ensures { result ≡ token_value w kind value size word }
{
    if is_substitute(kind) {
        return substitute_value(w, word);
    }
    match kind {
        Token::INTEGER | Token::AT_INTEGER => value,
        _ => size as u32,
    }
}

fn range_fault(x: Lexeme) -> u64
    ensures { result ≡ range_fault x }
{
    if x.value.is_some() {
        return 1099511627776;
    }
    base_prelude::fault(x.first, 5)
}

fn length_fault(x: Lexeme) -> u64
    ensures { result ≡ length_fault x }
{
    if lex_lexeme::is_named(x.kind) && Machine::NAME_BYTES < x.size {
        return base_prelude::fault(x.first, 6);
    }
    1099511627776
}

fn limit_fault(n: usize, place: usize) -> u64
    ensures { result ≡ limit_fault n place }
{
    if n < Machine::TOKENS {
        return 1099511627776;
    }
    base_prelude::fault(place, 14)
}

fn follow_fault(s: &[u8], x: Lexeme) -> u64
    ensures { result ≡ follow_fault s.now x }
{
    if x.kind < Token::SYMBOL || lex_spelling::is_separator(base_prelude::byte_at(s, x.next)) {
        return 1099511627776;
    }
    base_prelude::fault(x.next, 2)
}

fn token_fault(s: &[u8], n: usize, x: Lexeme) -> u64
    ensures { result ≡ min (range_fault x) (min (length_fault x) (min (limit_fault n x.first) (follow_fault s.now x))) }
{
    let last = limit_fault(n, x.first).min(follow_fault(s, x));
    range_fault(x).min(length_fault(x).min(last))
}

// The least fault of what is read behind n tokens.
fn fault_of(s: &[u8], n: usize, r: Result<Option<Lexeme>, TokenError>) -> u64
    ensures { result ≡ fault_of s.now n r }
{
    match r {
        Ok(None) => 1099511627776,
        Ok(Some(x)) => token_fault(s, n, x),
        Err(TokenError::Lone(p)) => base_prelude::fault(p, 2),
        Err(TokenError::Broken(p)) => base_prelude::fault(p, 3),
        Err(TokenError::Open(p)) => base_prelude::fault(p, 4).min(limit_fault(n, p)),
    }
}

// Whether the token of row k has the name that starts at a place.
fn row_named(s: &[u8], t: &[u32], k: usize, hash: u32, start: usize) -> bool
    requires { k * token_row + token_row ≤ length t.now }
    ensures { result ≡ row_named s.now t.now k hash start }
{
    if t[k * Machine::TOKEN_ROW + TokenRow::HASH] == hash {
        let kind = t[k * Machine::TOKEN_ROW];
        if lex_lexeme::is_named(kind) {
            return lex_spelling::same_name(
                s,
                lex_lexeme::name_start(s, kind, t[k * Machine::TOKEN_ROW + TokenRow::FIRST]),
                start,
            );
        }
        return false;
    }
    false
}

// The first of n rows with the name that starts at a place.
fn find_name(s: &[u8], t: &[u32], n: usize, hash: u32, start: usize) -> usize
    requires { n * token_row ≤ length t.now }
    ensures { result ≡ find_name s.now t.now n hash start }
{
    for k in 0..n {
        if row_named(s, t, k, hash, start) {
            return k;
        }
    }
    n
}

fn lookup_in(kind: u32, name: &[u8]) -> u32
    ensures { result ≡ word_named kind name.now }
{
    if is_substitute(kind) {
        return lang_words::substitute(name);
    }
    lang_words::known(name)
}

fn lookup_front(kind: u32, name: &[u8], size: usize) -> u32
    requires { size ≤ length name.now }
    ensures { result ≡ word_named kind (take size name.now) }
{
    lookup_in(kind, &name[..size])
}

// The reserved word or substitute that a name is.
fn word_at(s: &[u8], kind: u32, start: usize, size: usize) -> u32
    requires { (size ≡ length (name_at s.now start)) × (size ≤ limits.name_bytes) }
    ensures { result ≡ word_named kind (name_at s.now start) }
{
    let mut name = [0u8; Machine::NAME_BYTES];
    lex_spelling::copy_text(false, s, start, &mut name);
    lookup_front(kind, &name, size)
}

// The row of a token behind n others.
fn row_from(w: Width, s: &[u8], t: &[u32], n: usize, x: Lexeme) -> Row
    requires { LexemeFits s.now t.now n x }
    ensures { result ≡ row_from w s.now t.now n x }
{
    if lex_lexeme::is_named(x.kind) {
        let word = word_at(s, x.kind, x.start, x.size);
        return Row {
            kind: x.kind,
            first: x.first as u32,
            next: x.next as u32,
            value: value_of(w, x.kind, x.value.unwrap_or(0), x.size, word),
            name: find_name(s, t, n, x.hash, x.start) as u32,
            word,
            hash: x.hash,
        };
    }
    Row {
        kind: x.kind,
        first: x.first as u32,
        next: x.next as u32,
        value: value_of(w, x.kind, x.value.unwrap_or(0), x.size, 0),
        name: 0,
        word: 0,
        hash: x.hash,
    }
}

fn put_row(t: &mut [u32], n: usize, r: Row)
    requires { n * token_row + token_row ≤ length t.old }
    ensures { t.new ≡ put_row t.old n r }
{
    t[n * Machine::TOKEN_ROW] = r.kind;
    t[n * Machine::TOKEN_ROW + TokenRow::FIRST] = r.first;
    t[n * Machine::TOKEN_ROW + TokenRow::NEXT] = r.next;
    t[n * Machine::TOKEN_ROW + TokenRow::VALUE] = r.value;
    t[n * Machine::TOKEN_ROW + TokenRow::NAME] = r.name;
    t[n * Machine::TOKEN_ROW + TokenRow::WORD] = r.word;
    t[n * Machine::TOKEN_ROW + TokenRow::HASH] = r.hash;
    t[n * Machine::TOKEN_ROW + TokenRow::STATEMENT] = 0;
}

fn add_token(w: Width, s: &[u8], t: &mut [u32], n: usize, x: Lexeme)
    requires { LexemeFits s.now t.old n x }
    ensures { t.new ≡ put_row t.old n (row_from w s.now t.old n x) }
{
    let r = row_from(w, s, t, n, x);
    put_row(t, n, r);
}

// Adds the token that is read, where one is: the place behind it, none at the source's end, or a fault.
fn fill(
    w: Width,
    s: &[u8],
    t: &mut [u32],
    n: usize,
    r: Result<Option<Lexeme>, TokenError>,
) -> Result<Option<usize>, u64>
    requires { ReadingFits s.now t.old n r }
    ensures { filled result t.new ≡ fill_by w s.now t.old n r }
{
    match r {
        Ok(None) => Ok(None),
        Ok(Some(x)) => {
            add_token(w, s, t, n, x);
            Ok(Some(x.next))
        }
        Err(_) => Err(1099511627776),
    }
}

fn fill_at(w: Width, s: &[u8], t: &mut [u32], n: usize, at: usize) -> Result<Option<usize>, u64>
    requires { (length s.now ≤ limits.source_bytes) × (length t.old ≡ limits.token_words) × (n ≤ limits.tokens) × (at ≤ length s.now) }
    ensures { filled result t.new ≡ fill_at w s.now t.old n at }
{
    let r = lex_lexeme::next_token(w, s, at);
    let k = fault_of(s, n, r);
    if k < 1099511627776 {
        return Err(k);
    }
    fill(w, s, t, n, r)
}

fn lex_from(w: Width, s: &[u8], t: &mut [u32]) -> Result<usize, Refusal>
    requires { (length s.now ≤ limits.source_bytes) × (length t.old ≡ limits.token_words) }
    ensures value { result ≡ answer_of (tokens_from w s.now (state 0 [])) }
    ensures t_after { t.new ≡ table_of (tokens_from w s.now (state 0 [])) }
{
    let mut at: usize = 0;
    let mut n: usize = 0;
    // By index: a step leads behind a token, and n is the answer.
    loop {
        match fill_at(w, s, t, n, at) {
            Ok(Some(next)) => {
                n += 1;
                at = next;
            }
            Ok(None) => {
                base_prelude::clear_from(t, n * Machine::TOKEN_ROW);
                return Ok(n);
            }
            Err(k) => {
                base_prelude::clear_from(t, 0);
                return Err(Refusal {
                    number: (k % 64) as u32,
                    place: (k / 64) as usize,
                });
            }
        }
    }
}

fn refuse_long(t: &mut [u32]) -> Result<usize, Refusal>
    ensures { (result ≡ Err (record { number = 1; place = limits.source_bytes })) × (t.new ≡ zeros (length t.old)) }
{
    base_prelude::clear_from(t, 0);
    Err(Refusal {
        number: 1,
        place: Machine::SOURCE_BYTES,
    })
}

// The tokens of a source into the token table: rows, then zeros; all zeros on a refusal.
pub fn lex(w: Width, s: &[u8], t: &mut [u32; Machine::TOKEN_WORDS]) -> Result<usize, Refusal>
    ensures value { result ≡ answer_of (lex_of w s.now) }
    ensures t_after { t.new ≡ table_of (lex_of w s.now) }
{
    if Machine::SOURCE_BYTES < s.len() {
        return refuse_long(t);
    }
    lex_from(w, s, t)
}
