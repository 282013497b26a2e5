// The rules on lines that need no state: each gives the least fault it finds.
#![tactic(auto)]

ghost use Rattle.std.specs.Prelude.{◌≡◌, ◌+◌, ◌-◌, ◌≤◌, ◌<◌, min, length};
ghost use Rattle.base_limits.specs.Limits as limits;
ghost use Rattle.base_prelude.specs.Fault.{none};
ghost use Rattle.parse_rules.specs.Rules.{shape_rule, left_rule, is_head, head_at, own_word, name_key, substitute_key, token_key, tokens_least, tokens_rule, past_most, list_rule, reserved_label, label_limit, label_key, labelled, label_step, labels_from, labels_rule};

use base_limits::{Machine, Width};
use lang_kinds::{Kind, Token};
use lang_words::{Substitutes, Word};
use parse_lines::Span;

const MOST_LABELS: u32 = Machine::LABELS as u32;

// The least fault of a unit's labels, and the number of labels up to its end.
#[derive(Drop)]
pub struct Labelled {
    pub fault: u64,
    pub count: u32,
}

// 7: an unknown word or shape.
pub fn shape_rule(w: Width, t: &[u32], n: u32, u: Span, k: u32) -> u64
    requires { (length t.now ≡ limits.token_words) × (u.word < limits.greatest_word - 3) }
    ensures { result ≡ shape_rule w t.now n u k }
{
    match k {
        Kind::EDGE | Kind::LEFT_OUT => 1099511627776,
        Kind::UNKNOWN => parse_lines::key_at(t, n, u.word, 7),
        _ => {
            if parse_shapes::shape_fits(w, t, u, k) {
                return 1099511627776;
            }
            parse_lines::key_at(t, n, u.word, 7)
        }
    }
}

// 9: a left-out word, in any shape and place.
pub fn left_rule(t: &[u32], n: u32, u: Span, k: u32) -> u64
    ensures { result ≡ left_rule t.now n u k }
{
    if k == Kind::LEFT_OUT {
        return parse_lines::key_at(t, n, u.word, 9);
    }
    1099511627776
}

fn is_head(t: &[u32], i: u32) -> bool
    ensures { result ≡ is_head t.now i }
{
    let w = parse_lines::word_at(t, i);
    parse_shapes::is_name(t, i) && (w == Word::CALL || parse_shapes::is_operator(w))
}

fn head_at(t: &[u32], i: u32) -> u32
    ensures { result ≡ head_at t.now i }
{
    if is_head(t, i) {
        return i;
    }
    0
}

// The token that is a reserved word in its own place.
fn own_word(t: &[u32], u: Span, k: u32) -> u32
    requires { u.word < limits.greatest_word - 3 }
    ensures { result ≡ own_word t.now u k }
{
    match k {
        Kind::END_FUNCTION | Kind::END_BLOCK | Kind::END_IF | Kind::END_GROUP | Kind::ELSE_IF =>
            u.word + 1,
        Kind::RETURN => head_at(t, u.word + 1),
        Kind::LET | Kind::SET | Kind::SET_AT => head_at(t, u.word + 2),
        _ => 0,
    }
}

// 8: a reserved word as a name, if it is not in its own place.
fn name_key(t: &[u32], n: u32, own: u32, i: u32) -> u64
    ensures { result ≡ name_key t.now n own i }
{
    if i == own {
        return 1099511627776;
    }
    reserved_label(t, n, i)
}

// 7 and 9: substitutes that stand for nothing.
fn substitute_key(t: &[u32], n: u32, i: u32) -> u64
    ensures { result ≡ substitute_key t.now n i }
{
    let w = parse_lines::word_at(t, i);
    match w {
        Substitutes::BITS_PER_WORD | Substitutes::BYTES_PER_WORD => 1099511627776,
        Substitutes::SAVED_FRAME_SIZE => parse_lines::key_at(t, n, i, 9),
        _ => parse_lines::key_at(t, n, i, 7),
    }
}

fn token_key(t: &[u32], n: u32, own: u32, i: u32) -> u64
    ensures { result ≡ token_key t.now n own i }
{
    match parse_lines::kind_at(t, i) {
        Token::SYMBOL | Token::AT_SYMBOL => name_key(t, n, own, i),
        Token::SUBSTITUTE | Token::AT_SUBSTITUTE => substitute_key(t, n, i),
        _ => 1099511627776,
    }
}

// The least over the tokens from one to before another.
fn tokens_least(t: &[u32], n: u32, own: u32, from: u32, next: u32) -> u64
    ensures { result ≡ tokens_least (next - from) t.now n own from }
{
    let mut best: u64 = 1099511627776;
    for i in from..next {
        best = best.min(token_key(t, n, own, i));
    }
    best
}

// Reserved words as names, and substitutes.
pub fn tokens_rule(t: &[u32], n: u32, u: Span, k: u32) -> u64
    requires { u.word < limits.greatest_word - 3 }
    ensures { result ≡ tokens_rule t.now n u k }
{
    tokens_least(t, n, own_word(t, u, k), u.word + 1, u.next)
}

fn past_most(t: &[u32], n: u32, i: u32, next: u32) -> u64
    ensures { result ≡ past_most t.now n i next }
{
    if i < next {
        return parse_lines::key_at(t, n, i, 14);
    }
    1099511627776
}

// 14: one parameter or argument too many.
pub fn list_rule(t: &[u32], n: u32, u: Span, k: u32) -> u64
    requires { u.word ≤ limits.tokens + 1 }
    ensures { result ≡ list_rule t.now n u k }
{
    if parse_shapes::is_listed(k) {
        let most = lang_words::most_operands(parse_lines::word_at(t, u.word));
        return past_most(t, n, u.word + 1 + most, u.next);
    }
    1099511627776
}

// 8: a reserved word.
fn reserved_label(t: &[u32], n: u32, i: u32) -> u64
    ensures { result ≡ reserved_label t.now n i }
{
    let w = parse_lines::word_at(t, i);
    if Word::SECTION <= w && w < Word::PAST_WORDS {
        return parse_lines::key_at(t, n, i, 8);
    }
    1099511627776
}

// 14: the 257th label, c labels standing before the token.
pub fn label_limit(t: &[u32], n: u32, i: u32, c: u32) -> u64
    ensures { result ≡ label_limit t.now n i c }
{
    if c < MOST_LABELS {
        return 1099511627776;
    }
    parse_lines::key_at(t, n, i, 14)
}

fn label_key(t: &[u32], n: u32, i: u32, c: u32) -> u64
    ensures { result ≡ label_key t.now n i c }
{
    reserved_label(t, n, i).min(label_limit(t, n, i, c))
}

fn label_step(t: &[u32], n: u32, i: u32, x: Labelled) -> Labelled
    requires { x.count < limits.greatest_word }
    ensures { result ≡ label_step t.now n i x }
{
    if parse_lines::kind_at(t, i) == Token::LABEL {
        return Labelled {
            fault: x.fault.min(label_key(t, n, i, x.count)),
            count: x.count + 1,
        };
    }
    x
}

fn labels_from(t: &[u32], n: u32, first: u32, end: u32, c: u32) -> Labelled
    requires { (end ≤ limits.tokens + 1) × (c ≤ limits.tokens + 1) }
    ensures { result ≡ labels_from (end - first) t.now n first (labelled none c) }
{
    let mut x = Labelled {
        fault: 1099511627776,
        count: c,
    };
    for i in first..end {
        x = label_step(t, n, i, x);
    }
    x
}

// The labels of a unit, c labels standing before it.
pub fn labels_rule(t: &[u32], n: u32, u: Span, c: u32) -> Labelled
    requires { (u.word ≤ limits.tokens + 1) × (c ≤ limits.tokens + 1) }
    ensures { result ≡ labels_rule t.now n u c }
{
    labels_from(t, n, u.first, u.word, c)
}
