// Shapes of lines: how many tokens stand behind the magic word, and of which kinds.
#![tactic(auto)]

ghost use Rattle.std.specs.Prelude.{◌≡◌, ◌+◌, ◌*◌, ◌-◌, ◌^◌, ◌≤◌, ◌<◌, true, false, length};
ghost use Rattle.base_limits.specs.Limits as limits;
ghost use Rattle.base_prelude.specs.Choice.{if_eq, if_true};
ghost use Rattle.base_limits.specs.Width.{bits_of};
ghost use Rattle.parse_shapes.specs.Shapes.{is_name, is_integer, is_string, operands_from, call_from, is_operator, operator_from, operand_at, symbol_from, expression_from, operand_count, form_fits, is_listed, count_fits, is_known, byte_fits, align_fits, range_fits, shape_fits};
ghost use Rattle.parse_shapes.specs.Forms.{later_fits, statement_fits, other_fits};

use base_limits::{Machine, Width};
use lang_kinds::{Kind, Token};
use lang_words::{Substitutes, Word};
use parse_lines::Span;

// A test's word and its two operands.
const TEST_TOKENS: u32 = 3;

// A plain symbol. One line, as is_string: a function that takes the kind is no plainer.
pub fn is_name(t: &[u32], i: u32) -> bool
    ensures { result ≡ is_name t.now i }
{
    parse_lines::kind_at(t, i) == Token::SYMBOL
}

fn is_integer(t: &[u32], i: u32) -> bool
    ensures { result ≡ is_integer t.now i }
{
    matches!(
        parse_lines::kind_at(t, i),
        Token::INTEGER | Token::SUBSTITUTE
    )
}

fn is_string(t: &[u32], i: u32) -> bool
    ensures { result ≡ is_string t.now i }
{
    parse_lines::kind_at(t, i) == Token::STRING
}

fn operands_from(t: &[u32], i: u32, next: u32) -> bool
    requires { length t.now ≡ limits.token_words }
    ensures { result ≡ operands_from t.now i next }
{
    parse_lines::all_from(t, Token::SYMBOL, Token::STRING, i, next)
}

// A function's name, then its arguments.
fn call_from(t: &[u32], i: u32, next: u32) -> bool
    requires { (length t.now ≡ limits.token_words) × (i < limits.greatest_word) }
    ensures { result ≡ call_from t.now i next }
{
    is_name(t, i) && operands_from(t, i + 1, next)
}

// An operator's word.
pub fn is_operator(w: u32) -> bool
    ensures { result ≡ is_operator w }
{
    Word::ADD <= w && w < Word::PAST_WORDS
}

// The number of tokens from i to before next.
fn tokens_between(i: u32, next: u32) -> u32
    ensures { result ≡ next - i }
{
    next.saturating_sub(i)
}

fn operator_from(t: &[u32], i: u32, next: u32) -> bool
    requires { (length t.now ≡ limits.token_words) × (i < limits.greatest_word) }
    ensures { result ≡ operator_from t.now i next }
{
    tokens_between(i + 1, next) == lang_words::least_operands(parse_lines::word_at(t, i))
        && operands_from(t, i + 1, next)
}

fn operand_at(t: &[u32], i: u32, next: u32) -> bool
    requires { (length t.now ≡ limits.token_words) × (i < limits.greatest_word) }
    ensures { result ≡ operand_at t.now i next }
{
    next == i + 1 && operands_from(t, i, next)
}

fn symbol_from(t: &[u32], i: u32, next: u32) -> bool
    requires { (length t.now ≡ limits.token_words) × (i < limits.greatest_word - 1) }
    ensures { result ≡ symbol_from t.now i next }
{
    let w = parse_lines::word_at(t, i);
    if w == Word::CALL {
        return call_from(t, i + 1, next);
    }
    if is_operator(w) {
        return operator_from(t, i, next);
    }
    operand_at(t, i, next)
}

// An expression from a token to the line's end.
fn expression_from(t: &[u32], i: u32, next: u32) -> bool
    requires { (length t.now ≡ limits.token_words) × (i < limits.greatest_word - 1) }
    ensures { result ≡ expression_from t.now i next }
{
    if is_name(t, i) {
        return symbol_from(t, i, next);
    }
    operand_at(t, i, next)
}

// A line that ends in a list.
pub fn is_listed(k: u32) -> bool
    ensures { result ≡ is_listed k }
{
    matches!(
        k,
        Kind::FUNCTION
            | Kind::LET
            | Kind::SET
            | Kind::SET_AT
            | Kind::CALL
            | Kind::TAIL_CALL
            | Kind::RETURN
    )
}

// The tokens behind the magic word.
pub fn operand_count(u: Span) -> u32
    requires { u.word < limits.greatest_word }
    ensures { result ≡ operand_count u }
{
    tokens_between(u.word + 1, u.next)
}

fn count_fits(t: &[u32], u: Span, k: u32) -> bool
    requires { u.word < limits.greatest_word }
    ensures { result ≡ count_fits t.now u k }
{
    let n = operand_count(u);
    let w = parse_lines::word_at(t, u.word);
    lang_words::least_operands(w) <= n && (is_listed(k) || n <= lang_words::most_operands(w))
}

// let and set: a name, then an expression.
fn named_expression(t: &[u32], word: u32, next: u32) -> bool
    requires { (length t.now ≡ limits.token_words) × (word < limits.greatest_word - 3) }
    ensures { result ≡ if_true (is_name t.now (word + 1)) (expression_from t.now (word + 2) next) false }
{
    is_name(t, word + 1) && expression_from(t, word + 2, next)
}

fn return_fits(t: &[u32], u: Span) -> bool
    requires { (length t.now ≡ limits.token_words) × (u.word < limits.greatest_word - 3) }
    ensures { result ≡ if_eq (operand_count u) 0 true (expression_from t.now (u.word + 1) u.next) }
{
    operand_count(u) == 0 || expression_from(t, u.word + 1, u.next)
}

fn else_if_fits(t: &[u32], u: Span) -> bool
    requires { (length t.now ≡ limits.token_words) × (u.word < limits.greatest_word - 3) }
    ensures { result ≡ if_eq (operand_count u) 3 (operands_from t.now (u.word + 2) u.next) false }
{
    operand_count(u) == TEST_TOKENS && operands_from(t, u.word + 2, u.next)
}

fn later_fits(t: &[u32], u: Span, k: u32) -> bool
    requires { (length t.now ≡ limits.token_words) × (u.word < limits.greatest_word - 3) }
    ensures { result ≡ later_fits t.now u k }
{
    if k == Kind::GOTO {
        return is_name(t, u.word + 1);
    }
    if k < Kind::RETURN {
        return call_from(t, u.word + 1, u.next);
    }
    if k == Kind::RETURN {
        return return_fits(t, u);
    }
    if k < Kind::ELSE {
        return operands_from(t, u.word + 1, u.next);
    }
    if k == Kind::ELSE_IF {
        return else_if_fits(t, u);
    }
    k < Kind::PAST_ROWS
}

fn statement_fits(t: &[u32], u: Span, k: u32) -> bool
    requires { (length t.now ≡ limits.token_words) × (u.word < limits.greatest_word - 3) }
    ensures { result ≡ statement_fits t.now u k }
{
    if k == Kind::FUNCTION {
        return parse_lines::all_from(t, Token::SYMBOL, Token::SUBSTITUTE, u.word + 1, u.next);
    }
    if k < Kind::LET {
        return true;
    }
    if k < Kind::SET_AT {
        return named_expression(t, u.word, u.next);
    }
    if k == Kind::SET_AT {
        return expression_from(t, u.word + 2, u.next);
    }
    if k < Kind::GOTO {
        return operands_from(t, u.word + 1, u.next);
    }
    later_fits(t, u, k)
}

fn align_form(t: &[u32], u: Span) -> bool
    requires { u.word < limits.greatest_word - 3 }
    ensures { result ≡ if_eq (operand_count u) 0 true (is_integer t.now (u.word + 1)) }
{
    operand_count(u) == 0 || is_integer(t, u.word + 1)
}

fn other_fits(t: &[u32], u: Span, k: u32) -> bool
    requires { u.word < limits.greatest_word - 3 }
    ensures { result ≡ other_fits t.now u k }
{
    match k {
        Kind::EXPORT | Kind::IMPORT_LINE => is_name(t, u.word + 1),
        Kind::ALIGN => align_form(t, u),
        Kind::BYTE | Kind::WORD => is_integer(t, u.word + 1),
        Kind::STRING => is_string(t, u.word + 1),
        _ => k < Kind::LEFT_OUT,
    }
}

fn form_fits(t: &[u32], u: Span, k: u32) -> bool
    requires { (length t.now ≡ limits.token_words) × (u.word < limits.greatest_word - 3) }
    ensures { result ≡ form_fits t.now u k }
{
    if k < Kind::SECTION_DATA {
        return statement_fits(t, u, k);
    }
    other_fits(t, u, k)
}

// An integer, or a substitute that stands for one.
fn is_known(t: &[u32], i: u32) -> bool
    ensures { result ≡ is_known t.now i }
{
    match parse_lines::kind_at(t, i) {
        Token::INTEGER => true,
        Token::SUBSTITUTE => matches!(
            parse_lines::word_at(t, i),
            Substitutes::BITS_PER_WORD | Substitutes::BYTES_PER_WORD
        ),
        _ => false,
    }
}

// 128 below zero as a word.
fn lowest_byte(w: Width) -> u32
    ensures { result ≡ 2 ^ bits_of w - 128 }
{
    match w {
        Width::Bits32 => 4294967168,
        Width::Bits16 => 65408,
    }
}

fn byte_fits(w: Width, v: u32) -> bool
    ensures { result ≡ byte_fits w v }
{
    v < 256 || lowest_byte(w) <= v
}

fn align_fits(v: u32) -> bool
    ensures { result ≡ align_fits v }
{
    1 <= v && v <= Machine::ALIGNMENT
}

fn range_fits(w: Width, t: &[u32], u: Span, k: u32) -> bool
    requires { u.word < limits.greatest_word - 3 }
    ensures { result ≡ range_fits w t.now u k }
{
    if !is_known(t, u.word + 1) {
        return true;
    }
    match k {
        Kind::BYTE => byte_fits(w, parse_lines::value_at(t, u.word + 1)),
        Kind::ALIGN => align_fits(parse_lines::value_at(t, u.word + 1)),
        _ => true,
    }
}

// A line of a known kind in right shape.
pub fn shape_fits(w: Width, t: &[u32], u: Span, k: u32) -> bool
    requires { (length t.now ≡ limits.token_words) × (u.word < limits.greatest_word - 3) }
    ensures { result ≡ shape_fits w t.now u k }
{
    count_fits(t, u, k) && form_fits(t, u, k) && range_fits(w, t, u, k)
}
