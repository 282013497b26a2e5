// What a name means at a statement: the let, parameter or label that has it; and the parts of a statement.
#![tactic(auto)]

ghost use Rattle.std.specs.Prelude.{◌≡◌, ◌+◌, ◌-◌, ◌≤◌, ◌<◌, min};
ghost use Rattle.base_limits.specs.Limits as limits;
ghost use Rattle.prog_tables.specs.Layout.{no_expression, call_expression};
ghost use Rattle.prog_tables.specs.Statement.{row_at};
ghost use Rattle.prog_tables.specs.Tests.{first_from};
ghost use Rattle.res_scope.specs.Lines.{first_token, end_token, label_token, label_kind, label_statement, label_arguments};
ghost use Rattle.res_scope.specs.Names.{has_name, same_number, let_named, let_here, let_of, parameter_of, label_of, label_meaning, outer_meaning, meaning_of};
ghost use Rattle.res_scope.specs.Parts.{parts, symbol_parts, expression_parts, return_parts, lists_operands, plain_parts, parts_of};

use base_limits::Machine;
use lang_kinds::{Kind, Token, TokenRow};
use lang_words::Word;
use prog_tables::{ExpressionKind, OutlineLabel, Table};

// What a name means: the let at a row, a parameter by its number, a label by its number, or nothing.
#[derive(Clone, Copy)]
pub enum Meaning {
    Let(u32),
    Parameter(u32),
    Label(u32),
    Unknown,
}

// The parts of a statement: the kind of its expression, the token of the function it calls (0: none), its first operand token.
#[derive(Clone, Copy)]
pub struct Parts {
    pub expr: u32,
    // Not an Option: the definition `parts_of` has 0 for none.
    pub callee: u32,
    pub first: u32,
}

// A function and the blocks in it.
const FRAME_DEPTH: u32 = Machine::BLOCK_DEPTH + 1;

// Behind the last token and the line's end.
const PAST_TOKENS: u32 = Machine::TOKENS as u32 + 1;

// The magic word's token of a statement.
pub fn first_token(k: &[u32], n: u32) -> u32
    ensures { result ≡ first_token k.now n }
{
    prog_tables::token_at(k, n).min(PAST_TOKENS)
}

// The token behind a statement's line.
pub fn end_token(k: &[u32], n: u32) -> u32
    ensures { result ≡ end_token k.now n }
{
    prog_tables::next_at(k, n).min(PAST_TOKENS)
}

// The token of a label.
pub fn label_token(y: &[u32], j: u32) -> u32
    ensures { result ≡ label_token y.now j }
{
    prog_tables::word_at(y, j as usize * Table::LABEL_ROW)
}

// The kind of a label.
pub fn label_kind(y: &[u32], j: u32) -> u32
    ensures { result ≡ label_kind y.now j }
{
    prog_tables::word_at(y, j as usize * Table::LABEL_ROW + OutlineLabel::KIND)
}

// The statement that a label names.
pub fn label_statement(y: &[u32], j: u32) -> u32
    ensures { result ≡ label_statement y.now j }
{
    prog_tables::word_at(y, j as usize * Table::LABEL_ROW + OutlineLabel::NAMES).saturating_sub(1)
}

// The argument count of an imported name.
pub fn label_arguments(y: &[u32], j: u32) -> u32
    ensures { result ≡ label_arguments y.now j }
{
    let mark = prog_tables::word_at(y, j as usize * Table::LABEL_ROW + OutlineLabel::NAMES);
    mark.saturating_sub(1) % 16
}

fn has_name(t: &[u32], i: u32) -> bool
    ensures { result ≡ has_name t.now i }
{
    let kind = parse_lines::kind_at(t, i);
    Token::LABEL <= kind && kind < Token::INTEGER
}

// Whether two tokens have one name.
pub fn same_name(t: &[u32], i: u32, j: u32) -> bool
    ensures { result ≡ same_number t.now i j }
{
    if !has_name(t, i) {
        return false;
    }
    has_name(t, j)
        && parse_lines::token_word(t, i, TokenRow::NAME)
            == parse_lines::token_word(t, j, TokenRow::NAME)
}

fn let_named(t: &[u32], k: &[u32], s: u32, i: u32, m: u32) -> bool
    ensures { result ≡ let_named (same_number t.now) k.now s i m }
{
    if prog_tables::kind_at(k, m) != Kind::LET {
        return false;
    }
    same_name(t, first_token(k, m) + 1, i)
        && prog_frames::is_around(k, FRAME_DEPTH, prog_tables::scope_at(k, m), s)
}

fn let_here(t: &[u32], k: &[u32], s: u32, i: u32, m: u32) -> bool
    ensures { result ≡ let_here (same_number t.now) k.now s i m }
{
    prog_frames::is_in(k, Kind::LET, s, m) && same_name(t, first_token(k, m) + 1, i)
}

// The let that a token means at a row, plus one; 0 for none.
// A number, not an Option: the definition `let_of` gives this number.
fn find_let(t: &[u32], k: &[u32], n: u32, i: u32) -> u32
    ensures { result ≡ let_of (same_number t.now) k.now n i }
{
    let s = prog_tables::scope_at(k, n);
    let f = prog_tables::func_at(k, n);
    for m in (f..n).rev() {
        if let_named(t, k, s, i, m) {
            return m + 1;
        }
    }
    0
}

// The first let of frame s from row s on, below row n, with the name of a token; n or behind for none.
pub fn find_let_here(t: &[u32], k: &[u32], s: u32, n: u32, i: u32) -> u32
    ensures { result ≡ first_from (let_here (same_number t.now) k.now s i) (n - s) s }
{
    (s..n)
        .find(|&m| let_here(t, k, s, i, m))
        .unwrap_or(n.max(s))
}

// The parameter of a function with the name of a token, as its token; at or behind the line's end for none.
pub fn find_parameter(t: &[u32], k: &[u32], f: u32, i: u32) -> u32
    ensures { result ≡ parameter_of (same_number t.now) k.now f i }
{
    let first = first_token(k, f) + 1;
    let end = end_token(k, f);
    (first..end)
        .find(|&q| same_name(t, q, i))
        .unwrap_or(end.max(first))
}

// The first of l labels with the name of a token; l for none.
// A number, not an Option: the definition `label_of` gives this number.
pub fn find_label(t: &[u32], y: &[u32], l: u32, i: u32) -> u32
    ensures { result ≡ label_of (same_number t.now) y.now l i }
{
    (0..l)
        .find(|&j| same_name(t, label_token(y, j), i))
        .unwrap_or(l)
}

fn label_meaning(l: u32, j: u32) -> Meaning
    ensures { result ≡ label_meaning l j }
{
    if j < l {
        return Meaning::Label(j);
    }
    Meaning::Unknown
}

fn outer_meaning(t: &[u32], k: &[u32], y: &[u32], l: u32, f: u32, i: u32) -> Meaning
    ensures { result ≡ outer_meaning k.now l f (parameter_of (same_number t.now) k.now f i) (label_of (same_number t.now) y.now l i) }
{
    let end = end_token(k, f);
    let q = find_parameter(t, k, f, i);
    if q < end {
        let first = first_token(k, f) + 1;
        return Meaning::Parameter(q - first);
    }
    label_meaning(l, find_label(t, y, l, i))
}

// What a token means at a row.
pub fn meaning_of(t: &[u32], k: &[u32], y: &[u32], l: u32, n: u32, i: u32) -> Meaning
    ensures { result ≡ meaning_of (same_number t.now) k.now y.now l n i }
{
    let m = find_let(t, k, n, i);
    if m == 0 {
        return outer_meaning(t, k, y, l, prog_tables::func_at(k, n), i);
    }
    Meaning::Let(m - 1)
}

fn symbol_parts(w: u32, i: u32) -> Parts
    requires { i ≤ 4100 }
    ensures { result ≡ symbol_parts w i }
{
    if w == Word::CALL {
        return Parts {
            expr: ExpressionKind::CALL,
            callee: i + 1,
            first: i + 2,
        };
    }
    if parse_shapes::is_operator(w) {
        return Parts {
            expr: w,
            callee: 0,
            first: i + 1,
        };
    }
    Parts {
        expr: ExpressionKind::PLAIN,
        callee: 0,
        first: i,
    }
}

fn expression_parts(t: &[u32], i: u32) -> Parts
    requires { i ≤ 4100 }
    ensures { result ≡ expression_parts t.now i }
{
    if parse_shapes::is_name(t, i) {
        return symbol_parts(parse_lines::word_at(t, i), i);
    }
    Parts {
        expr: ExpressionKind::PLAIN,
        callee: 0,
        first: i,
    }
}

fn no_parts(next: u32) -> Parts
    ensures { result ≡ parts no_expression 0 next }
{
    Parts {
        expr: ExpressionKind::NONE,
        callee: 0,
        first: next,
    }
}

fn return_parts(t: &[u32], i: u32, next: u32) -> Parts
    requires { i ≤ 4100 }
    ensures { result ≡ return_parts t.now i next }
{
    if i < next {
        return expression_parts(t, i);
    }
    no_parts(next)
}

fn lists_operands(kind: u32) -> bool
    ensures { result ≡ lists_operands kind }
{
    if kind < Kind::SET_BYTE {
        return false;
    }
    if kind < Kind::GOTO {
        return true;
    }
    if kind < Kind::IFEQ {
        return false;
    }
    kind < Kind::ELSE
}

fn call_parts(i: u32) -> Parts
    requires { i ≤ limits.tokens + 1 }
    ensures { result ≡ parts call_expression (i + 1) (i + 2) }
{
    Parts {
        expr: ExpressionKind::CALL,
        callee: i + 1,
        first: i + 2,
    }
}

fn plain_parts(kind: u32, i: u32, next: u32) -> Parts
    requires { i ≤ limits.tokens + 1 }
    ensures { result ≡ plain_parts kind i next }
{
    if lists_operands(kind) {
        return no_parts(i + 1);
    }
    if kind == Kind::CALL {
        return call_parts(i);
    }
    if kind == Kind::TAIL_CALL {
        return call_parts(i);
    }
    no_parts(next)
}

// The parts of a statement of a kind whose magic word is token i.
pub fn parts_of(t: &[u32], kind: u32, i: u32, next: u32) -> Parts
    requires { i ≤ limits.tokens + 1 }
    ensures { result ≡ parts_of t.now kind i next }
{
    if kind == Kind::RETURN {
        return return_parts(t, i + 1, next);
    }
    if kind < Kind::LET {
        return no_parts(next);
    }
    if kind < Kind::SET_BYTE {
        return expression_parts(t, i + 2);
    }
    plain_parts(kind, i, next)
}
