// Runs the lexer on the cases of standard input and prints those that differ.
#![tactic(auto)]

ghost use Rattle.std.specs.Prelude.{◌≤◌, ◌<◌, length};

use base_limits::{Machine, Refusal};
use lang_kinds::{Token, TokenRow};
use test_lines::{
    Case, add_source, field, field_start, front, has_numbers, is_comment, is_source, line_end,
    narrow, one_more, starts_with, width_of,
};

// Room for the input: one byte more than it may have.
const INPUT: usize = 98304;

// A case's source.
type Source = [u8; Case::SOURCE];

// A token table.
type Table = [u32; Machine::TOKEN_WORDS];

// The lines and cases read, how many differ, and the case that is read.
#[derive(Clone, Copy)]
struct State {
    line: u64,
    cases: u64,
    differ: u64,
    // the place and the line of its name
    name: usize,
    name_line: u64,
    bits: u32,
    // bytes of its source
    size: usize,
    // what it expects, and whether each token is given
    want: Answer,
    is_listed: bool,
}

// What the lexer answers: tokens, or a refusal (0: none, as a line of a case may say).
#[derive(Clone, Copy, PartialEq, Eq)]
struct Answer {
    rows: usize,
    number: u32,
    place: usize,
}

fn put(text: &[u8]) {
    io::write_all(1, text);
}

fn put_number(n: u64) {
    io::print_decimal(1, n);
}

fn put_bad_line(line: u64) {
    put(b"line ");
    put_number(line);
    put(b": no line of a case\n");
}

fn put_total(cases: u64, differ: u64) {
    put_number(cases);
    put(b" cases, ");
    put_number(differ);
    put(b" differ\n");
}

fn put_line(s: &[u8], at: usize) {
    if at < s.len() {
        let end = line_end(s, at);
        put(&s[at..end]);
    }
}

fn bad_line(mut q: State) -> State {
    put_bad_line(q.line);
    q.differ = one_more(q.differ);
    q
}

fn with_size(mut q: State, size: usize) -> State {
    if Case::SOURCE <= size {
        return bad_line(q);
    }
    q.size = size;
    q
}

fn read_width(l: &[u8], mut q: State) -> State {
    if starts_with(l, b"width 16") {
        q.bits = 16;
        return q;
    }
    bad_line(q)
}

fn kind_of(l: &[u8]) -> u32 {
    if starts_with(l, b"newline ") {
        return Token::NEWLINE;
    }
    if starts_with(l, b"label ") {
        return Token::LABEL;
    }
    if starts_with(l, b"symbol ") {
        return Token::SYMBOL;
    }
    if starts_with(l, b"substitute ") {
        return Token::SUBSTITUTE;
    }
    if starts_with(l, b"@symbol ") {
        return Token::AT_SYMBOL;
    }
    if starts_with(l, b"@substitute ") {
        return Token::AT_SUBSTITUTE;
    }
    if starts_with(l, b"integer ") {
        return Token::INTEGER;
    }
    if starts_with(l, b"@integer ") {
        return Token::AT_INTEGER;
    }
    if starts_with(l, b"string ") {
        return Token::STRING;
    }
    Token::SOURCE_END
}

// An expected row from the fields of a line.
fn put_fields(l: &[u8], kind: u32, want: &mut Table, row: usize)
    requires { row < 4096 }
{
    let at = row * Machine::TOKEN_ROW;
    want[at] = kind;
    want[at + TokenRow::FIRST] = narrow(field(l, 2));
    want[at + TokenRow::NEXT] = narrow(field(l, 3));
    want[at + TokenRow::VALUE] = narrow(field(l, 4));
    want[at + TokenRow::NAME] = narrow(field(l, 5));
    want[at + TokenRow::WORD] = narrow(field(l, 6));
}

fn read_token(l: &[u8], mut q: State, want: &mut Table) -> State {
    let kind = kind_of(&l[field_start(l, 1)..]);
    if kind == Token::SOURCE_END {
        return bad_line(q);
    }
    let row = q.want.rows;
    if row < Machine::TOKENS && has_numbers(l, 2, 7) {
        put_fields(l, kind, want, row);
        q.want.rows = row + 1;
        return q;
    }
    bad_line(q)
}

fn read_count(l: &[u8], mut q: State) -> State {
    if has_numbers(l, 1, 2) {
        q.want.rows = field(l, 1) as usize;
        q.is_listed = false;
        return q;
    }
    bad_line(q)
}

fn read_refusal(l: &[u8], mut q: State) -> State {
    if has_numbers(l, 1, 3) {
        q.want.number = narrow(field(l, 1));
        q.want.place = field(l, 2) as usize;
        return q;
    }
    bad_line(q)
}

// A line of a case.
fn read_line(l: &[u8], q: State, text: &mut Source, want: &mut Table) -> State {
    if is_source(l) {
        let size = add_source(l, text, q.size);
        return with_size(q, size);
    }
    if starts_with(l, b"token ") {
        return read_token(l, q, want);
    }
    if starts_with(l, b"tokens ") {
        return read_count(l, q);
    }
    if starts_with(l, b"refused ") {
        return read_refusal(l, q);
    }
    if starts_with(l, b"width ") {
        return read_width(l, q);
    }
    bad_line(q)
}

// A case whose name stands at a place.
fn open_case(mut q: State, name: usize) -> State {
    q.cases = one_more(q.cases);
    q.name = name;
    q.name_line = q.line;
    q.bits = 32;
    q.size = 0;
    q.want = no_tokens();
    q.is_listed = true;
    q
}

fn no_tokens() -> Answer {
    Answer {
        rows: 0,
        number: 0,
        place: 0,
    }
}

fn answer_of(x: Result<usize, Refusal>) -> Answer {
    match x {
        Ok(n) => Answer {
            rows: n,
            number: 0,
            place: 0,
        },
        Err(e) => Answer {
            rows: 0,
            number: e.number,
            place: e.place,
        },
    }
}

fn lex_case(bits: u32, text: &[u8], size: usize, table: &mut Table) -> Answer {
    table.fill(7);
    answer_of(lex_source::lex(width_of(bits), front(text, size), table))
}

fn put_answer(a: Answer) {
    if a.number == 0 {
        put(b"tokens ");
        put_number(a.rows as u64);
    } else {
        put(b"refused ");
        put_number(u64::from(a.number));
        put(b" ");
        put_number(a.place as u64);
    }
}

fn put_row(t: &Table, row: usize)
    requires { row < 4096 }
{
    put(b"token");
    for word in &t[row * 8..row * 8 + 6] {
        put(b" ");
        put_number(u64::from(*word));
    }
}

fn put_name(s: &[u8], q: State) {
    put_line(s, q.name);
    put(b", line ");
    put_number(q.name_line);
    put(b": expected ");
}

fn put_answers(s: &[u8], q: State, got: Answer) {
    put_name(s, q);
    put_answer(q.want);
    put(b", got ");
    put_answer(got);
    put(b"\n");
}

fn put_rows(s: &[u8], q: State, want: &Table, table: &Table, row: usize)
    requires { row < 4096 }
{
    put_name(s, q);
    if row < q.want.rows {
        put_row(want, row);
    } else {
        put(b"zeros");
    }
    put(b", got ");
    put_row(table, row);
    put(b" as token ");
    put_number(row as u64);
    put(b"\n");
}

// Whether a word of the rows in use differs, which end before a place; prints how. The hash may be any.
fn is_unlike(s: &[u8], q: State, want: &Table, table: &Table, end: usize) -> bool
    requires { end ≤ 32768 }
{
    for i in 0..end {
        if i % 8 != 6 && table[i] != want[i] {
            put_rows(s, q, want, table, i / 8);
            return true;
        }
    }
    false
}

// Whether anything but zeros stands from a place on; prints how.
fn is_filled(s: &[u8], q: State, want: &Table, table: &Table, from: usize) -> bool {
    for i in from..Machine::TOKEN_WORDS {
        if table[i] != 0 {
            put_rows(s, q, want, table, i / 8);
            return true;
        }
    }
    false
}

// Whether the case differs; prints how. Rows that are not listed may be any.
fn is_wrong(s: &[u8], q: State, want: &Table, table: &Table, got: Answer) -> bool {
    if q.want != got {
        put_answers(s, q, got);
        return true;
    }
    let end = q.want.rows.min(Machine::TOKENS) * Machine::TOKEN_ROW;
    if q.is_listed && is_unlike(s, q, want, table, end) {
        return true;
    }
    is_filled(s, q, want, table, end)
}

// The end of a case: what the lexer makes of its source.
fn close_case(s: &[u8], mut q: State, text: &Source, want: &Table, table: &mut Table) -> State {
    if q.cases == 0 {
        return q;
    }
    let got = lex_case(q.bits, text, q.size, table);
    if is_wrong(s, q, want, table, got) {
        q.differ = one_more(q.differ);
    }
    q
}

// The line from a place to an end.
fn take_line(
    s: &[u8],
    at: usize,
    end: usize,
    mut q: State,
    text: &mut Source,
    want: &mut Table,
    table: &mut Table,
) -> State
    requires { (at ≤ end) × (end ≤ length s.now) }
{
    q.line = one_more(q.line);
    let l = &s[at..end];
    if is_comment(l) {
        return q;
    }
    if starts_with(l, b"case ") {
        return open_case(close_case(s, q, text, want, table), at + 5);
    }
    if q.cases == 0 {
        return bad_line(q);
    }
    read_line(l, q, text, want)
}

fn start() -> State {
    State {
        line: 0,
        cases: 0,
        differ: 0,
        name: 0,
        name_line: 0,
        bits: 32,
        size: 0,
        want: no_tokens(),
        is_listed: true,
    }
}

fn run(s: &[u8]) {
    let mut text = [0u8; Case::SOURCE];
    let mut want = [0u32; Machine::TOKEN_WORDS];
    let mut table = [0u32; Machine::TOKEN_WORDS];
    let mut q = start();
    let mut at: usize = 0;
    // By index: a step goes behind the next line's end.
    while at < s.len() {
        let end = line_end(s, at);
        q = take_line(s, at, end, q, &mut text, &mut want, &mut table);
        at = end + 1;
    }
    q = close_case(s, q, &text, &want, &mut table);
    put_total(q.cases, q.differ);
}

fn main() {
    let mut input = [0u8; INPUT];
    let n = io::read_full(0, &mut input);
    if n < INPUT {
        run(&input[..n]);
    } else {
        put(b"input too long\n");
    }
}
