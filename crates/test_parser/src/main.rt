// Runs the parser on the cases of standard input and prints those that differ.
#![tactic(auto)]

ghost use Rattle.std.specs.Prelude.{◌≤◌, ◌<◌, length};

use base_limits::{Machine, Refusal};
use base_prelude::byte_at;
use parse_outline::{Outline, RowCounts};
use test_lines::{
    Case, add_line, add_source, add_text, field, field_start, front, has_numbers, is_comment,
    is_source, line_end, narrow, one_more, place_of, starts_with, width_of,
};

// Room for the input: one byte more than it may have.
const INPUT: usize = 262144;

// A case's source, its tokens, and its outline.
type Source = [u8; Case::SOURCE];

type Table = [u32; Machine::TOKEN_WORDS];

type Rows = [u32; Outline::WORDS];

type Labels = [u32; Outline::LABEL_WORDS];

// The lines and cases read, how many differ, and the case that is read.
#[derive(Clone, Copy)]
struct State {
    line: u64,
    cases: u64,
    differ: u64,
    // the place of its name
    name: usize,
    bits: u32,
    // bytes of its source, and whether they end inside the function that wraps a body
    size: usize,
    is_body: bool,
    // whether its source was parsed, and whether anything differs
    is_parsed: bool,
    is_wrong: bool,
}

// Statements and labels, or a refusal (0: none).
#[derive(Clone, Copy, PartialEq, Eq)]
struct Answer {
    number: u32,
    place: u64,
    statements: u64,
    labels: u64,
}

fn put(text: &[u8]) {
    io::write_all(1, text);
}

fn put_number(n: u64) {
    io::print_decimal(1, n);
}

fn put_bad_line(line: u64) {
    put(b"line ");
    put_number(line);
    put(b": no line of a case\n");
}

fn put_total(cases: u64, differ: u64) {
    put_number(cases);
    put(b" cases, ");
    put_number(differ);
    put(b" differ\n");
}

fn put_line(s: &[u8], at: usize) {
    if at < s.len() {
        let end = line_end(s, at);
        put(&s[at..end]);
    }
}

fn word_at(t: &[u32], i: usize) -> u32 {
    if i < t.len() { t[i] } else { 0 }
}

fn accepted(statements: u64, labels: u64) -> Answer {
    Answer {
        number: 0,
        place: 0,
        statements,
        labels,
    }
}

fn refused(number: u32, place: u64) -> Answer {
    Answer {
        number,
        place,
        statements: 0,
        labels: 0,
    }
}

fn answer_of(x: Result<RowCounts, Refusal>) -> Answer {
    match x {
        Ok(c) => accepted(c.statements as u64, c.labels as u64),
        Err(r) => refused(r.number, r.place as u64),
    }
}

fn length_of(size: usize) -> u32
    ensures { result ≤ 16384 }
{
    if size <= 16384 { size as u32 } else { 0 }
}

// What the lexer and the parser make of a source.
fn parse_source(
    bits: u32,
    text: &[u8],
    size: usize,
    table: &mut Table,
    rows: &mut Rows,
    labels: &mut Labels,
) -> Answer {
    let x = lex_source::lex(width_of(bits), front(text, size), table);
    match x {
        Err(e) => refused(e.number, e.place as u64),
        Ok(_) => {
            answer_of(parse_outline::parse(width_of(bits), length_of(size), table, rows, labels))
        }
    }
}

fn differs(mut q: State) -> State {
    if q.is_wrong {
        return q;
    }
    q.is_wrong = true;
    q.differ = one_more(q.differ);
    q
}

fn bad_line(q: State) -> State {
    put_bad_line(q.line);
    differs(q)
}

// A source of a new size.
fn with_size(mut q: State, size: usize) -> State {
    if q.is_parsed || Case::SOURCE <= size {
        return bad_line(q);
    }
    q.size = size;
    q
}

fn open_body(mut q: State, text: &mut Source) -> State {
    if q.is_body {
        return q;
    }
    let size = add_text(b"section functions~0af: function~0a", 0, text, q.size);
    q.is_body = true;
    with_size(q, size)
}

fn close_body(mut q: State, text: &mut Source) -> State {
    if q.is_body {
        let size = add_text(b"end function~0a", 0, text, q.size);
        q.is_body = false;
        return with_size(q, size);
    }
    q
}

fn read_body(l: &[u8], q: State, text: &mut Source) -> State {
    let opened = open_body(q, text);
    let size = add_line(l, 5, text, opened.size);
    with_size(opened, size)
}

fn read_width(l: &[u8], mut q: State) -> State {
    if starts_with(l, b"width 16") {
        q.bits = 16;
        return q;
    }
    bad_line(q)
}

// The digit of `at2` to `at9`, 1 for a bare `at`, else 0.
fn nth_of(word: &[u8]) -> u64 {
    match byte_at(word, 2) {
        32 => 1,
        c @ 50..=57 => u64::from(c - 48),
        _ => 0,
    }
}

fn word_place(word: &Source, size: usize, nth: u64, s: &[u8]) -> u64 {
    let at = place_of(s, front(word, size), nth);
    if at < s.len() {
        return at as u64;
    }
    Case::NO_NUMBER
}

// The place of a text in a source.
fn text_place(l: &[u8], from: usize, nth: u64, s: &[u8]) -> u64 {
    let mut word = [0u8; Case::SOURCE];
    let size = add_text(l, from, &mut word, 0);
    word_place(&word, size, nth, s)
}

// The place that a line names: `end`, `at TEXT`, `atK TEXT`, or a number.
fn place_in(l: &[u8], s: &[u8]) -> u64 {
    let word = &l[field_start(l, 2)..];
    if starts_with(word, b"end") {
        return s.len() as u64;
    }
    if starts_with(word, b"at") {
        return text_place(l, field_start(l, 3), nth_of(word), s);
    }
    if has_numbers(l, 1, 3) {
        return field(l, 2);
    }
    Case::NO_NUMBER
}

fn put_answer(a: Answer) {
    if a.number == 0 {
        put(b"accepted ");
        put_number(a.statements);
        put(b" ");
        put_number(a.labels);
    } else {
        put(b"refused ");
        put_number(u64::from(a.number));
        put(b" ");
        put_number(a.place);
    }
}

fn put_name(s: &[u8], q: State) {
    put_line(s, q.name);
    put(b", line ");
    put_number(q.line);
    put(b": expected ");
}

fn compare(s: &[u8], q: State, want: Answer, got: Answer) -> State {
    if want == got {
        return q;
    }
    put_name(s, q);
    put_answer(want);
    put(b", got ");
    put_answer(got);
    put(b"\n");
    differs(q)
}

// The answer that a line expects; a place above all where it is no such line.
fn wanted(l: &[u8], s: &[u8]) -> Answer {
    if starts_with(l, b"accepted ") {
        if has_numbers(l, 1, 3) {
            return accepted(field(l, 1), field(l, 2));
        }
        return refused(0, Case::NO_NUMBER);
    }
    refused(narrow(field(l, 1)), place_in(l, s))
}

// `accepted` or `refused`: parses the source.
fn read_answer(
    s: &[u8],
    l: &[u8],
    q: State,
    text: &mut Source,
    table: &mut Table,
    rows: &mut Rows,
    labels: &mut Labels,
) -> State {
    let mut closed = close_body(q, text);
    let want = wanted(l, front(text, closed.size));
    if want.place == Case::NO_NUMBER {
        return bad_line(closed);
    }
    closed.is_parsed = true;
    let got = parse_source(closed.bits, text, closed.size, table, rows, labels);
    compare(s, closed, want, got)
}

// Whether words of a table are those of a line's fields from the third on.
fn is_listed(l: &[u8], t: &[u32], at: usize, count: usize) -> bool
    requires { (at < 65536) × (count ≤ 4) }
{
    for i in 0..count {
        if word_at(t, at + i) != narrow(field(l, i as u64 + 2)) {
            return false;
        }
    }
    true
}

fn put_words(t: &[u32], at: usize, count: usize)
    requires { (at < 65536) × (count ≤ 4) }
{
    for i in at..at + count {
        put(b" ");
        put_number(u64::from(word_at(t, i)));
    }
}

fn compare_words(s: &[u8], l: &[u8], q: State, t: &[u32], at: usize, count: usize) -> State
    requires { (at < 65536) × (count ≤ 4) }
{
    if is_listed(l, t, at, count) {
        return q;
    }
    put_name(s, q);
    put(l);
    put(b", got");
    put_words(t, at, count);
    put(b"\n");
    differs(q)
}

// The first word of a row; label rows have 4 words, statement rows 8.
fn row_start(row: u64, is_label: bool) -> usize
    requires { row < 4096 }
    ensures { result < 32768 }
{
    (if is_label { row * 4 } else { row * 8 }) as usize
}

// `row`, `label` or `locals`: words of a row, from one on.
fn read_words(
    s: &[u8],
    l: &[u8],
    q: State,
    t: &[u32],
    is_label: bool,
    from: usize,
    count: usize,
) -> State
    requires { (from ≤ 8) × (count ≤ 4) }
{
    if q.is_parsed && has_numbers(l, 1, count as u64 + 2) {
        let row = field(l, 1);
        if row < 4096 {
            return compare_words(s, l, q, t, row_start(row, is_label) + from, count);
        }
    }
    bad_line(q)
}

// A line of a case.
fn read_line(
    s: &[u8],
    l: &[u8],
    q: State,
    text: &mut Source,
    table: &mut Table,
    rows: &mut Rows,
    labels: &mut Labels,
) -> State {
    if is_source(l) {
        let size = add_source(l, text, q.size);
        return with_size(q, size);
    }
    if starts_with(l, b"body ") {
        return read_body(l, q, text);
    }
    if starts_with(l, b"width ") {
        return read_width(l, q);
    }
    if starts_with(l, b"row ") {
        return read_words(s, l, q, rows, false, 0, 4);
    }
    if starts_with(l, b"label ") {
        return read_words(s, l, q, labels, true, 0, 3);
    }
    if starts_with(l, b"locals ") {
        return read_words(s, l, q, rows, false, 6, 1);
    }
    if starts_with(l, b"accepted ") || starts_with(l, b"refused ") {
        return read_answer(s, l, q, text, table, rows, labels);
    }
    bad_line(q)
}

// A case whose name stands at a place.
fn open_case(mut q: State, name: usize) -> State {
    q.cases = one_more(q.cases);
    q.name = name;
    q.bits = 32;
    q.size = 0;
    q.is_body = false;
    q.is_parsed = false;
    q.is_wrong = false;
    q
}

// The end of a case: it must have expected an answer.
fn close_case(s: &[u8], q: State) -> State {
    if q.cases == 0 || q.is_parsed {
        return q;
    }
    put_name(s, q);
    put(b"no answer\n");
    differs(q)
}

// The line from a place to an end.
fn take_line(
    s: &[u8],
    at: usize,
    end: usize,
    mut q: State,
    text: &mut Source,
    table: &mut Table,
    rows: &mut Rows,
    labels: &mut Labels,
) -> State
    requires { (at ≤ end) × (end ≤ length s.now) }
{
    q.line = one_more(q.line);
    let l = &s[at..end];
    if is_comment(l) {
        return q;
    }
    if starts_with(l, b"case ") {
        return open_case(close_case(s, q), at + 5);
    }
    if q.cases == 0 {
        return bad_line(q);
    }
    read_line(s, l, q, text, table, rows, labels)
}

fn start() -> State {
    State {
        line: 0,
        cases: 0,
        differ: 0,
        name: 0,
        bits: 32,
        size: 0,
        is_body: false,
        is_parsed: false,
        is_wrong: false,
    }
}

fn run(s: &[u8]) {
    let mut text = [0u8; Case::SOURCE];
    let mut table = [0u32; Machine::TOKEN_WORDS];
    let mut rows = [0u32; Outline::WORDS];
    let mut labels = [0u32; Outline::LABEL_WORDS];
    let mut q = start();
    let mut at: usize = 0;
    // By index: a step goes behind the next line's end.
    while at < s.len() {
        let end = line_end(s, at);
        q = take_line(s, at, end, q, &mut text, &mut table, &mut rows, &mut labels);
        at = end + 1;
    }
    q = close_case(s, q);
    put_total(q.cases, q.differ);
}

fn main() {
    let mut input = [0u8; INPUT];
    let n = io::read_full(0, &mut input);
    if n < INPUT {
        run(&input[..n]);
    } else {
        put(b"input too long\n");
    }
}
