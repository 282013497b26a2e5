// Runs the check and the page on the cases of standard input and prints those that differ.
#![tactic(auto)]

ghost use Rattle.std.specs.Prelude.{◌≤◌, ◌<◌, length};

use base_prelude::byte_at;
use test_lines::{
    Case, add_byte, add_line, add_source, add_text, field, field_start, front, has_numbers,
    is_comment, is_source, line_end, one_more, place_of, starts_with,
};

// Room for the input: one byte more than it may have.
const INPUT: usize = 131072;

// Room for a page.
const PAGE: usize = 81920;

// A case's source, or its expected page.
type Text = [u8; Case::SOURCE];

// The lines and cases read, how many differ, and the case that is read.
#[derive(Clone, Copy)]
struct State {
    line: u64,
    cases: u64,
    differ: u64,
    // the place of its name
    name: usize,
    // bytes of its source, and whether they end inside the function that wraps a body
    size: usize,
    is_body: bool,
    // bytes of its expected page, 0 before its answer
    page: usize,
    // whether the page is a refusal's, and whether anything differs
    is_refused: bool,
    is_wrong: bool,
}

fn put(text: &[u8]) {
    io::write_all(1, text);
}

fn put_number(n: u64) {
    io::print_decimal(1, n);
}

fn put_bad_line(line: u64) {
    put(b"line ");
    put_number(line);
    put(b": no line of a case\n");
}

fn put_total(cases: u64, differ: u64) {
    put_number(cases);
    put(b" cases, ");
    put_number(differ);
    put(b" differ\n");
}

fn put_line(s: &[u8], at: usize) {
    if at < s.len() {
        let end = line_end(s, at);
        put(&s[at..end]);
    }
}

fn put_name(s: &[u8], q: State) {
    put_line(s, q.name);
    put(b", line ");
    put_number(q.line);
    put(b": ");
}

fn differs(mut q: State) -> State {
    if q.is_wrong {
        return q;
    }
    q.is_wrong = true;
    q.differ = one_more(q.differ);
    q
}

fn bad_line(q: State) -> State {
    put_bad_line(q.line);
    differs(q)
}

// A source of a new size; it stands before the answer.
fn with_size(mut q: State, size: usize) -> State {
    if 0 < q.page || Case::SOURCE <= size {
        return bad_line(q);
    }
    q.size = size;
    q
}

fn open_body(mut q: State, text: &mut Text) -> State {
    if q.is_body {
        return q;
    }
    let size = add_text(b"section functions~0af: function~0a", 0, text, q.size);
    q.is_body = true;
    with_size(q, size)
}

fn close_body(mut q: State, text: &mut Text) -> State {
    if q.is_body {
        let size = add_text(b"end function~0a", 0, text, q.size);
        q.is_body = false;
        return with_size(q, size);
    }
    q
}

fn read_body(l: &[u8], q: State, text: &mut Text) -> State {
    let opened = open_body(q, text);
    let size = add_line(l, 5, text, opened.size);
    with_size(opened, size)
}

// The digit of `at2` to `at9`, 1 for a bare `at`, else 0.
fn nth_of(word: &[u8]) -> u64 {
    match byte_at(word, 2) {
        32 => 1,
        c @ 50..=57 => u64::from(c - 48),
        _ => 0,
    }
}

fn word_place(word: &Text, size: usize, nth: u64, s: &[u8]) -> u64 {
    let at = place_of(s, front(word, size), nth);
    if at < s.len() {
        return at as u64;
    }
    Case::NO_NUMBER
}

// The place of a text in a source.
fn text_place(l: &[u8], from: usize, nth: u64, s: &[u8]) -> u64 {
    let mut word = [0u8; Case::SOURCE];
    let size = add_text(l, from, &mut word, 0);
    word_place(&word, size, nth, s)
}

// The place that a refusal names: `end`, `at TEXT`, `atK TEXT`, or a number.
fn place_in(l: &[u8], s: &[u8]) -> u64 {
    let word = &l[field_start(l, 3)..];
    if starts_with(word, b"end") {
        return s.len() as u64;
    }
    if starts_with(word, b"at") {
        return text_place(l, field_start(l, 4), nth_of(word), s);
    }
    if has_numbers(l, 1, 4) {
        return field(l, 3);
    }
    Case::NO_NUMBER
}

// A number's digit of ten to some power; none before the first.
fn add_digit(n: u64, unit: u64, text: &mut Text, size: usize) -> usize
    requires { 1 ≤ unit }
{
    if n < unit && 1 < unit {
        return size;
    }
    add_byte(text, size, (n / unit % 10) as u32 + 48)
}

// A number of at most five digits.
fn add_number(n: u64, text: &mut Text, size: usize) -> usize {
    let a = add_digit(n, 10000, text, size);
    let b = add_digit(n, 1000, text, a);
    let c = add_digit(n, 100, text, b);
    let d = add_digit(n, 10, text, c);
    add_digit(n, 1, text, d)
}

// The page of a refusal.
fn add_refusal(number: u64, line: u64, place: u64, want: &mut Text) -> usize {
    let a = add_text(b"refused ", 0, want, 0);
    let b = add_number(number, want, a);
    let c = add_text(b" line ", 0, want, b);
    let d = add_number(line, want, c);
    let e = add_text(b" byte ", 0, want, d);
    let f = add_number(place, want, e);
    add_byte(want, f, 10)
}

// A page of a new size.
fn with_page(mut q: State, page: usize) -> State {
    if Case::SOURCE <= page {
        return bad_line(q);
    }
    q.page = page;
    q
}

// `refused NUMBER LINE PLACE`
fn read_refused(l: &[u8], q: State, text: &mut Text, want: &mut Text) -> State {
    if 0 < q.page {
        return bad_line(q);
    }
    let mut closed = close_body(q, text);
    let place = place_in(l, front(text, closed.size));
    if place == Case::NO_NUMBER {
        return bad_line(closed);
    }
    closed.is_refused = true;
    with_page(closed, add_refusal(field(l, 1), field(l, 2), place, want))
}

// The first line of a page.
fn read_accepted(l: &[u8], q: State, text: &mut Text, want: &mut Text) -> State {
    if 0 < q.page {
        return bad_line(q);
    }
    let closed = close_body(q, text);
    with_page(closed, add_line(l, 0, want, 0))
}

// A further line of a page.
fn read_label(l: &[u8], q: State, want: &mut Text) -> State {
    if q.page == 0 || q.is_refused {
        return bad_line(q);
    }
    with_page(q, add_line(l, 0, want, q.page))
}

// A line of a case.
fn read_line(l: &[u8], q: State, text: &mut Text, want: &mut Text) -> State {
    if is_source(l) {
        let size = add_source(l, text, q.size);
        return with_size(q, size);
    }
    if starts_with(l, b"body ") {
        return read_body(l, q, text);
    }
    if starts_with(l, b"accepted ") {
        return read_accepted(l, q, text, want);
    }
    if starts_with(l, b"label ") {
        return read_label(l, q, want);
    }
    if starts_with(l, b"refused ") {
        return read_refused(l, q, text, want);
    }
    bad_line(q)
}

fn compare(s: &[u8], q: State, want: &[u8], got: &[u8]) -> State {
    if base_prelude::same(want, got) {
        return q;
    }
    put_name(s, q);
    put(b"expected\n");
    put(want);
    put(b"got\n");
    put(got);
    differs(q)
}

// The end of a case: its source is checked, and the page compared.
fn close_case(s: &[u8], q: State, text: &Text, want: &Text) -> State {
    if q.cases == 0 {
        return q;
    }
    if q.page == 0 {
        put_name(s, q);
        put(b"no answer\n");
        return differs(q);
    }
    let source = front(text, q.size);
    let mut out = [0u8; PAGE];
    let n = app_listing::list(source, &mut out).unwrap_or(0);
    compare(s, q, front(want, q.page), front(&out, n))
}

// A case whose name stands at a place.
fn open_case(mut q: State, name: usize) -> State {
    q.cases = one_more(q.cases);
    q.name = name;
    q.size = 0;
    q.is_body = false;
    q.page = 0;
    q.is_refused = false;
    q.is_wrong = false;
    q
}

// The line from a place to an end.
fn take_line(
    s: &[u8],
    at: usize,
    end: usize,
    mut q: State,
    text: &mut Text,
    want: &mut Text,
) -> State
    requires { (at ≤ end) × (end ≤ length s.now) }
{
    q.line = one_more(q.line);
    let l = &s[at..end];
    if is_comment(l) {
        return q;
    }
    if starts_with(l, b"case ") {
        let closed = close_case(s, q, text, want);
        return open_case(closed, at + 5);
    }
    if q.cases == 0 {
        return bad_line(q);
    }
    read_line(l, q, text, want)
}

fn start() -> State {
    State {
        line: 0,
        cases: 0,
        differ: 0,
        name: 0,
        size: 0,
        is_body: false,
        page: 0,
        is_refused: false,
        is_wrong: false,
    }
}

fn run(s: &[u8]) {
    let mut text = [0u8; Case::SOURCE];
    let mut want = [0u8; Case::SOURCE];
    let mut q = start();
    let mut at: usize = 0;
    // By index: a step goes behind the next line's end.
    while at < s.len() {
        let end = line_end(s, at);
        q = take_line(s, at, end, q, &mut text, &mut want);
        at = end + 1;
    }
    q = close_case(s, q, &text, &want);
    put_total(q.cases, q.differ);
}

fn main() {
    let mut input = [0u8; INPUT];
    let n = io::read_full(0, &mut input);
    if n < INPUT {
        run(&input[..n]);
    } else {
        put(b"input too long\n");
    }
}
