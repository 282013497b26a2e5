// Runs check, start, step, run and resume on the cases of standard input and prints each answer and what differs.
#![tactic(auto)]

ghost use Rattle.std.specs.Prelude.{◌≤◌, length};

use test_lines::{Case, front, is_comment, line_end, one_more, starts_with};
use test_state::{Fault, Progress, with_fault};
use test_text::{Bytes, Memory, Room, Rows, Stack, Text, clear_memory, clear_stack};

// Room for the input: one byte more than it may have.
const INPUT: usize = 262144;

fn put(text: &[u8]) {
    io::write_all(1, text);
}

fn put_number(n: u64) {
    io::print_decimal(1, n);
}

fn put_total(cases: u64, differ: u64) {
    put_number(cases);
    put(b" cases, ");
    put_number(differ);
    put(b" differ\n");
}

fn put_line(s: &[u8], at: usize) {
    if at < s.len() {
        let end = line_end(s, at);
        put(&s[at..end]);
    }
}

fn put_name(s: &[u8], q: Progress) {
    put_line(s, q.name);
    put(b", line ");
    put_number(q.line);
    put(b": ");
}

// An answer of so many bytes; none where there are none.
fn put_answer(got: &[u8]) {
    if !got.is_empty() {
        put(got);
        put(b"\n");
    }
}

fn put_bad_line(line: u64) {
    put(b"line ");
    put_number(line);
    put(b": no line of a case\n");
}

fn put_no_answer(s: &[u8], q: Progress) {
    put_name(s, q);
    put(b"no answer\n");
}

fn put_difference(s: &[u8], l: &[u8], q: Progress, got: &[u8]) {
    put_name(s, q);
    put(b"expected ");
    put(l);
    put(b", given ");
    put(got);
    put(b"\n");
}

// The case counts as differing once.
fn differs(mut q: Progress) -> Progress {
    q.fault = None;
    if q.is_wrong {
        return q;
    }
    q.is_wrong = true;
    q.differ = one_more(q.differ);
    q
}

// Prints where a line came to a fault.
fn report_fault(s: &[u8], l: &[u8], q: Progress, got: &Text) -> Progress {
    match q.fault {
        None => return q,
        Some(Fault::BadLine) => put_bad_line(q.line),
        Some(Fault::NoAnswer) => put_no_answer(s, q),
        Some(Fault::Differs) => put_difference(s, l, q, front(got, q.shown)),
    }
    differs(q)
}

// Prints what a line came to.
fn report(s: &[u8], l: &[u8], q: Progress, got: &Text) -> Progress {
    put_answer(front(got, q.told));
    report_fault(s, l, q, got)
}

// The end of a case: its last call has an answer, and it has a call.
fn close_case(s: &[u8], q: Progress) -> Progress {
    if q.cases == 0 || q.is_checked && q.given == 0 {
        return q;
    }
    put_no_answer(s, q);
    differs(q)
}

fn begin_case(
    s: &[u8],
    l: &[u8],
    q: Progress,
    name: usize,
    k: &mut Stack,
    m: &mut Memory,
) -> Progress {
    clear_stack(k, 0);
    clear_memory(m, 0);
    let closed = close_case(s, q);
    put(l);
    put(b"\n");
    test_state::open_case(closed, name)
}

// A line that does not begin a case.
fn take_part(
    s: &[u8],
    l: &[u8],
    q: Progress,
    text: &mut Text,
    got: &mut Text,
    t: &mut Rows,
    b: &mut Bytes,
    k: &mut Stack,
    m: &mut Memory,
) -> Progress {
    if q.cases == 0 {
        return report(s, l, with_fault(q, Fault::BadLine), got);
    }
    let read = test_cases::read_line(l, q, text, got, t, b, k, m);
    report(s, l, read, got)
}

// The line from a place to an end.
fn take_line(
    s: &[u8],
    at: usize,
    end: usize,
    mut q: Progress,
    text: &mut Text,
    got: &mut Text,
    t: &mut Rows,
    b: &mut Bytes,
    k: &mut Stack,
    m: &mut Memory,
) -> Progress
    requires { (at ≤ end) × (end ≤ length s.now) }
{
    q.line = one_more(q.line);
    q.told = 0;
    let l = &s[at..end];
    if is_comment(l) {
        return q;
    }
    if starts_with(l, b"case ") {
        return begin_case(s, l, q, at + 5, k, m);
    }
    take_part(s, l, q, text, got, t, b, k, m)
}

fn run(s: &[u8]) {
    let mut text = [0u8; Case::SOURCE];
    let mut got = [0u8; Case::SOURCE];
    let mut t = [0u32; Room::ROWS];
    let mut b = [0u8; Room::BYTES];
    let mut k = [0u32; Room::TWO_STACKS];
    let mut m = [0u8; Room::TWO_MEMORIES];
    let mut q = test_state::first();
    let mut at: usize = 0;
    // By index: a step goes behind the next line's end.
    while at < s.len() {
        let end = line_end(s, at);
        q = take_line(
            s, at, end, q, &mut text, &mut got, &mut t, &mut b, &mut k, &mut m,
        );
        at = end + 1;
    }
    q = close_case(s, q);
    put_total(q.cases, q.differ);
}

fn main() {
    let mut input = [0u8; INPUT];
    let n = io::read_full(0, &mut input);
    if n < INPUT {
        run(&input[..n]);
    } else {
        put(b"input too long\n");
    }
}
