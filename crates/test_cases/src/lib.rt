// Checks the source of a case and reads its lines.
#![tactic(auto)]

ghost use Rattle.std.specs.Prelude.{◌≡◌};
ghost use Rattle.test_state.specs.Progress.{on};
ghost use Rattle.test_cases.specs.Checks.{with_checked, kept, check_source, once, check_once};
ghost use Rattle.test_cases.specs.Lines.{is_call, is_answer, is_view, is_text, done, read_checked, lined, read_behind, read_line};

use base_limits::{Machine, Refusal, Width};
use check_source::Counts;
use prog_tables::Table;
use test_calls::{is_start, read_call};
use test_lines::{front, is_source, starts_with};
use test_state::{
    Fault, Progress, close_body, read_answer, read_change, read_memory, read_source, read_stack,
    read_view, set_checked, with_answer, with_counts, with_fault, without_answer,
};
use test_text::{Bytes, Memory, Room, Rows, Stack, Text, copy_bytes};

fn with_checked(x: Result<Counts, Refusal>, q: Progress, got: &mut Text) -> Progress
    ensures { on result got.new ≡ with_checked x q got.old }
{
    match x {
        Ok(p) => with_counts(q, p.statements, p.labels, p.size),
        Err(r) => with_answer(q, test_text::add_rejected(r.number, r.place, got)),
    }
}

// Checks a source against the list that the case runner lends, and keeps its tables.
fn check_source(s: &[u8], t: &mut Rows, b: &mut Bytes) -> Result<Counts, Refusal>
    ensures { kept result t.new b.new ≡ check_source s.now t.old b.old }
{
    let mut tokens = [0u32; Machine::TOKEN_WORDS];
    let mut rows = [0u32; Table::STATEMENT_WORDS];
    let mut labels = [0u32; Table::LABEL_WORDS];
    let mut names = [0u8; Table::NAME_TABLE];
    let mut bytes = [0u8; Machine::DATA_BYTES];
    let hosts = res_hosts::lister_words();
    let host_names = res_hosts::lister_names();
    let x = check_source::check(
        Width::Bits32,
        s,
        &hosts,
        &host_names,
        &mut tokens,
        &mut rows,
        &mut labels,
        &mut names,
        &mut bytes,
    );
    vm_memory::put_words(t, 0, &rows);
    vm_memory::put_words(t, Room::STATEMENTS, &labels);
    copy_bytes(&names, b, 0);
    copy_bytes(&bytes, b, Room::NAMES);
    x
}

// Checks the source once, before the first line that needs its tables.
fn check_once(q: Progress, text: &mut Text, got: &mut Text, t: &mut Rows, b: &mut Bytes) -> Progress
    ensures { once result text.new got.new t.new b.new ≡ check_once q text.old got.old t.old b.old }
{
    if q.is_checked {
        return q;
    }
    let closed = set_checked(close_body(q, text));
    let x = check_source(front(text, closed.size), t, b);
    with_checked(x, closed, got)
}

#[tactic(auto, using(crate::proofs::Cases::is_call_ways))]
fn is_call(l: &[u8]) -> bool
    ensures { result ≡ is_call l.now }
{
    is_start(l)
        || starts_with(l, b"run ")
        || starts_with(l, b"resume ")
        || base_prelude::same(l, b"step")
}

#[tactic(auto, using(crate::proofs::Cases::is_answer_ways))]
fn is_answer(l: &[u8]) -> bool
    ensures { result ≡ is_answer l.now }
{
    starts_with(l, b"begun")
        || starts_with(l, b"refused ")
        || starts_with(l, b"broken ")
        || starts_with(l, b"going ")
        || starts_with(l, b"finished ")
        || starts_with(l, b"stopped ")
        || starts_with(l, b"paused ")
        || starts_with(l, b"rejected ")
}

#[tactic(auto, using(crate::proofs::Cases::is_view_ways))]
fn is_view(l: &[u8]) -> bool
    ensures { result ≡ is_view l.now }
{
    starts_with(l, b"record ")
        || starts_with(l, b"words ")
        || starts_with(l, b"holds ")
        || starts_with(l, b"same")
}

// A line behind the check; the answer of a call stands right behind it.
fn read_checked(
    l: &[u8],
    q: Progress,
    got: &mut Text,
    t: &mut Rows,
    b: &mut Bytes,
    k: &mut Stack,
    m: &mut Memory,
) -> Progress
    ensures { done result got.new t.new b.new k.new m.new ≡ read_checked l.now q got.old t.old b.old k.old m.old }
{
    if is_answer(l) {
        return read_answer(l, q, got);
    }
    if 0 < q.given {
        return with_fault(without_answer(q), Fault::NoAnswer);
    }
    if is_call(l) {
        return read_call(l, q, got, t, b, k, m);
    }
    if is_view(l) {
        return read_view(l, q, got, k, m);
    }
    read_change(l, q, t, b, k, m)
}

#[tactic(auto, using(crate::proofs::Cases::is_text_ways))]
fn is_text(l: &[u8]) -> bool
    ensures { result ≡ is_text l.now }
{
    is_source(l) || starts_with(l, b"body ")
}

// A line that needs the tables of the source.
fn read_behind(
    l: &[u8],
    q: Progress,
    text: &mut Text,
    got: &mut Text,
    t: &mut Rows,
    b: &mut Bytes,
    k: &mut Stack,
    m: &mut Memory,
) -> Progress
    ensures { lined result text.new got.new t.new b.new k.new m.new ≡ read_behind l.now q text.old got.old t.old b.old k.old m.old }
{
    let checked = check_once(q, text, got, t, b);
    match checked.fault {
        Some(_) => checked,
        None => read_checked(l, checked, got, t, b, k, m),
    }
}

// A line of a case.
pub fn read_line(
    l: &[u8],
    q: Progress,
    text: &mut Text,
    got: &mut Text,
    t: &mut Rows,
    b: &mut Bytes,
    k: &mut Stack,
    m: &mut Memory,
) -> Progress
    ensures { lined result text.new got.new t.new b.new k.new m.new ≡ read_line l.now q text.old got.old t.old b.old k.old m.old }
{
    if is_text(l) {
        return read_source(l, q, text);
    }
    if starts_with(l, b"memory ") {
        return read_memory(l, q, m);
    }
    if starts_with(l, b"stack ") {
        return read_stack(l, q, k);
    }
    read_behind(l, q, text, got, t, b, k, m)
}
