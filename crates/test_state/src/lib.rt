// The state of a case: its source, what is lent, and what its lines change and compare between calls.
#![tactic(auto)]

ghost use Rattle.std.specs.Prelude.{◌≡◌};
ghost use Rattle.test_lines.specs.Sources.{source};
ghost use Rattle.test_state.specs.Progress.{on, all_lent, first_of, opened_of, fault_of, numbered_of, failed_of, sized_of, bodied_of, checked_of, shown_of, answered_of, unanswered_of, counted_of, lent_of, machine_of};
ghost use Rattle.test_state.specs.Source.{with_size, open_body, close_body, read_body, read_source};
ghost use Rattle.test_state.specs.Views.{stack_lent, memory_lent, read_memory, read_stack, compare_texts, compare_line, read_accepted, read_answer, view_words, view_bytes, add_change, read_view};
ghost use Rattle.test_state.specs.Changes.{read_bytes, poke_statement, poke_label, poke_name, poke_stack, poke_machine, poked, read_poke, count_part, read_count, lend_part, read_lend, changed, read_change};

use base_limits::Machine;
use test_lines::{Case, add_line, add_source, add_text, front, narrow, one_more, starts_with};
use test_text::{
    Bytes, Memory, Room, Rows, Stack, Text, add_all, at_most, changed_byte, changed_word,
    clear_memory, clear_stack, count_fields, has_values, has_word, put_bytes, value,
};

// What a line may come to, but good.
#[derive(Clone, Copy)]
pub enum Fault {
    BadLine,
    NoAnswer,
    Differs,
}

// Words and bytes lent of each buffer.
#[derive(Clone, Copy)]
pub struct Lent {
    pub statements: usize,
    pub labels: usize,
    pub names: usize,
    pub bytes: usize,
    pub stack: usize,
    pub memory: usize,
}

// The counts handed to each call.
#[derive(Clone, Copy)]
pub struct Counts {
    pub statements: u32,
    pub labels: u32,
    pub bytes: u32,
}

// The lines and cases read, how many differ, and the case that is read.
#[derive(Clone, Copy)]
pub struct Progress {
    pub line: u64,
    pub cases: u64,
    pub differ: u64,
    // the place of its name
    pub name: usize,
    // bytes of its source, and whether they end inside the function that wraps a body
    pub size: usize,
    pub is_body: bool,
    // whether its source is checked, and whether anything differs
    pub is_checked: bool,
    pub is_wrong: bool,
    // bytes of the answer that waits for its line, and of the answer that the line gave, 0 for none
    pub given: usize,
    pub told: usize,
    // what the line came to, but good, and bytes of what was given where it differs
    pub fault: Option<Fault>,
    pub shown: usize,
    pub lent: Lent,
    pub counts: Counts,
    pub machine: Machine,
}

// The fault of a number: none, a bad line, no answer; any other is a difference.
#[tactic(auto, using(base_prelude::proofs::Choice::tests), unfolding(crate::specs::Progress::fault_of))]
fn fault_of(number: u32) -> Option<Fault>
    ensures { result ≡ fault_of number }
{
    match number {
        0 => None,
        1 => Some(Fault::BadLine),
        2 => Some(Fault::NoAnswer),
        _ => Some(Fault::Differs),
    }
}

// The line came to the fault of a number, whichever that is.
pub fn failed(mut q: Progress, fault: u32) -> Progress
    ensures { result ≡ numbered_of q fault }
{
    q.fault = fault_of(fault);
    q
}

// The line came to a fault.
pub fn with_fault(mut q: Progress, fault: Fault) -> Progress
    ensures { result ≡ failed_of q fault }
{
    q.fault = Some(fault);
    q
}

fn set_size(mut q: Progress, size: usize) -> Progress
    ensures { result ≡ sized_of q size }
{
    q.size = size;
    q
}

// Whether the source ends inside the function that wraps a body.
fn set_body(mut q: Progress, is_body: bool) -> Progress
    ensures { result ≡ bodied_of q is_body }
{
    q.is_body = is_body;
    q
}

pub fn set_checked(mut q: Progress) -> Progress
    ensures { result ≡ checked_of q }
{
    q.is_checked = true;
    q
}

fn set_shown(mut q: Progress, size: usize) -> Progress
    ensures { result ≡ shown_of q size }
{
    q.shown = size;
    q
}

// An answer of so many bytes, which waits for its line.
pub fn with_answer(mut q: Progress, size: usize) -> Progress
    ensures { result ≡ answered_of q size }
{
    q.given = size;
    q.told = size;
    q
}

pub fn without_answer(mut q: Progress) -> Progress
    ensures { result ≡ unanswered_of q }
{
    q.given = 0;
    q
}

pub fn with_counts(mut q: Progress, statements: u32, labels: u32, bytes: u32) -> Progress
    ensures { result ≡ counted_of q statements labels bytes }
{
    q.counts = Counts {
        statements,
        labels,
        bytes,
    };
    q
}

fn with_lent(mut q: Progress, a: Lent) -> Progress
    ensures { result ≡ lent_of q a }
{
    q.lent = a;
    q
}

pub fn with_machine(mut q: Progress, r: Machine) -> Progress
    ensures { result ≡ machine_of q r }
{
    q.machine = r;
    q
}

// A source of a new size; it stands before the first call.
fn with_size(q: Progress, size: usize) -> Progress
    ensures { result ≡ with_size q size }
{
    if q.is_checked {
        return with_fault(q, Fault::BadLine);
    }
    if Case::SOURCE <= size {
        return with_fault(q, Fault::BadLine);
    }
    set_size(q, size)
}

fn open_body(q: Progress, text: &mut Text) -> Progress
    ensures { on result text.new ≡ open_body q text.old }
{
    if q.is_body {
        return q;
    }
    let size = add_text(
        b"section functions~0aexport f~0af: function~0a",
        0,
        text,
        q.size,
    );
    with_size(set_body(q, true), size)
}

pub fn close_body(q: Progress, text: &mut Text) -> Progress
    ensures { on result text.new ≡ close_body q text.old }
{
    if q.is_body {
        let size = add_text(b"end function~0a", 0, text, q.size);
        return with_size(set_body(q, false), size);
    }
    q
}

fn read_body(l: &[u8], q: Progress, text: &mut Text) -> Progress
    ensures { on result text.new ≡ read_body l.now q text.old }
{
    let opened = open_body(q, text);
    let size = add_line(l, 5, text, opened.size);
    with_size(opened, size)
}

// A line of the source.
pub fn read_source(l: &[u8], q: Progress, text: &mut Text) -> Progress
    ensures { on result text.new ≡ read_source l.now q text.old }
{
    if q.is_checked {
        return with_fault(q, Fault::BadLine);
    }
    if starts_with(l, b"body ") {
        return read_body(l, q, text);
    }
    let size = add_source(l, text, q.size);
    with_size(q, size)
}

fn with_stack(q: Progress, n: usize) -> Progress
    ensures { result ≡ stack_lent q n }
{
    with_lent(q, Lent { stack: n, ..q.lent })
}

fn with_memory(q: Progress, n: usize) -> Progress
    ensures { result ≡ memory_lent q n }
{
    with_lent(
        q,
        Lent {
            memory: n,
            ..q.lent
        },
    )
}

// `memory N`: what was lent before keeps its bytes. One for both would take the clearing and the bound as well.
pub fn read_memory(l: &[u8], q: Progress, m: &mut Memory) -> Progress
    ensures { on result m.new ≡ read_memory l.now q m.old }
{
    if count_fields(l) != 2 {
        return with_fault(q, Fault::BadLine);
    }
    let n = value(l, 1);
    if 65537 < n {
        return with_fault(q, Fault::BadLine);
    }
    clear_memory(m, n as usize);
    with_memory(q, n as usize)
}

// `stack N`
pub fn read_stack(l: &[u8], q: Progress, k: &mut Stack) -> Progress
    ensures { on result k.new ≡ read_stack l.now q k.old }
{
    if count_fields(l) != 2 {
        return with_fault(q, Fault::BadLine);
    }
    let n = value(l, 1);
    if 16385 < n {
        return with_fault(q, Fault::BadLine);
    }
    clear_stack(k, n as usize);
    with_stack(q, n as usize)
}

// Compares what is wanted with what is given.
fn compare_texts(want: &Text, n: usize, q: Progress, got: &Text, size: usize) -> Progress
    ensures { result ≡ compare_texts want.now n q got.now size }
{
    if base_prelude::same(front(want, n), front(got, size)) {
        return q;
    }
    with_fault(set_shown(q, size), Fault::Differs)
}

// Compares a line with what is given.
fn compare(l: &[u8], q: Progress, got: &Text, size: usize) -> Progress
    ensures { result ≡ compare_line l.now q got.now size }
{
    let mut want = [0u8; Case::SOURCE];
    let n = test_text::plain_line(l, &mut want);
    if Case::SOURCE <= n {
        return with_fault(q, Fault::BadLine);
    }
    compare_texts(&want, n, q, got, size)
}

// An answer with no call before it: that of an accepted source.
fn read_accepted(l: &[u8], q: Progress, got: &mut Text) -> Progress
    ensures { on result got.new ≡ read_accepted l.now q got.old }
{
    if starts_with(l, b"rejected ") {
        let size = add_all(b"accepted", got, 0);
        return compare(l, q, got, size);
    }
    with_fault(q, Fault::BadLine)
}

// The answer of the last call.
pub fn read_answer(l: &[u8], q: Progress, got: &mut Text) -> Progress
    ensures { on result got.new ≡ read_answer l.now q got.old }
{
    let size = q.given;
    if size == 0 {
        return read_accepted(l, q, got);
    }
    compare(l, without_answer(q), got, size)
}

// `words INDEX W ..`
fn view_words(l: &[u8], q: Progress, got: &mut Text, k: &Stack) -> Progress
    ensures { on result got.new ≡ view_words l.now q got.old k.now }
{
    let at = value(l, 1);
    if 16385 <= at {
        return with_fault(q, Fault::BadLine);
    }
    let a = q.lent;
    let n = at_most(a.stack, Room::STACK);
    let size = test_text::add_words(l, at as usize, front(k, n), got);
    compare(l, q, got, size)
}

// `holds ADDRESS B ..`
fn view_bytes(l: &[u8], q: Progress, got: &mut Text, m: &Memory) -> Progress
    ensures { on result got.new ≡ view_bytes l.now q got.old m.now }
{
    let at = value(l, 1);
    if 65537 <= at {
        return with_fault(q, Fault::BadLine);
    }
    let a = q.lent;
    let n = at_most(a.memory, Room::MEMORY);
    let size = test_text::add_bytes(l, at as usize, front(m, n), got);
    compare(l, q, got, size)
}

// What the last call changed first: a word, a byte, or nothing.
fn add_change(a: Lent, got: &mut Text, k: &Stack, m: &Memory) -> usize
    ensures { source result got.new ≡ add_change a got.old k.now m.now }
{
    let n = at_most(a.stack, Room::STACK);
    let i = changed_word(k, n);
    if i < n {
        return test_text::add_words(b"words 0 0", i, front(k, n), got);
    }
    let h = at_most(a.memory, Room::MEMORY);
    let j = changed_byte(m, h);
    if j < h {
        return test_text::add_bytes(b"holds 0 0", j, front(m, h), got);
    }
    add_all(b"same", got, 0)
}

// What stands in the record, the stack and the memory.
pub fn read_view(l: &[u8], q: Progress, got: &mut Text, k: &Stack, m: &Memory) -> Progress
    ensures { on result got.new ≡ read_view l.now q got.old k.now m.now }
{
    if starts_with(l, b"words ") {
        return view_words(l, q, got, k);
    }
    if starts_with(l, b"holds ") {
        return view_bytes(l, q, got, m);
    }
    if starts_with(l, b"record ") {
        let r = q.machine;
        let size = test_text::add_record(r, got);
        return compare(l, q, got, size);
    }
    let a = q.lent;
    let size = add_change(a, got, k, m);
    compare(l, q, got, size)
}

// `bytes ADDRESS B ..`
fn read_bytes(l: &[u8], q: Progress, m: &mut Memory) -> Progress
    ensures { on result m.new ≡ read_bytes l.now q m.old }
{
    let at = value(l, 1);
    if 65537 <= at {
        return with_fault(q, Fault::BadLine);
    }
    let a = q.lent;
    if put_bytes(l, at as usize, a.memory, m) {
        return q;
    }
    with_fault(q, Fault::BadLine)
}

// `poke statement ROW WORD VALUE`
fn poke_statement(l: &[u8], q: Progress, t: &mut Rows) -> Progress
    ensures { on result t.new ≡ poke_statement l.now q t.old }
{
    let row = value(l, 2);
    if 1024 <= row {
        return with_fault(q, Fault::BadLine);
    }
    let word = value(l, 3);
    if 27 <= word {
        return with_fault(q, Fault::BadLine);
    }
    if has_values(l, 4, 5) {
        t[(row * 27 + word) as usize] = narrow(value(l, 4));
        return q;
    }
    with_fault(q, Fault::BadLine)
}

// `poke label ROW WORD VALUE`
fn poke_label(l: &[u8], q: Progress, t: &mut Rows) -> Progress
    ensures { on result t.new ≡ poke_label l.now q t.old }
{
    let row = value(l, 2);
    if 256 <= row {
        return with_fault(q, Fault::BadLine);
    }
    let word = value(l, 3);
    if 4 <= word {
        return with_fault(q, Fault::BadLine);
    }
    if has_values(l, 4, 5) {
        t[(row * 4 + word + 27648) as usize] = narrow(value(l, 4));
        return q;
    }
    with_fault(q, Fault::BadLine)
}

// `poke name ROW BYTE VALUE`
fn poke_name(l: &[u8], q: Progress, b: &mut Bytes) -> Progress
    ensures { on result b.new ≡ poke_name l.now q b.old }
{
    let row = value(l, 2);
    if 256 <= row {
        return with_fault(q, Fault::BadLine);
    }
    let place = value(l, 3);
    if 64 <= place {
        return with_fault(q, Fault::BadLine);
    }
    if count_fields(l) != 5 {
        return with_fault(q, Fault::BadLine);
    }
    let v = value(l, 4);
    if 255 < v {
        return with_fault(q, Fault::BadLine);
    }
    b[(row * 64 + place) as usize] = v as u8;
    q
}

// `poke stack INDEX VALUE`
fn poke_stack(l: &[u8], q: Progress, k: &mut Stack) -> Progress
    ensures { on result k.new ≡ poke_stack l.now q k.old }
{
    let at = value(l, 2);
    if 16385 <= at {
        return with_fault(q, Fault::BadLine);
    }
    if has_values(l, 2, 4) {
        k[at as usize] = narrow(value(l, 3));
        return q;
    }
    with_fault(q, Fault::BadLine)
}

// `poke record FIELD VALUE`
fn poke_record(l: &[u8], q: Progress) -> Progress
    ensures { result ≡ poke_machine l.now q }
{
    if test_text::is_record_poke(l) {
        let r = q.machine;
        let poked = test_text::poke_record(l, r);
        return with_machine(q, poked);
    }
    with_fault(q, Fault::BadLine)
}

fn read_poke(l: &[u8], q: Progress, t: &mut Rows, b: &mut Bytes, k: &mut Stack) -> Progress
    ensures { poked result t.new b.new k.new ≡ read_poke l.now q t.old b.old k.old }
{
    if starts_with(l, b"poke statement ") {
        return poke_statement(l, q, t);
    }
    if starts_with(l, b"poke label ") {
        return poke_label(l, q, t);
    }
    if starts_with(l, b"poke name ") {
        return poke_name(l, q, b);
    }
    if starts_with(l, b"poke stack ") {
        return poke_stack(l, q, k);
    }
    if starts_with(l, b"poke record ") {
        return poke_record(l, q);
    }
    with_fault(q, Fault::BadLine)
}

// The count that a line names.
fn count_part(l: &[u8], q: Progress, n: u32) -> Progress
    ensures { result ≡ count_part l.now q n }
{
    let c = q.counts;
    if has_word(l, 1, b"statements ") {
        return with_counts(q, n, c.labels, c.bytes);
    }
    if has_word(l, 1, b"labels ") {
        return with_counts(q, c.statements, n, c.bytes);
    }
    if has_word(l, 1, b"data ") {
        return with_counts(q, c.statements, c.labels, n);
    }
    with_fault(q, Fault::BadLine)
}

// `count statements N`, `count labels N`, `count data N`
fn read_count(l: &[u8], q: Progress) -> Progress
    ensures { result ≡ read_count l.now q }
{
    if has_values(l, 2, 3) {
        return count_part(l, q, narrow(value(l, 2)));
    }
    with_fault(q, Fault::BadLine)
}

// What is lent, with a part of n in it, at most so many.
fn lend_part(q: Progress, n: u64, most: u64, a: Lent) -> Progress
    ensures { result ≡ lend_part q n most a }
{
    if most < n {
        return with_fault(q, Fault::BadLine);
    }
    with_lent(q, a)
}

// `lend statements N`, `lend labels N`, `lend names N`, `lend data N`
fn read_lend(l: &[u8], q: Progress) -> Progress
    ensures { result ≡ read_lend l.now q }
{
    if count_fields(l) != 3 {
        return with_fault(q, Fault::BadLine);
    }
    let n = value(l, 2);
    let size = n as usize;
    let a = q.lent;
    if has_word(l, 1, b"statements ") {
        return lend_part(
            q,
            n,
            27648,
            Lent {
                statements: size,
                ..a
            },
        );
    }
    if has_word(l, 1, b"labels ") {
        return lend_part(q, n, 1024, Lent { labels: size, ..a });
    }
    if has_word(l, 1, b"names ") {
        return lend_part(q, n, 16384, Lent { names: size, ..a });
    }
    if has_word(l, 1, b"data ") {
        return lend_part(q, n, 32768, Lent { bytes: size, ..a });
    }
    with_fault(q, Fault::BadLine)
}

// A change between calls.
pub fn read_change(
    l: &[u8],
    q: Progress,
    t: &mut Rows,
    b: &mut Bytes,
    k: &mut Stack,
    m: &mut Memory,
) -> Progress
    ensures { changed result t.new b.new k.new m.new ≡ read_change l.now q t.old b.old k.old m.old }
{
    if starts_with(l, b"bytes ") {
        return read_bytes(l, q, m);
    }
    if starts_with(l, b"poke ") {
        return read_poke(l, q, t, b, k);
    }
    if starts_with(l, b"count ") {
        return read_count(l, q);
    }
    if starts_with(l, b"lend ") {
        return read_lend(l, q);
    }
    with_fault(q, Fault::BadLine)
}

// All of each table, and 64 of stack and memory.
fn full() -> Lent
    ensures { result ≡ all_lent }
{
    Lent {
        statements: 27648,
        labels: 1024,
        names: 16384,
        bytes: 32768,
        stack: 64,
        memory: 64,
    }
}

// A case whose name stands at a place.
pub fn open_case(q: Progress, name: usize) -> Progress
    ensures { result ≡ opened_of q name }
{
    Progress {
        line: q.line,
        cases: one_more(q.cases),
        differ: q.differ,
        name,
        ..first()
    }
}

// Before the first case.
pub fn first() -> Progress
    ensures { result ≡ first_of }
{
    let a = full();
    let c = Counts {
        statements: 0,
        labels: 0,
        bytes: 0,
    };
    let r = Machine::fresh(0, 0, 0);
    Progress {
        line: 0,
        cases: 0,
        differ: 0,
        name: 0,
        size: 0,
        is_body: false,
        is_checked: false,
        is_wrong: false,
        given: 0,
        told: 0,
        fault: None,
        shown: 0,
        lent: a,
        counts: c,
        machine: r,
    }
}
