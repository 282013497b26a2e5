// Start, step, run and going on as the lines of a case call them.
#![tactic(auto)]

ghost use Rattle.std.specs.Prelude.{◌≡◌};
ghost use Rattle.base_limits.specs.declared.Width.TheVariants.{Bits32};
ghost use Rattle.prog_tables.specs.Program.{program_from};
ghost use Rattle.vm_definitions.specs.Step.{step_of, run_of, resume_of};
ghost use Rattle.vm_definitions.specs.Lent.{world, left, resumed};
ghost use Rattle.vm_start.specs.Opening.{opened, opening_of};
ghost use Rattle.test_lines.specs.Sources.{source};
ghost use Rattle.test_state.specs.Progress.{on};
ghost use Rattle.test_calls.specs.Calls.{ran, with_outcome, with_opening, with_resumed, tables_in, data_in, do_step, do_run, do_resume, read_name, do_start, start_named, read_start, read_run, read_resume, is_start, do_call, read_call};

use test_lines::{Case, add_text, field_start, front, starts_with};
use test_state::{Fault, Progress, with_answer, with_fault, with_machine};
use test_text::{Bytes, Memory, Room, Rows, Stack, Text, at_most, behind, keep_memory, keep_stack};
use vm_definitions::{Opening, Outcome, Resumed};

fn with_outcome(q: Progress, o: Outcome, got: &mut Text) -> Progress
    ensures { on result got.new ≡ with_outcome q o got.old }
{
    with_answer(with_machine(q, o.machine), test_text::add_outcome(o, got))
}

fn with_opening(q: Progress, o: Opening, got: &mut Text) -> Progress
    ensures { on result got.new ≡ with_opening q o got.old }
{
    with_answer(
        with_machine(q, o.machine),
        test_text::add_started(o.answer, got),
    )
}

fn with_resumed(q: Progress, o: Resumed, got: &mut Text) -> Progress
    ensures { on result got.new ≡ with_resumed q o got.old }
{
    let a = o.outcome;
    let r = a.machine;
    with_answer(with_machine(q, r), test_text::add_resumed(o, got))
}

// Four alike: each hands the lent tables to another function of the machine, which answers with another type.
fn call_step(q: Progress, t: &[u32], b: &[u8], stack: &mut [u32], memory: &mut [u8]) -> Outcome
    ensures { left result stack.new memory.new ≡ step_of (program_from Bits32 (tables_in q t.now b.now)) (world q.machine stack.old memory.old) }
{
    let a = q.lent;
    let c = q.counts;
    let r = q.machine;
    vm_run::step(
        front(t, a.statements),
        c.statements,
        front(behind(t, Room::STATEMENTS), a.labels),
        c.labels,
        front(b, a.names),
        c.bytes,
        r,
        stack,
        memory,
    )
}

fn call_run(
    q: Progress,
    budget: u64,
    t: &[u32],
    b: &[u8],
    stack: &mut [u32],
    memory: &mut [u8],
) -> Outcome
    ensures { left result stack.new memory.new ≡ run_of (program_from Bits32 (tables_in q t.now b.now)) budget (world q.machine stack.old memory.old) }
{
    let a = q.lent;
    let c = q.counts;
    let r = q.machine;
    vm_run::run(
        front(t, a.statements),
        c.statements,
        front(behind(t, Room::STATEMENTS), a.labels),
        c.labels,
        front(b, a.names),
        c.bytes,
        budget,
        r,
        stack,
        memory,
    )
}

fn call_resume(
    q: Progress,
    word: u32,
    t: &[u32],
    b: &[u8],
    stack: &mut [u32],
    memory: &mut [u8],
) -> Resumed
    ensures { resumed result stack.new memory.new ≡ resume_of (program_from Bits32 (tables_in q t.now b.now)) word (world q.machine stack.old memory.old) }
{
    let a = q.lent;
    let c = q.counts;
    let r = q.machine;
    vm_resume::resume(
        front(t, a.statements),
        c.statements,
        front(behind(t, Room::STATEMENTS), a.labels),
        c.labels,
        front(b, a.names),
        c.bytes,
        word,
        r,
        stack,
        memory,
    )
}

fn call_start(
    q: Progress,
    name: &[u8],
    arguments: &[u32],
    t: &[u32],
    b: &[u8],
    stack: &mut [u32],
    memory: &mut [u8],
) -> Opening
    ensures { opened result stack.new memory.new ≡ opening_of (program_from Bits32 (tables_in q t.now b.now)) (data_in q b.now) name.now arguments.now (world q.machine stack.old memory.old) }
{
    let a = q.lent;
    let c = q.counts;
    let r = q.machine;
    vm_start::start(
        front(t, a.statements),
        c.statements,
        front(behind(t, Room::STATEMENTS), a.labels),
        c.labels,
        front(b, a.names),
        c.bytes,
        front(behind(b, Room::NAMES), a.bytes),
        name,
        arguments,
        r,
        stack,
        memory,
    )
}

// `step`
fn do_step(
    q: Progress,
    got: &mut Text,
    t: &[u32],
    b: &[u8],
    k: &mut [u32],
    m: &mut [u8],
) -> Progress
    ensures { ran result got.new k.new m.new ≡ do_step q got.old t.now b.now k.old m.old }
{
    let a = q.lent;
    let n = at_most(a.stack, k.len());
    let h = at_most(a.memory, m.len());
    let o = call_step(q, t, b, &mut k[0..n], &mut m[0..h]);
    with_outcome(q, o, got)
}

// `run BUDGET`
fn do_run(
    q: Progress,
    budget: u64,
    got: &mut Text,
    t: &[u32],
    b: &[u8],
    k: &mut [u32],
    m: &mut [u8],
) -> Progress
    ensures { ran result got.new k.new m.new ≡ do_run budget q got.old t.now b.now k.old m.old }
{
    let a = q.lent;
    let n = at_most(a.stack, k.len());
    let h = at_most(a.memory, m.len());
    let o = call_run(q, budget, t, b, &mut k[0..n], &mut m[0..h]);
    with_outcome(q, o, got)
}

// `resume WORD`
fn do_resume(
    q: Progress,
    word: u32,
    got: &mut Text,
    t: &[u32],
    b: &[u8],
    k: &mut [u32],
    m: &mut [u8],
) -> Progress
    ensures { ran result got.new k.new m.new ≡ do_resume word q got.old t.now b.now k.old m.old }
{
    let a = q.lent;
    let n = at_most(a.stack, k.len());
    let h = at_most(a.memory, m.len());
    let o = call_resume(q, word, t, b, &mut k[0..n], &mut m[0..h]);
    with_resumed(q, o, got)
}

// The bytes of the name of a start.
fn read_name(l: &[u8], name: &mut Text) -> usize
    ensures { source result name.new ≡ read_name l.now name.old }
{
    let from = field_start(l, 1);
    let end = test_text::word_end(l, from);
    add_text(&l[from..end], 0, name, 0)
}

// `start NAME ARGUMENT ..`
fn do_start(
    q: Progress,
    name: &[u8],
    arguments: &[u32],
    got: &mut Text,
    t: &[u32],
    b: &[u8],
    k: &mut [u32],
    m: &mut [u8],
) -> Progress
    ensures { ran result got.new k.new m.new ≡ do_start name.now arguments.now q got.old t.now b.now k.old m.old }
{
    let a = q.lent;
    let n = at_most(a.stack, k.len());
    let h = at_most(a.memory, m.len());
    let o = call_start(q, name, arguments, t, b, &mut k[0..n], &mut m[0..h]);
    with_opening(q, o, got)
}

// A start whose name and arguments stand in the front of buffers.
fn start_named(
    name: &Text,
    size: usize,
    arguments: &[u32; 16],
    count: usize,
    q: Progress,
    got: &mut Text,
    t: &Rows,
    b: &Bytes,
    k: &mut Stack,
    m: &mut Memory,
) -> Progress
    ensures { ran result got.new k.new m.new ≡ start_named name.now size arguments.now count q got.old t.now b.now k.old m.old }
{
    do_start(
        q,
        front(name, size),
        front(arguments, count),
        got,
        t,
        b,
        k,
        m,
    )
}

fn read_start(
    l: &[u8],
    q: Progress,
    got: &mut Text,
    t: &Rows,
    b: &Bytes,
    k: &mut Stack,
    m: &mut Memory,
) -> Progress
    ensures { ran result got.new k.new m.new ≡ read_start l.now q got.old t.now b.now k.old m.old }
{
    let mut name = [0u8; Case::SOURCE];
    let mut arguments = [0u32; 16];
    let size = read_name(l, &mut name);
    if Case::SOURCE <= size {
        return with_fault(q, Fault::BadLine);
    }
    let n = test_text::read_arguments(l, &mut arguments);
    if 16 < n {
        return with_fault(q, Fault::BadLine);
    }
    start_named(&name, size, &arguments, n, q, got, t, b, k, m)
}

fn read_run(
    l: &[u8],
    q: Progress,
    got: &mut Text,
    t: &Rows,
    b: &Bytes,
    k: &mut Stack,
    m: &mut Memory,
) -> Progress
    ensures { ran result got.new k.new m.new ≡ read_run l.now q got.old t.now b.now k.old m.old }
{
    if test_text::is_digits(l, 4) {
        let budget = test_text::long_number(l, 4);
        return do_run(q, budget, got, t, b, k, m);
    }
    with_fault(q, Fault::BadLine)
}

fn read_resume(
    l: &[u8],
    q: Progress,
    got: &mut Text,
    t: &Rows,
    b: &Bytes,
    k: &mut Stack,
    m: &mut Memory,
) -> Progress
    ensures { ran result got.new k.new m.new ≡ read_resume l.now q got.old t.now b.now k.old m.old }
{
    if test_text::has_values(l, 1, 2) {
        let word = test_text::word_in(l, 1);
        return do_resume(q, word, got, t, b, k, m);
    }
    with_fault(q, Fault::BadLine)
}

// A start; one of the empty name may end behind its word.
#[tactic(auto, using(crate::proofs::Cases::is_start_ways))]
pub fn is_start(l: &[u8]) -> bool
    ensures { result ≡ is_start l.now }
{
    starts_with(l, b"start ") || base_prelude::same(l, b"start")
}

// What the word of a line calls.
fn do_call(
    l: &[u8],
    q: Progress,
    got: &mut Text,
    t: &Rows,
    b: &Bytes,
    k: &mut Stack,
    m: &mut Memory,
) -> Progress
    ensures { ran result got.new k.new m.new ≡ do_call l.now q got.old t.now b.now k.old m.old }
{
    if is_start(l) {
        return read_start(l, q, got, t, b, k, m);
    }
    if starts_with(l, b"run ") {
        return read_run(l, q, got, t, b, k, m);
    }
    if starts_with(l, b"resume ") {
        return read_resume(l, q, got, t, b, k, m);
    }
    do_step(q, got, t, b, k, m)
}

// A call; what is lent is kept before it.
pub fn read_call(
    l: &[u8],
    q: Progress,
    got: &mut Text,
    t: &Rows,
    b: &Bytes,
    k: &mut Stack,
    m: &mut Memory,
) -> Progress
    ensures { ran result got.new k.new m.new ≡ read_call l.now q got.old t.now b.now k.old m.old }
{
    let a = q.lent;
    keep_stack(k, a.stack);
    keep_memory(m, a.memory);
    do_call(l, q, got, t, b, k, m)
}
