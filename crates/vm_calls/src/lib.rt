// Calls and returns: arguments, new frames, the way a value is handed back; and the answers that statements give.
#![tactic(auto)]

ghost use Rattle.std.specs.Prelude.{◌≡◌, true, suc, ◌+◌, ◌≤◌, ◌<◌, min, length, take};
ghost use Rattle.base_limits.specs.Limits.{greatest_word, memory_bytes, stack_words};
ghost use Rattle.base_limits.specs.declared.Width.TheVariants.{Bits32};
ghost use Rattle.base_limits.specs.Record.{going_on, moved_to, ended};
ghost use Rattle.prog_tables.specs.Statement.{row_at, slots};
ghost use Rattle.prog_tables.specs.Program.{rows_alone};
ghost use Rattle.vm_definitions.specs.Operands.{read_all};
ghost use Rattle.vm_definitions.specs.Access.{store_from};
ghost use Rattle.vm_definitions.specs.Frames.{returns_to, caller_frame, top_at_entry, frame_words, leaves_good};
ghost use Rattle.vm_definitions.specs.Step.{worked_of};
ghost use Rattle.vm_definitions.specs.Lent.{world, left};
ghost use Rattle.prog_tables.specs.Layout.{operand_slots};
ghost use Rattle.prog_tables.specs.Places.{place_of};
ghost use Rattle.vm_calls.specs.Outcomes.{one_step, given_back, halted, after, calling, calling_with, at_calling, tail_calling, tail_calling_with, handing, handing_to, slot_read, words_in, words_given, Expressed, Calls};

use base_limits::Machine;
use lang_kinds::Kind;
use prog_tables::Table;
use vm_definitions::{Broken, Outcome, Resumption, Value};

// A statement that took effect.
fn count_one(q: Machine) -> Outcome
    ensures { result ≡ one_step q }
{
    Outcome {
        machine: q,
        count: 1,
        broken: Broken::No,
    }
}

// Going on at statement n with an auto top.
pub fn go_on(r: Machine, n: u32, top: u32) -> Outcome
    ensures { result ≡ one_step (going_on r n top) }
{
    count_one(Machine::going_on(r, n, top))
}

// The run has finished with a word.
fn finish(v: u32, top: u32) -> Outcome
    ensures { result ≡ one_step (ended Bits32 v top) }
{
    count_one(Machine::ended(v, top))
}

// Nothing happened, but perhaps a 35.
pub fn give_back(r: Machine, b: Broken) -> Outcome
    ensures { result ≡ given_back r b }
{
    Outcome {
        machine: r,
        count: 0,
        broken: b,
    }
}

// The statement stops; nothing is counted.
pub fn stop(r: Machine, k: u32) -> Outcome
    ensures { result ≡ halted r k }
{
    give_back(Machine::stopped(r, k), Broken::No)
}

// The value of the row's expression, which is no call.
pub fn work(t: &[u32], c: u32, r: Machine, st: &[u32], m: &[u8]) -> Result<Value, u32>
    requires { (Expressed (row_at t.now r.next)) × (length m.now ≤ memory_bytes) }
    ensures { result ≡ worked_of (rows_alone t.now c) (world r st.now m.now) }
{
    let n = r.next;
    let s = r.frame;
    let top = r.top;
    let e = prog_tables::expression_at(t, n);
    vm_operands::eval(
        e,
        prog_tables::slot_at(t, n, 0),
        prog_tables::slot_at(t, n, 1),
        st,
        s,
        m,
        top,
    )
}

// ---- calls

// Argument i of row n; s is where the frame starts.
fn read_slot(t: &[u32], n: u32, i: u32, st: &[u32], s: u32, m: &[u8]) -> Option<u32>
    requires { i < operand_slots }
    ensures { result ≡ slot_read t.now n st.now s m.now i }
{
    vm_operands::read_operand(st, s, m, prog_tables::slot_at(t, n, i))
}

// The first k arguments of row n, left to right, where all could be read.
pub fn read_arguments(
    t: &[u32],
    n: u32,
    k: u32,
    st: &[u32],
    s: u32,
    m: &[u8],
) -> Option<[u32; Table::OPERAND_SLOTS]>
    requires { k ≤ operand_slots }
    ensures { words_given result k ≡ read_all Bits32 st.now s m.now (take k (slots t.now (place_of n))) }
{
    let mut words = [0u32; Table::OPERAND_SLOTS];
    for i in 0..k {
        words[i as usize] = read_slot(t, n, i, st, s, m)?;
    }
    Some(words)
}

// How many arguments a row has: at most as many as its slots.
pub fn arguments_at(t: &[u32], n: u32) -> u32
    ensures { (result ≡ min (row_at t.now n).count operand_slots) × (result ≤ operand_slots) }
{
    prog_tables::count_at(t, n).min(Machine::PARAMETERS)
}

// A new frame of function g at a place, with k arguments: the run goes on behind its `function` line.
fn enter(
    r: Machine,
    g: u32,
    size: u32,
    at: u32,
    back: u32,
    below: u32,
    top: u32,
    words: [u32; Table::OPERAND_SLOTS],
    k: u32,
    st: &mut [u32],
) -> Outcome
    requires { (k ≤ operand_slots) × (g < greatest_word) × (at + size ≤ stack_words) }
    ensures { (result ≡ one_step (moved_to r (suc g) at (at + size) top)) × (st.new ≡ store_from st.old at (frame_words Bits32 back below top (take k words) size)) }
{
    let to = k as usize;
    vm_memory::build_frame(st, at, back, below, top, &words[0..to], size);
    count_one(Machine::moved(r, g + 1, at, at + size, top))
}

// A new frame for k arguments behind the frame in use, or stop 33.
fn push_frame(
    t: &[u32],
    c: u32,
    r: Machine,
    words: [u32; Table::OPERAND_SLOTS],
    k: u32,
    st: &mut [u32],
    m: &[u8],
) -> Outcome
    requires { (k ≤ operand_slots) × ((row_at t.now r.next).callee < c) × (length st.old ≤ stack_words) }
    ensures { left result st.new m.now ≡ after (calling_with (words_in true words k)) t.now c r st.old m.now }
{
    let n = r.next;
    let used = r.used;
    let frame = r.frame;
    let top = r.top;
    let g = prog_tables::callee_at(t, n);
    let size = prog_tables::a_at(t, g);
    if st.len() < used as usize + size as usize {
        return stop(r, 33);
    }
    enter(r, g, size, used, n, frame, top, words, k, st)
}

// A call in any form, its address judged: arguments, then the frame.
pub fn call(t: &[u32], c: u32, r: Machine, st: &mut [u32], m: &[u8]) -> Outcome
    requires { (Calls (row_at t.now r.next) c) × (length st.old ≤ stack_words) }
    ensures { left result st.new m.now ≡ after calling t.now c r st.old m.now }
{
    let n = r.next;
    let s = r.frame;
    let k = arguments_at(t, n);
    match read_arguments(t, n, k, st, s, m) {
        Some(words) => push_frame(t, c, r, words, k, st, m),
        None => stop(r, 32),
    }
}

// `set @` with a call: the address is judged first.
pub fn call_at(t: &[u32], c: u32, r: Machine, st: &mut [u32], m: &[u8]) -> Outcome
    requires { (Calls (row_at t.now r.next) c) × (length st.old ≤ stack_words) }
    ensures { left result st.new m.now ≡ after at_calling t.now c r st.old m.now }
{
    let n = r.next;
    let s = r.frame;
    let a = vm_operands::number_in(st, s, prog_tables::address_at(t, n));
    if vm_operands::has_word(m.len(), a) {
        return call(t, c, r, st, m);
    }
    stop(r, 32)
}

// A new frame of function g in the place of the frame in use; its head stays.
fn enter_again(
    r: Machine,
    g: u32,
    size: u32,
    words: [u32; Table::OPERAND_SLOTS],
    k: u32,
    st: &mut [u32],
) -> Outcome
    requires { (k ≤ operand_slots) × (g < greatest_word) × (r.frame + size ≤ stack_words) }
    ensures { (result ≡ one_step (moved_to r (suc g) r.frame (r.frame + size) (top_at_entry st.old r.frame))) × (st.new ≡ store_from st.old r.frame (frame_words Bits32 (returns_to st.old r.frame) (caller_frame st.old r.frame) (top_at_entry st.old r.frame) (take k words) size)) }
{
    let s = r.frame;
    let at = s as usize;
    let back = prog_tables::word_at(st, at);
    let below = prog_tables::word_at(st, at + 1);
    let top = prog_tables::word_at(st, at + 2);
    enter(r, g, size, s, back, below, top, words, k, st)
}

// A new frame for k arguments in the place of the frame in use, or stop 33.
fn replace_frame(
    t: &[u32],
    c: u32,
    r: Machine,
    words: [u32; Table::OPERAND_SLOTS],
    k: u32,
    st: &mut [u32],
    m: &[u8],
) -> Outcome
    requires { (k ≤ operand_slots) × ((row_at t.now r.next).callee < c) × (length st.old ≤ stack_words) }
    ensures { left result st.new m.now ≡ after (tail_calling_with (words_in true words k)) t.now c r st.old m.now }
{
    let n = r.next;
    let s = r.frame;
    let g = prog_tables::callee_at(t, n);
    let size = prog_tables::a_at(t, g);
    if st.len() < s as usize + size as usize {
        return stop(r, 33);
    }
    enter_again(r, g, size, words, k, st)
}

// `tail-call`: all arguments are read before a word is written.
pub fn tail_call(t: &[u32], c: u32, r: Machine, st: &mut [u32], m: &[u8]) -> Outcome
    requires { (Calls (row_at t.now r.next) c) × (length st.old ≤ stack_words) }
    ensures { left result st.new m.now ≡ after tail_calling t.now c r st.old m.now }
{
    let n = r.next;
    let s = r.frame;
    let k = arguments_at(t, n);
    match read_arguments(t, n, k, st, s, m) {
        Some(words) => replace_frame(t, c, r, words, k, st, m),
        None => stop(r, 32),
    }
}

// ---- returns

// A value for the call at row i, whose frame is at s; q is the record behind it.
pub fn hand_to(
    t: &[u32],
    c: u32,
    r: Machine,
    v: u32,
    i: u32,
    s: u32,
    q: Machine,
    st: &mut [u32],
    m: &mut [u8],
) -> Outcome
    ensures { left result st.new m.new ≡ after (handing_to v i s q) t.now c r st.old m.old }
{
    let k = prog_tables::kind_at(t, i);
    if k == Kind::SET_AT {
        let a = vm_operands::number_in(st, s, prog_tables::address_at(t, i));
        if vm_operands::has_word(m.len(), a) {
            vm_memory::put_word(m, a, v);
            return count_one(q);
        }
        return stop(r, 32);
    }
    if k == Kind::CALL {
        return count_one(q);
    }
    let x = prog_tables::a_at(t, i);
    vm_memory::put(st, s as usize + x as usize, v);
    count_one(q)
}
// A value handed back: all frames that the return leaves are good.
pub fn hand_back(t: &[u32], c: u32, r: Machine, v: u32, st: &mut [u32], m: &mut [u8]) -> Outcome
    requires { leaves_good Bits32 (row_at t.now) c (length m.old) st.old (suc r.frame) r.frame ≡ true }
    ensures { left result st.new m.new ≡ after (handing v) t.now c r st.old m.old }
{
    let s = r.frame;
    let way = vm_guard::resumption(t, c, st, s);
    match way {
        Resumption::Ends { top } => finish(v, top),
        Resumption::Caller {
            call,
            frame,
            used,
            top,
        } => {
            let q = Machine::moved(r, call + 1, frame, used, top);
            hand_to(t, c, r, v, call, frame, q, st, m)
        }
    }
}
