// Calls and returns, each taken with few tests. What is not taken is left to the exact step.
#![tactic(auto)]

ghost use Rattle.std.specs.Prelude.{◌≡◌, ◌+◌, ◌*◌, ◌≤◌, ◌<◌, length, take};
ghost use Rattle.base_limits.specs.Limits.{word_values, greatest_word, memory_bytes, stack_words};
ghost use Rattle.prog_tables.specs.Statement.{operand_at, row_at, slots};
ghost use Rattle.prog_tables.specs.Program.{lent_program};
ghost use Rattle.prog_tables.specs.Faults.{operand_fault};
ghost use Rattle.vm_calls.specs.Outcomes.{words_given};
ghost use Rattle.prog_tables.specs.Layout.{statement_row, operand_slots};
ghost use Rattle.prog_tables.specs.Places.{place_of, slot_at};
ghost use Rattle.vm_quick_calls.specs.Transfers.{transferred, good_from, callee_size, calls_local, calls_any, call_good, good_all, pushed, entered, call_transfer, tail_transfer, result_of, resumed, hand_to, hand_transfer, return_transfer, transfer_of};

use base_limits::Machine;
use lang_kinds::Kind;
use prog_tables::{ExpressionKind, OperandKind, Table};
use vm_definitions::Value;

// Where a call or a return that is taken goes on: in another frame, with its words and an auto top. Without one nothing happened.
#[derive(Clone, Copy, Debug, PartialEq, Eq)]
pub struct Transfer {
    pub next: u32,
    pub frame: u32,
    pub used: u32,
    pub top: u32,
}

// Whether the operand at a place is broken.
fn is_bad(t: &[u32], i: usize, d: u32, size: u32) -> bool
    requires { i + 1 < length t.now }
    ensures { result ≡ operand_fault size d (operand_at t.now i) }
{
    let k = prog_tables::word_in(t, i);
    let v = prog_tables::word_in(t, i + 1);
    match k {
        OperandKind::CONSTANT => false,
        OperandKind::LOCAL => size <= v,
        OperandKind::ADDRESS => d < v,
        OperandKind::AT_CONSTANT => false,
        OperandKind::AT_LOCAL => size <= v,
        OperandKind::AT_ADDRESS => d < v,
        _ => true,
    }
}

// Whether operand i of row n is broken.
fn is_slot_bad(t: &[u32], n: u32, i: u32, d: u32, size: u32) -> bool
    requires { (place_of n + statement_row ≤ length t.now) × (i < operand_slots) }
    ensures { result ≡ operand_fault size d (slot_at t.now n i) }
{
    is_bad(t, prog_tables::slot_place(n, i), d, size)
}

// Whether the first k operands of row n are good.
fn are_good(t: &[u32], n: u32, d: u32, size: u32, k: u32) -> bool
    requires { (place_of n + statement_row ≤ length t.now) × (k ≤ operand_slots) }
    ensures { result ≡ good_from t.now (place_of n) size d k 0 }
{
    for i in 0..k {
        if is_slot_bad(t, n, i, d, size) {
            return false;
        }
    }
    true
}

// The frame size of function p, where it has k parameters; else 0.
fn callee_size(t: &[u32], c: u32, l: &[u32], lc: u32, d: u32, p: u32, k: u32) -> u32
    requires { c * statement_row ≤ length t.now }
    ensures { result ≡ callee_size (lent_program t.now c l.now lc d) p k }
{
    if prog_tables::parameters_at(t, p) == k {
        return vm_quick_operands::size_of(t, c, p);
    }
    0
}

// Whether row n is a bare call, or a `let` or `set` of a local with a call.
fn calls_local(t: &[u32], size: u32, n: u32) -> bool
    ensures { result ≡ calls_local (row_at t.now) size n }
{
    let e = prog_tables::expression_at(t, n);
    if e == ExpressionKind::CALL {
        let k = prog_tables::kind_at(t, n);
        let a = prog_tables::a_at(t, n);
        return match k {
            Kind::CALL => true,
            Kind::LET => a < size,
            Kind::SET => a < size,
            _ => false,
        };
    }
    false
}

// Whether row n is one of these or `return call`.
fn calls_any(t: &[u32], size: u32, n: u32) -> bool
    ensures { result ≡ calls_any (row_at t.now) size n }
{
    let k = prog_tables::kind_at(t, n);
    if k == Kind::RETURN {
        return prog_tables::expression_at(t, n) == ExpressionKind::CALL;
    }
    calls_local(t, size, n)
}

// Whether row p is a call to which a value is handed, with a good callee and good arguments; its frame has this size.
fn is_call_good(t: &[u32], c: u32, l: &[u32], lc: u32, d: u32, size: u32, p: u32) -> bool
    requires { (p < c) × (c * statement_row ≤ length t.now) }
    ensures { result ≡ call_good t.now c l.now lc d size p }
{
    let k = prog_tables::count_at(t, p);
    if Machine::PARAMETERS < k {
        return false;
    }
    if callee_size(t, c, l, lc, d, prog_tables::callee_at(t, p), k) == 0 {
        return false;
    }
    if calls_local(t, size, p) {
        return are_good(t, p, d, size, k);
    }
    false
}

// The first k arguments of row n, left to right, where all are good and could be read.
fn read_arguments(
    t: &[u32],
    n: u32,
    k: u32,
    d: u32,
    size: u32,
    st: &[u32],
    s: u32,
    m: &[u8],
) -> Option<[u32; Table::OPERAND_SLOTS]>
    requires { (place_of n + statement_row ≤ length t.now) × (k ≤ operand_slots) × (s + size ≤ length st.now) }
    ensures { words_given result k ≡ good_all size d st.now s m.now (take k (slots t.now (place_of n))) }
{
    let mut words = [0u32; Table::OPERAND_SLOTS];
    for i in 0..k {
        words[i as usize] = vm_quick_operands::read_slot(t, n, i, d, size, st, s, m)?;
    }
    Some(words)
}

// A new frame of z words for function p at a place: where it returns to, and the start of the caller's frame.
fn push_frame(
    st: &mut [u32],
    at: u32,
    call: u32,
    below: u32,
    top: u32,
    p: u32,
    z: u32,
    words: &[u32],
) -> Transfer
    requires { (length words.now ≤ operand_slots) × (at + z < word_values) × (p < greatest_word) }
    ensures { transferred (Some result) st.new ≡ pushed st.old at call below top p z words.now }
{
    vm_memory::build_frame(st, at, call, below, top, words, z);
    Transfer {
        next: p + 1,
        frame: at,
        used: at + z,
        top,
    }
}

// Row n calls function p with k arguments; the new frame of z words starts at a place.
fn enter(
    t: &[u32],
    d: u32,
    size: u32,
    st: &mut [u32],
    s: u32,
    m: &[u8],
    n: u32,
    at: u32,
    call: u32,
    below: u32,
    top: u32,
    p: u32,
    k: u32,
    z: u32,
) -> Option<Transfer>
    requires { (place_of n + statement_row ≤ length t.now) × (k ≤ operand_slots) × (s + size ≤ length st.old) × (length st.old ≤ stack_words) × (p < greatest_word) }
    ensures { transferred result st.new ≡ entered t.now d size st.old s m.now n at call below top p k z }
{
    if st.len() < at as usize + z as usize {
        return None;
    }
    let words = read_arguments(t, n, k, d, size, st, s, m)?;
    let to = k as usize;
    Some(push_frame(st, at, call, below, top, p, z, &words[0..to]))
}

// Row n calls its function, whose frame starts at a place.
fn call_at(
    t: &[u32],
    c: u32,
    l: &[u32],
    lc: u32,
    d: u32,
    size: u32,
    st: &mut [u32],
    s: u32,
    m: &[u8],
    n: u32,
    at: u32,
    call: u32,
    below: u32,
    top: u32,
) -> Option<Transfer>
    requires { (n < c) × (c * statement_row ≤ length t.now) × (s + size ≤ length st.old) × (length st.old ≤ stack_words) }
    ensures { transferred result st.new ≡ call_transfer t.now c l.now lc d size st.old s m.now n at call below top }
{
    let k = prog_tables::count_at(t, n);
    if Machine::PARAMETERS < k {
        return None;
    }
    let p = prog_tables::callee_at(t, n);
    if c <= p {
        return None;
    }
    let z = callee_size(t, c, l, lc, d, p, k);
    if z == 0 {
        return None;
    }
    enter(t, d, size, st, s, m, n, at, call, below, top, p, k, z)
}

// `tail-call` at row n: the new frame has the head of the frame in use.
fn tail_call(
    t: &[u32],
    c: u32,
    l: &[u32],
    lc: u32,
    d: u32,
    size: u32,
    st: &mut [u32],
    s: u32,
    m: &[u8],
    n: u32,
) -> Option<Transfer>
    requires { (n < c) × (c * statement_row ≤ length t.now) × (s + size ≤ length st.old) × (length st.old ≤ stack_words) }
    ensures { transferred result st.new ≡ tail_transfer t.now c l.now lc d size st.old s m.now n }
{
    let e = prog_tables::expression_at(t, n);
    if e != ExpressionKind::CALL {
        return None;
    }
    let i = s as usize;
    let call = prog_tables::word_at(st, i);
    let below = prog_tables::word_at(st, i + 1);
    let top = prog_tables::word_at(st, i + 2);
    if m.len() < top as usize {
        return None;
    }
    call_at(t, c, l, lc, d, size, st, s, m, n, s, call, below, top)
}

// ---- returns

// The value that row n returns.
fn result(
    t: &[u32],
    d: u32,
    size: u32,
    st: &[u32],
    s: u32,
    m: &[u8],
    n: u32,
    top: u32,
) -> Result<Value, u32>
    requires { (place_of n + statement_row ≤ length t.now) × (s + size ≤ length st.now) × (length m.now ≤ memory_bytes) }
    ensures { result ≡ result_of t.now d size st.now s m.now n top }
{
    let k = prog_tables::kind_at(t, n);
    if k == Kind::END_FUNCTION {
        return Ok(Value { word: 0, top: 0 });
    }
    if k == Kind::RETURN {
        let e = prog_tables::expression_at(t, n);
        if e == ExpressionKind::NONE {
            return Ok(Value { word: 0, top: 0 });
        }
        return vm_quick_operands::work(t, n, d, size, st, s, m, top);
    }
    Err(0)
}

// A value for the call at row p, whose frame is at a place; back is the auto top restored.
fn resume(t: &[u32], st: &mut [u32], s: u32, v: u32, p: u32, caller: u32, back: u32) -> Transfer
    requires { p < greatest_word }
    ensures { transferred (Some result) st.new ≡ resumed (row_at t.now) st.old s v p caller back }
{
    let k = prog_tables::kind_at(t, p);
    if k != Kind::CALL {
        let a = prog_tables::a_at(t, p);
        vm_memory::put(st, caller as usize + a as usize, v);
    }
    Transfer {
        next: p + 1,
        frame: caller,
        used: s,
        top: back,
    }
}

// A value handed back from the frame at s to the call at row p, whose frame has z words; m bytes of memory.
fn hand_to(
    t: &[u32],
    c: u32,
    l: &[u32],
    lc: u32,
    d: u32,
    st: &mut [u32],
    s: u32,
    m: usize,
    v: u32,
    p: u32,
    z: u32,
) -> Option<Transfer>
    requires { (p < c) × (c < word_values) × (c * statement_row ≤ length t.now) }
    ensures { transferred result st.new ≡ hand_to t.now c l.now lc d st.old s m v p z }
{
    let at = s as usize;
    let caller = prog_tables::word_at(st, at + 1);
    let back = prog_tables::word_at(st, at + 2);
    if m < back as usize {
        return None;
    }
    if caller as u64 + z as u64 == s as u64 {
        if is_call_good(t, c, l, lc, d, z, p) {
            return Some(resume(t, st, s, v, p, caller, back));
        }
        return None;
    }
    None
}

// A value handed back from the frame at s to the call behind it.
fn hand(
    t: &[u32],
    c: u32,
    l: &[u32],
    lc: u32,
    d: u32,
    st: &mut [u32],
    s: u32,
    m: usize,
    v: u32,
) -> Option<Transfer>
    requires { c * statement_row ≤ length t.now }
    ensures { transferred result st.new ≡ hand_transfer t.now c l.now lc d st.old s m v }
{
    let p = prog_tables::word_at(st, s as usize);
    if c <= p {
        return None;
    }
    let z = vm_quick_operands::size_of(t, c, prog_tables::func_at(t, p));
    if z == 0 {
        return None;
    }
    hand_to(t, c, l, lc, d, st, s, m, v, p, z)
}

// A return at row n.
fn give_back(
    t: &[u32],
    c: u32,
    l: &[u32],
    lc: u32,
    d: u32,
    size: u32,
    st: &mut [u32],
    s: u32,
    m: &[u8],
    n: u32,
    top: u32,
) -> Option<Transfer>
    requires { (n < c) × (c * statement_row ≤ length t.now) × (s + size ≤ length st.old) × (length m.now ≤ memory_bytes) }
    ensures { transferred result st.new ≡ return_transfer t.now c l.now lc d size st.old s m.now n top }
{
    match result(t, d, size, st, s, m, n, top) {
        Ok(v) => hand(t, c, l, lc, d, st, s, m.len(), v.word),
        Err(_) => None,
    }
}

// The call or return at row n, where that is a row of function g with this frame size; s is where the frame starts.
pub fn take_transfer(
    t: &[u32],
    c: u32,
    l: &[u32],
    lc: u32,
    g: u32,
    d: u32,
    size: u32,
    st: &mut [u32],
    s: u32,
    used: u32,
    m: &[u8],
    n: u32,
    top: u32,
) -> Option<Transfer>
    requires { (c * statement_row ≤ length t.now) × (s + size ≤ length st.old) × (length st.old ≤ stack_words) × (length m.now ≤ memory_bytes) }
    ensures { transferred result st.new ≡ transfer_of t.now c l.now lc g d size st.old s used m.now n top }
{
    if c <= n {
        return None;
    }
    let own = prog_tables::func_at(t, n);
    if own == g {
        if calls_any(t, size, n) {
            return call_at(t, c, l, lc, d, size, st, s, m, n, used, n, s, top);
        }
        let k = prog_tables::kind_at(t, n);
        if k == Kind::TAIL_CALL {
            return tail_call(t, c, l, lc, d, size, st, s, m, n);
        }
        return give_back(t, c, l, lc, d, size, st, s, m, n, top);
    }
    None
}
