// Refusal 35 of a step, decided before an operand is read; and the way out of the frames that a return leaves.
#![tactic(auto)]

ghost use Rattle.std.specs.Prelude.{◌≡◌, suc, ◌+◌, ◌*◌, ◌≤◌, min, eqb, length, get_or};
ghost use Rattle.base_limits.specs.declared.Width.TheVariants.{Bits32};
ghost use Rattle.prog_tables.specs.Statement.{row_at};
ghost use Rattle.prog_tables.specs.Program.{lent_program};
ghost use Rattle.prog_tables.specs.Faults.{size_at};
ghost use Rattle.prog_tables.specs.Layout.{statement_row};
ghost use Rattle.vm_definitions.specs.Frames.{is_first, is_return_call, is_return, is_calling, importing, returns_import, leaves_frame, called_from, head_good, passes_on, leaves_good, rows_left, resumption_of, returns_to, caller_frame, top_at_entry};
ghost use Rattle.vm_definitions.specs.Broken.{lower, lowest, next_bad, frame_ends, rows_used, not_import};
ghost use Rattle.vm_guard.specs.FrameInUse.{frame_good, good_frame_size};
ghost use Rattle.vm_guard.specs.Guard.{row_bad, record_good, with_record, within_broken, within_resume, marked, call_marked, left_broken, callee_marked, function_marked, shape_good, kept_good};

use base_limits::Machine;
use lang_kinds::Kind;
use vm_definitions::{Broken, Resumption};

// Whether row n is `return call`.
pub fn is_return_call(t: &[u32], n: u32) -> bool
    ensures { result ≡ is_return_call (row_at t.now n) }
{
    let k = prog_tables::kind_at(t, n);
    if k == Kind::RETURN {
        return prog_tables::is_call_expression(prog_tables::expression_at(t, n));
    }
    false
}

// Whether row n returns: a `return` without `call`, or `end function`.
pub fn is_return(t: &[u32], n: u32) -> bool
    ensures { result ≡ is_return (row_at t.now n) }
{
    let k = prog_tables::kind_at(t, n);
    if k == Kind::END_FUNCTION {
        return true;
    }
    if k == Kind::RETURN {
        let e = prog_tables::expression_at(t, n);
        if prog_tables::is_call_expression(e) {
            return false;
        }
        return true;
    }
    false
}

// Whether row n is a call in any form but `tail-call`.
pub fn is_calling(t: &[u32], n: u32) -> bool
    ensures { result ≡ is_calling (row_at t.now n) }
{
    let k = prog_tables::kind_at(t, n);
    if k == Kind::CALL {
        return true;
    }
    if prog_tables::has_expression(k) {
        return prog_tables::is_call_expression(prog_tables::expression_at(t, n));
    }
    false
}

// Whether row n calls an imported function.
pub fn is_importing(t: &[u32], n: u32) -> bool
    ensures { result ≡ importing (row_at t.now n) }
{
    prog_tables::is_import(prog_tables::kind_at(t, n), prog_tables::expression_at(t, n))
}

// Whether row n returns what the host hands in.
pub fn returns_import(t: &[u32], n: u32) -> bool
    ensures { result ≡ returns_import (row_at t.now n) }
{
    if is_importing(t, n) {
        let k = prog_tables::kind_at(t, n);
        if k == Kind::TAIL_CALL {
            return true;
        }
        return k == Kind::RETURN;
    }
    false
}

// Whether row n leaves its frame: it returns, or returns what the host hands in.
fn leaves_frame(t: &[u32], n: u32) -> bool
    ensures { result ≡ leaves_frame (row_at t.now n) }
{
    if is_return(t, n) {
        return true;
    }
    returns_import(t, n)
}

// The row that the frame at s returns to.
fn place_at(st: &[u32], s: u32) -> u32
    ensures { result ≡ returns_to st.now s }
{
    prog_tables::word_at(st, s as usize)
}

// The caller's frame.
fn caller_at(st: &[u32], s: u32) -> u32
    ensures { result ≡ caller_frame st.now s }
{
    prog_tables::word_at(st, s as usize + 1)
}

// The auto top at entry.
fn top_at(st: &[u32], s: u32) -> u32
    ensures { result ≡ top_at_entry st.now s }
{
    prog_tables::word_at(st, s as usize + 2)
}

// Whether the frame at s is the first.
fn is_first(st: &[u32], s: u32) -> bool
    ensures { result ≡ is_first Bits32 st.now s }
{
    if s == 0 {
        let p = place_at(st, s);
        if p == Machine::MARK {
            return caller_at(st, s) == Machine::MARK;
        }
        return false;
    }
    false
}

// Whether the frame at s starts where that of its caller, at row p, ends.
fn is_behind(t: &[u32], c: u32, st: &[u32], p: u32, s: u32) -> bool
    ensures { result ≡ eqb (caller_frame st.now s + size_at (row_at t.now) c p) s }
{
    let caller = caller_at(st, s) as u64;
    let size = prog_faults::size_at(t, c, p) as u64;
    caller + size == s as u64
}

// Whether the frame at s was entered by a call from the frame below it.
fn is_called(t: &[u32], c: u32, st: &[u32], s: u32) -> bool
    ensures { result ≡ called_from (row_at t.now) c st.now s }
{
    let p = place_at(st, s);
    if p < c {
        if prog_faults::is_in_function(t, c, p) {
            if is_calling(t, p) {
                return is_behind(t, c, st, p, s);
            }
            return false;
        }
        return false;
    }
    false
}

// Whether the head of the frame at s is good.
fn has_head(t: &[u32], c: u32, st: &[u32], s: u32) -> bool
    ensures { result ≡ head_good Bits32 (row_at t.now) c st.now s }
{
    if is_first(st, s) {
        return true;
    }
    is_called(t, c, st, s)
}

// Whether a return from the frame at s leaves the caller's frame too.
fn passes_on(t: &[u32], c: u32, st: &[u32], s: u32) -> bool
    ensures { result ≡ passes_on Bits32 (row_at t.now) c st.now s }
{
    if is_first(st, s) {
        return false;
    }
    if is_called(t, c, st, s) {
        return is_return_call(t, place_at(st, s));
    }
    false
}

// Whether every frame that a return from s leaves is good; m bytes of memory.
fn leaves_good(t: &[u32], c: u32, m: usize, st: &[u32], s: u32) -> bool
    ensures { result ≡ leaves_good Bits32 (row_at t.now) c m st.now (suc s) s }
{
    let mut at = s;
    for _passed in 0..s as u64 + 1 {
        let top = top_at(st, at);
        if m < top as usize {
            return false;
        }
        if is_first(st, at) {
            return true;
        }
        if is_called(t, c, st, at) {
            if is_return_call(t, place_at(st, at)) {
                at = caller_at(st, at);
                continue;
            }
            return true;
        }
        return false;
    }
    false
}

// Where a return from the frame at s comes out.
pub fn resumption(t: &[u32], c: u32, st: &[u32], s: u32) -> Resumption
    ensures { result ≡ resumption_of Bits32 (row_at t.now) c st.now (suc s) s }
{
    let mut at = s;
    for _passed in 0..s as u64 + 1 {
        let top = top_at(st, at);
        if is_first(st, at) {
            return Resumption::Ends { top };
        }
        if passes_on(t, c, st, at) {
            at = caller_at(st, at);
            continue;
        }
        return Resumption::Caller {
            call: place_at(st, at),
            frame: caller_at(st, at),
            used: at,
            top,
        };
    }
    Resumption::Ends {
        top: top_at(st, at),
    }
}

// Whether the next statement is on a `function` line or in no function.
fn next_bad(t: &[u32], c: u32, n: u32) -> bool
    ensures { result ≡ next_bad (row_at t.now) c n }
{
    let k = prog_tables::kind_at(t, n);
    if k == Kind::FUNCTION {
        return true;
    }
    if prog_faults::is_in_function(t, c, n) {
        return false;
    }
    true
}

// Whether row i, which a step uses, is bad.
fn row_bad(t: &[u32], c: u32, l: &[u32], lc: u32, d: u32, next: u32, i: u32) -> bool
    ensures { result ≡ row_bad (lent_program t.now c l.now lc d) next i }
{
    if prog_faults::row_fault(t, c, l, lc, d, i) {
        return true;
    }
    if i == next {
        return next_bad(t, c, i);
    }
    false
}

// The place with the bad row i.
fn lower_to(i: u32, b: Broken) -> Broken
    ensures { result ≡ lower i b }
{
    match b {
        Broken::No => Broken::At(i),
        Broken::At(j) => Broken::At(i.min(j)),
        Broken::Somewhere => Broken::At(i),
    }
}

// The place with row i.
fn mark_row(t: &[u32], c: u32, l: &[u32], lc: u32, d: u32, next: u32, i: u32, b: Broken) -> Broken
    ensures { result ≡ marked (row_bad (lent_program t.now c l.now lc d) next) i b }
{
    if row_bad(t, c, l, lc, d, next, i) {
        return lower_to(i, b);
    }
    b
}

// The place with row i and its function.
fn mark_call(t: &[u32], c: u32, l: &[u32], lc: u32, d: u32, next: u32, i: u32, b: Broken) -> Broken
    ensures { result ≡ call_marked (lent_program t.now c l.now lc d) next i b }
{
    let own = mark_row(t, c, l, lc, d, next, i, b);
    mark_row(t, c, l, lc, d, next, prog_tables::func_at(t, i), own)
}

// The lowest bad row that a return from the frame at s uses.
fn find_left(t: &[u32], c: u32, l: &[u32], lc: u32, d: u32, next: u32, st: &[u32], s: u32) -> Broken
    ensures { result ≡ lowest (row_bad (lent_program t.now c l.now lc d) next) (rows_left Bits32 (row_at t.now) c st.now (suc s) s) }
{
    let mut b = Broken::No;
    let mut at = s;
    for _passed in 0..s as u64 + 1 {
        if is_first(st, at) {
            return b;
        }
        if is_called(t, c, st, at) {
            let p = place_at(st, at);
            b = mark_call(t, c, l, lc, d, next, p, b);
            if is_return_call(t, p) {
                at = caller_at(st, at);
                continue;
            }
            return b;
        }
        return b;
    }
    b
}

// Whether the frame in use ends at the stack in use, within s words.
fn frame_ends(t: &[u32], c: u32, r: Machine, s: usize) -> bool
    ensures { result ≡ frame_ends (row_at t.now) c r s }
{
    let next = r.next;
    let frame = r.frame;
    let used = r.used;
    let end = frame as u64 + prog_faults::size_at(t, c, next) as u64;
    if end == used as u64 {
        return used as usize <= s;
    }
    false
}

// The lowest bad row of the frames that the next statement leaves.
fn find_frames(t: &[u32], c: u32, l: &[u32], lc: u32, d: u32, r: Machine, st: &[u32]) -> Broken
    ensures { result ≡ left_broken (lent_program t.now c l.now lc d) r st.now }
{
    let next = r.next;
    if leaves_frame(t, next) {
        if frame_ends(t, c, r, st.len()) {
            let frame = r.frame;
            return find_left(t, c, l, lc, d, next, st, frame);
        }
        return Broken::No;
    }
    Broken::No
}

// The place with the function that the next statement calls.
fn mark_callee(t: &[u32], c: u32, l: &[u32], lc: u32, d: u32, next: u32, b: Broken) -> Broken
    ensures { result ≡ callee_marked (lent_program t.now c l.now lc d) next b }
{
    let k = prog_tables::kind_at(t, next);
    let e = prog_tables::expression_at(t, next);
    if prog_tables::is_call(k, e) {
        let g = prog_tables::callee_at(t, next);
        if g < c {
            return mark_row(t, c, l, lc, d, next, g, b);
        }
        return b;
    }
    b
}

// The place with the function of the next statement.
fn mark_function(t: &[u32], c: u32, l: &[u32], lc: u32, d: u32, next: u32, b: Broken) -> Broken
    ensures { result ≡ function_marked (lent_program t.now c l.now lc d) next b }
{
    if prog_faults::is_in_function(t, c, next) {
        return mark_row(t, c, l, lc, d, next, prog_tables::func_at(t, next), b);
    }
    b
}

// The lowest bad row that a step uses.
fn find_used(t: &[u32], c: u32, l: &[u32], lc: u32, d: u32, r: Machine, st: &[u32]) -> Broken
    ensures { result ≡ lowest (row_bad (lent_program t.now c l.now lc d) r.next) (rows_used (lent_program t.now c l.now lc d) r st.now) }
{
    let next = r.next;
    if c <= next {
        return Broken::No;
    }
    let left = find_frames(t, c, l, lc, d, r, st);
    let called = mark_callee(t, c, l, lc, d, next, left);
    let within = mark_function(t, c, l, lc, d, next, called);
    mark_row(t, c, l, lc, d, next, next, within)
}

// Whether the record's numbers and what is lent are good.
fn has_shape(t: &[u32], c: u32, m: usize, r: Machine, st: &[u32]) -> bool
    ensures { result ≡ shape_good Bits32 (row_at t.now) c m r st.now }
{
    let next = r.next;
    if c <= next {
        return false;
    }
    let top = r.top;
    if m < top as usize {
        return false;
    }
    if Machine::MEMORY_BYTES < m {
        return false;
    }
    if Machine::STACK_WORDS < st.len() {
        return false;
    }
    frame_ends(t, c, r, st.len())
}

// Whether the auto tops are good that the next statement restores from the frame at s.
fn has_kept(t: &[u32], c: u32, m: usize, next: u32, st: &[u32], s: u32) -> bool
    ensures { result ≡ kept_good Bits32 (row_at t.now) c m next st.now s }
{
    let k = prog_tables::kind_at(t, next);
    if k == Kind::END_BLOCK {
        let a = prog_tables::a_at(t, next);
        let saved = prog_tables::word_at(st, s as usize + a as usize);
        return saved as usize <= m;
    }
    if leaves_frame(t, next) {
        return leaves_good(t, c, m, st, s);
    }
    if k == Kind::TAIL_CALL {
        let top = top_at(st, s);
        return top as usize <= m;
    }
    true
}

// Whether the record, its frames, and the lent stack and memory are good.
fn record_good(
    t: &[u32],
    c: u32,
    l: &[u32],
    lc: u32,
    d: u32,
    m: usize,
    r: Machine,
    st: &[u32],
) -> bool
    ensures { result ≡ record_good (lent_program t.now c l.now lc d) m r st.now }
{
    if has_shape(t, c, m, r, st) {
        let frame = r.frame;
        if has_head(t, c, st, frame) {
            let next = r.next;
            return has_kept(t, c, m, next, st, frame);
        }
        return false;
    }
    false
}

// A broken row, else whether the record is broken.
fn with_record(
    t: &[u32],
    c: u32,
    l: &[u32],
    lc: u32,
    d: u32,
    r: Machine,
    st: &[u32],
    m: usize,
    b: Broken,
) -> Broken
    ensures { result ≡ with_record (lent_program t.now c l.now lc d) r st.now m b }
{
    match b {
        Broken::No => {
            if record_good(t, c, l, lc, d, m, r, st) {
                return Broken::No;
            }
            Broken::Somewhere
        }
        Broken::At(i) => Broken::At(i),
        Broken::Somewhere => Broken::Somewhere,
    }
}

// 35 of a step but for the counts of the tables.
pub fn find_broken(
    t: &[u32],
    c: u32,
    l: &[u32],
    lc: u32,
    d: u32,
    r: Machine,
    st: &[u32],
    m: usize,
) -> Broken
    ensures { result ≡ within_broken (lent_program t.now c l.now lc d) r st.now m }
{
    let b = find_used(t, c, l, lc, d, r, st);
    with_record(t, c, l, lc, d, r, st, m, b)
}

// The place with the next statement, where it calls no imported function.
fn mark_import(t: &[u32], c: u32, l: &[u32], lc: u32, d: u32, r: Machine, b: Broken) -> Broken
    ensures { result ≡ not_import (lent_program t.now c l.now lc d) r b }
{
    let next = r.next;
    if c <= next {
        return b;
    }
    if is_importing(t, next) {
        return b;
    }
    lower_to(next, b)
}

// 35 of going on but for the counts of the tables.
pub fn find_unresumable(
    t: &[u32],
    c: u32,
    l: &[u32],
    lc: u32,
    d: u32,
    r: Machine,
    st: &[u32],
    m: usize,
) -> Broken
    ensures { result ≡ within_resume (lent_program t.now c l.now lc d) r st.now m }
{
    let b = find_used(t, c, l, lc, d, r, st);
    let marked = mark_import(t, c, l, lc, d, r, b);
    with_record(t, c, l, lc, d, r, st, m, marked)
}

// ---- the frame in use

// Whether the record's numbers, what is lent and the head of the frame are good, the frame having z words.
fn is_frame_good(t: &[u32], c: u32, m: usize, r: Machine, z: u32, st: &[u32]) -> bool
    ensures { result ≡ frame_good (row_at t.now) c m r z st.now }
{
    let top = r.top;
    if m < top as usize {
        return false;
    }
    if Machine::MEMORY_BYTES < m {
        return false;
    }
    if Machine::STACK_WORDS < st.len() {
        return false;
    }
    let frame = r.frame;
    let used = r.used;
    if st.len() < used as usize {
        return false;
    }
    let end = frame as u64 + z as u64;
    if end == used as u64 {
        return has_head(t, c, st, frame);
    }
    false
}

// The words of the frame in use, where the record stands in a good one; else 0. Statements inside it need no test of the record.
pub fn good_frame_size(t: &[u32], c: u32, m: usize, r: Machine, st: &[u32]) -> u32
    requires { c * statement_row ≤ length t.now }
    ensures { result ≡ good_frame_size (row_at t.now) c m r st.now }
{
    let next = r.next;
    if c <= next {
        return 0;
    }
    let z = vm_quick_operands::size_of(t, c, prog_tables::func_at(t, next));
    if is_frame_good(t, c, m, r, z, st) {
        return z;
    }
    0
}
