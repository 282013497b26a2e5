// Frame words and scope: the tests of well-formed tables that speak of them, decided by counts of lets.
#![tactic(auto)]

ghost use Rattle.std.specs.Prelude.{◌≡◌, true, [], ◌+◌, ◌≤◌, ◌<◌, eqb, length, get_or, set};
ghost use Rattle.base_limits.specs.Limits.{statements, greatest_word};
ghost use Rattle.base_prelude.specs.Lists.{zeros};
ghost use Rattle.prog_tables.specs.Tests.{all_below};
ghost use Rattle.prog_tables.specs.Layout.{operand_slots};
ghost use Rattle.prog_tables.specs.Places.{slot_at};
ghost use Rattle.prog_tables.specs.Statement.{row_at};
ghost use Rattle.prog_tables.specs.Label.{label_at, is_data};
ghost use Rattle.prog_tables.specs.Program.{lent_program};
ghost use Rattle.prog_tables.specs.Nesting.{stands};
ghost use Rattle.prog_tables.specs.Frames.{frame_depth, frame_size, is_parameter};
ghost use Rattle.prog_tables.specs.WellFormed.{labelled, shallow};
ghost use Rattle.prog_chains.specs.FrameTests.{frame_good};
ghost use Rattle.prog_chains.specs.Counted.{noted, let_counts, first_word, next_word, holds, chain_holds, chain_lets, scope_holds, scope_size, is_data_at, operand_held, operands_held, address_held, set_held, block_held, let_held, function_held, word_held, row_held};

use base_limits::Machine;
use lang_kinds::Kind;
use prog_tables::{LabelKind, Operand, Table};

// ---- counts of lets

// Adds one to a frame's count.
fn raise(x: &mut [u32], s: u32)
    requires { (s < length x.old) × (get_or x.old s 0 < greatest_word) }
    ensures { x.new ≡ set x.old s (get_or x.old s 0 + 1) }
{
    let i = s as usize;
    x[i] = x[i] + 1;
}

// Counts row n in its frame where it is a let.
fn note_let(t: &[u32], n: u32, x: &mut [u32])
    requires { ((row_at t.now n).scope < length x.old) × (get_or x.old (row_at t.now n).scope 0 < greatest_word) }
    ensures { x.new ≡ noted (row_at t.now) n x.old }
{
    let k = prog_tables::kind_at(t, n);
    if k != Kind::LET {
        return;
    }
    let s = prog_tables::scope_at(t, n);
    raise(x, s);
}

// Counts the lets of c rows.
fn count_lets(t: &[u32], c: u32, y: &mut [u32])
    requires { (c ≤ statements) × (all_below (stands (row_at t.now)) c ≡ true) × (y.old ≡ zeros statements) }
    ensures { y.new ≡ let_counts (row_at t.now) c }
{
    for n in 0..c {
        note_let(t, n, y);
    }
}

// ---- words and scope

// The counted lets of a frame.
fn lets_of(x: &[u32], s: u32) -> u32
    ensures { (result ≡ get_or x.now s 0) × (result ≤ greatest_word) }
{
    prog_tables::word_at(x, s as usize)
}

// The word of a frame's first let, from the frame's own row.
fn first_word(t: &[u32], s: u32) -> u64
    ensures { (result ≡ first_word (row_at t.now) s) × (result ≤ 8589934592) }
{
    let k = prog_tables::kind_at(t, s);
    if k == Kind::BLOCK {
        let a = prog_tables::a_at(t, s);
        return a as u64 + 1;
    }
    let p = prog_tables::parameters_at(t, s);
    Table::FRAME_HEAD as u64 + p as u64
}

// The word behind the counted lets of a frame.
fn next_word(t: &[u32], x: &[u32], s: u32) -> u64
    ensures { result ≡ next_word (row_at t.now) x.now s }
{
    let a = first_word(t, s);
    let m = lets_of(x, s);
    a + m as u64
}

// Whether w is the word of a counted let of a frame.
fn is_held(t: &[u32], x: &[u32], w: u32, s: u32) -> bool
    ensures { result ≡ holds (row_at t.now) x.now w s }
{
    let a = first_word(t, s);
    let v = w as u64;
    if a <= v {
        let e = next_word(t, x, s);
        return v < e;
    }
    false
}

// Whether w is the word of a counted let of a frame or of one around it.
fn is_on_chain(t: &[u32], x: &[u32], w: u32, inner: u32) -> bool
    ensures { result ≡ chain_holds (row_at t.now) x.now w frame_depth inner }
{
    let mut s = inner;
    for _ in 0..Table::FRAME_DEPTH {
        if is_held(t, x, w, s) {
            return true;
        }
        let k = prog_tables::kind_at(t, s);
        if k != Kind::BLOCK {
            return false;
        }
        s = prog_tables::scope_at(t, s);
    }
    is_held(t, x, w, s)
}

// The counted lets of a frame and of those around it.
fn chain_lets(t: &[u32], x: &[u32], inner: u32) -> u64
    ensures { (result ≡ chain_lets (row_at t.now) x.now frame_depth inner) × (result ≤ 77309411328) }
{
    let mut s = inner;
    let mut sum: u64 = 0;
    for _ in 0..Table::FRAME_DEPTH {
        let m = lets_of(x, s);
        sum += m as u64;
        let k = prog_tables::kind_at(t, s);
        if k != Kind::BLOCK {
            return sum;
        }
        s = prog_tables::scope_at(t, s);
    }
    let m = lets_of(x, s);
    sum + m as u64
}

// Whether w is the word of one of p parameters.
fn is_parameter(p: u32, w: u32) -> bool
    ensures { result ≡ is_parameter p w }
{
    if Table::FRAME_HEAD <= w {
        return w - Table::FRAME_HEAD < p;
    }
    false
}

// Whether a word is in scope at a row.
fn is_in_scope(t: &[u32], x: &[u32], n: u32, w: u32) -> bool
    ensures { result ≡ scope_holds (row_at t.now) x.now n w }
{
    let g = prog_tables::func_at(t, n);
    let p = prog_tables::parameters_at(t, g);
    is_parameter(p, w) || is_on_chain(t, x, w, prog_tables::scope_at(t, n))
}

// The locals in scope at a row.
fn scope_size(t: &[u32], x: &[u32], n: u32) -> u64
    ensures { result ≡ scope_size (row_at t.now) x.now n }
{
    let g = prog_tables::func_at(t, n);
    let p = prog_tables::parameters_at(t, g);
    let s = prog_tables::scope_at(t, n);
    let m = chain_lets(t, x, s);
    p as u64 + m
}

// ---- operands

// Whether label i is a data label with number v.
fn is_data_at(l: &[u32], i: u32, v: u32) -> bool
    ensures { result ≡ is_data_at (label_at l.now []) v i }
{
    let k = prog_tables::label_kind_at(l, i);
    prog_tables::is_data(k) && prog_tables::label_number_at(l, i) == v
}

// Whether a data label has number v.
fn is_address(l: &[u32], k: u32, v: u32) -> bool
    ensures { result ≡ labelled (label_at l.now []) k is_data v }
{
    (0..k).any(|i| is_data_at(l, i, v))
}

// Whether an operand may stand at a row.
fn operand_held(t: &[u32], l: &[u32], k: u32, x: &[u32], n: u32, o: Operand) -> bool
    ensures { result ≡ operand_held (row_at t.now) (label_at l.now []) k x.now n o }
{
    match o {
        Operand::Constant(_) => true,
        Operand::Local(w) => is_in_scope(t, x, n, w),
        Operand::Address(v) => is_address(l, k, v),
        Operand::AtConstant(_) => true,
        Operand::AtLocal(w) => is_in_scope(t, x, n, w),
        Operand::AtAddress(v) => is_address(l, k, v),
        Operand::Unlisted => false,
    }
}

// Whether the operand in slot i of a row may stand there.
fn slot_held(t: &[u32], l: &[u32], k: u32, x: &[u32], n: u32, i: u32) -> bool
    requires { i < operand_slots }
    ensures { result ≡ operand_held (row_at t.now) (label_at l.now []) k x.now n (slot_at t.now n i) }
{
    operand_held(t, l, k, x, n, prog_tables::slot_at(t, n, i))
}

// Whether all operands of a row may stand there.
fn operands_held(t: &[u32], l: &[u32], k: u32, x: &[u32], n: u32) -> bool
    ensures { result ≡ operands_held (row_at t.now) (label_at l.now []) k x.now n }
{
    let j = prog_tables::kind_at(t, n);
    let e = prog_tables::expression_at(t, n);
    let a = prog_tables::count_at(t, n);
    let m = prog_tables::used_by(j, e, a);
    (0..m.min(Machine::PARAMETERS)).all(|i| slot_held(t, l, k, x, n, i))
}

// ---- the tests of a row

// The operand behind the `@` of `set @`.
fn address_held(t: &[u32], l: &[u32], k: u32, x: &[u32], n: u32) -> bool
    ensures { result ≡ address_held (row_at t.now) (label_at l.now []) k x.now n }
{
    let j = prog_tables::kind_at(t, n);
    if j == Kind::SET_AT {
        let o = prog_tables::address_at(t, n);
        if prog_faults::is_address(o) {
            return operand_held(t, l, k, x, n, o);
        }
        return false;
    }
    true
}

// The destination of a `set`.
fn set_held(t: &[u32], x: &[u32], n: u32) -> bool
    ensures { result ≡ set_held (row_at t.now) x.now n }
{
    let j = prog_tables::kind_at(t, n);
    if j == Kind::SET {
        let w = prog_tables::a_at(t, n);
        return is_in_scope(t, x, n, w);
    }
    true
}

// A let's word, and one more local.
fn let_held(t: &[u32], x: &[u32], n: u32) -> bool
    ensures { result ≡ let_held (row_at t.now) x.now n }
{
    let s = prog_tables::scope_at(t, n);
    let a = prog_tables::a_at(t, n);
    let w = next_word(t, x, s);
    if a as u64 == w {
        let m = scope_size(t, x, n);
        return m < Machine::LOCALS as u64;
    }
    false
}

// A block's word, its lets and the locals before it.
fn block_held(t: &[u32], x: &[u32], y: &[u32], n: u32) -> bool
    ensures { result ≡ block_held (row_at t.now) x.now y.now n }
{
    let s = prog_tables::scope_at(t, n);
    let a = prog_tables::a_at(t, n);
    let w = next_word(t, y, s);
    if a as u64 == w {
        let b = prog_tables::parameters_at(t, n);
        let m = lets_of(y, n);
        if b == m {
            let v = prog_tables::callee_at(t, n);
            let z = scope_size(t, x, n);
            return v as u64 == z;
        }
        return false;
    }
    false
}

// Whether an `end block` has the word of its block.
fn end_held(t: &[u32], n: u32) -> bool
    ensures { result ≡ eqb (row_at t.now n).a (row_at t.now (row_at t.now n).scope).a }
{
    let s = prog_tables::scope_at(t, n);
    prog_tables::a_at(t, n) == prog_tables::a_at(t, s)
}

// The frame size of a function.
fn size_of(t: &[u32], c: u32, n: u32) -> u64
    requires { c ≤ statements }
    ensures { result ≡ frame_size (row_at t.now) c n }
{
    let p = prog_tables::parameters_at(t, n);
    let need = prog_frames::need(t, c, Table::FRAME_DEPTH, n);
    Table::FRAME_HEAD as u64 + p as u64 + need as u64
}

// A function's parameters and frame size.
fn function_held(t: &[u32], c: u32, n: u32) -> bool
    requires { c ≤ statements }
    ensures { result ≡ function_held (row_at t.now) c n }
{
    let p = prog_tables::parameters_at(t, n);
    if p <= Machine::PARAMETERS {
        let a = prog_tables::a_at(t, n);
        let w = size_of(t, c, n);
        return a as u64 == w;
    }
    false
}

// A row's own word.
fn word_held(t: &[u32], c: u32, x: &[u32], y: &[u32], n: u32) -> bool
    requires { c ≤ statements }
    ensures { result ≡ word_held (row_at t.now) c x.now y.now n }
{
    let j = prog_tables::kind_at(t, n);
    match j {
        Kind::LET => let_held(t, x, n),
        Kind::BLOCK => block_held(t, x, y, n),
        Kind::END_BLOCK => end_held(t, n),
        Kind::FUNCTION => function_held(t, c, n),
        _ => true,
    }
}

// All tests of a row.
fn row_held(t: &[u32], c: u32, l: &[u32], k: u32, x: &[u32], y: &[u32], n: u32) -> bool
    requires { c ≤ statements }
    ensures { result ≡ row_held (row_at t.now) c (label_at l.now []) k x.now y.now n }
{
    if !word_held(t, c, x, y, n) {
        return false;
    }
    if !operands_held(t, l, k, x, n) {
        return false;
    }
    set_held(t, x, n) && address_held(t, l, k, x, n)
}

// ---- all rows

// The rows from the first on, x being cleared and y holding all lets.
fn rows_held(t: &[u32], c: u32, l: &[u32], k: u32, d: u32, x: &mut [u32], y: &[u32]) -> bool
    requires { (c ≤ statements) × (all_below (stands (row_at t.now)) c ≡ true) × (all_below (shallow (row_at t.now)) c ≡ true) × (x.old ≡ zeros statements) × (y.now ≡ let_counts (row_at t.now) c) }
    ensures { result ≡ all_below (frame_good (lent_program t.now c l.now k d)) c }
{
    for n in 0..c {
        if !row_held(t, c, l, k, x, y, n) {
            return false;
        }
        note_let(t, n, x);
    }
    true
}

// Whether all rows pass the tests of frame words and scope.
pub fn frames_good(t: &[u32], c: u32, l: &[u32], k: u32, d: u32) -> bool
    requires { (c ≤ statements) × (all_below (stands (row_at t.now)) c ≡ true) × (all_below (shallow (row_at t.now)) c ≡ true) }
    ensures { result ≡ all_below (frame_good (lent_program t.now c l.now k d)) c }
{
    let mut lets = [0u32; Machine::STATEMENTS];
    let mut total = [0u32; Machine::STATEMENTS];
    count_lets(t, c, &mut total);
    rows_held(t, c, l, k, d, &mut lets, &total)
}
