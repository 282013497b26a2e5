// Broken rows: refusal 35 for a statement row.
#![tactic(auto)]

ghost use Rattle.std.specs.Prelude.{◌≡◌, [], ◌∷◌, ◌+◌, ◌*◌, ◌≤◌, ◌<◌, min, eqb};
ghost use Rattle.prog_tables.specs.Tests.{one_of, some};
ghost use Rattle.prog_tables.specs.Statement.{used_by, row_at};
ghost use Rattle.prog_tables.specs.Program.{lent_program};
ghost use Rattle.prog_tables.specs.Nesting.{is_listed, has_target};
ghost use Rattle.prog_tables.specs.Faults.{expression_listed, expression_fault, in_function, size_at, operand_fault, address_listed, kind_fault, target_fault, function_fault, import_fault, callee_fault, size_fault, own_word, has_word, word_fault, operands_fault, address_fault, row_fault};
ghost use Rattle.lang_kinds.specs.Kinds as kind;
ghost use Rattle.prog_tables.specs.Layout.{operand_slots};
ghost use Rattle.prog_tables.specs.Places.{slot_at};

use base_limits::Machine;
use lang_kinds::Kind;
use prog_tables::{ExpressionKind, LabelKind, Operand, Table};

// Whether a kind is listed.
pub fn is_listed(k: u32) -> bool
    ensures { result ≡ is_listed k }
{
    if k == Kind::EDGE {
        return false;
    }
    k < Kind::PAST_ROWS
}

// Whether nesting gives a row of this kind its target.
pub fn has_target(k: u32) -> bool
    ensures { result ≡ has_target k }
{
    if prog_tables::is_test(k) {
        return true;
    }
    if k == Kind::ELSE {
        return true;
    }
    k == Kind::ELSE_IF
}

// Whether a row of this kind with an expression may have one of kind e.
pub fn is_expression(k: u32, e: u32) -> bool
    ensures { result ≡ expression_listed k e }
{
    if e == ExpressionKind::NONE {
        return k == Kind::RETURN;
    }
    if e == ExpressionKind::PLAIN {
        return true;
    }
    if prog_tables::is_call_expression(e) {
        return true;
    }
    prog_tables::is_operator(e)
}

// An unlisted expression kind of a row of this kind.
pub fn is_unlisted(k: u32, e: u32) -> bool
    ensures { result ≡ expression_fault k e }
{
    if prog_tables::is_call_row(k) {
        if prog_tables::is_call_expression(e) {
            return false;
        }
        return true;
    }
    if prog_tables::has_expression(k) {
        if is_expression(k, e) {
            return false;
        }
        return true;
    }
    false
}

// Whether a row is in a function.
pub fn is_in_function(t: &[u32], c: u32, n: u32) -> bool
    ensures { result ≡ in_function (row_at t.now) c n }
{
    let g = prog_tables::func_at(t, n);
    if g < c {
        return prog_tables::kind_at(t, g) == Kind::FUNCTION;
    }
    false
}

// The frame size of a row's function, 0 in none.
pub fn size_at(t: &[u32], c: u32, n: u32) -> u32
    ensures { result ≡ size_at (row_at t.now) c n }
{
    if is_in_function(t, c, n) {
        return prog_tables::a_at(t, prog_tables::func_at(t, n));
    }
    0
}

// Whether an operand is broken.
pub fn operand_fault(size: u32, d: u32, o: Operand) -> bool
    ensures { result ≡ operand_fault size d o }
{
    match o {
        Operand::Constant(_) => false,
        Operand::Local(w) => size <= w,
        Operand::Address(v) => d < v,
        Operand::AtConstant(_) => false,
        Operand::AtLocal(w) => size <= w,
        Operand::AtAddress(v) => d < v,
        Operand::Unlisted => true,
    }
}

// Whether an operand may stand behind the `@` of `set @`.
pub fn is_address(o: Operand) -> bool
    ensures { result ≡ address_listed o }
{
    match o {
        Operand::Constant(_) => true,
        Operand::Local(_) => true,
        Operand::Address(_) => true,
        Operand::AtConstant(_) => false,
        Operand::AtLocal(_) => false,
        Operand::AtAddress(_) => false,
        Operand::Unlisted => false,
    }
}

// An unlisted kind of a row or its expression.
fn kind_fault(t: &[u32], c: u32, l: &[u32], lc: u32, d: u32, n: u32) -> bool
    ensures { result ≡ kind_fault (lent_program t.now c l.now lc d) n }
{
    let k = prog_tables::kind_at(t, n);
    if is_listed(k) {
        let e = prog_tables::expression_at(t, n);
        return is_unlisted(k, e);
    }
    true
}

// Whether a row of this kind has a target.
fn is_jump(k: u32) -> bool
    ensures { result ≡ one_of (has_target k) (eqb k kind.goto) }
{
    if has_target(k) {
        return true;
    }
    k == Kind::GOTO
}

// A target that is no statement of the same function.
fn target_fault(t: &[u32], c: u32, l: &[u32], lc: u32, d: u32, n: u32) -> bool
    ensures { result ≡ target_fault (lent_program t.now c l.now lc d) n }
{
    let k = prog_tables::kind_at(t, n);
    if is_jump(k) {
        if is_in_function(t, c, n) {
            let a = prog_tables::a_at(t, n);
            if a < c {
                let g = prog_tables::func_at(t, a);
                let h = prog_tables::func_at(t, n);
                if g == h {
                    return false;
                }
                return true;
            }
            return true;
        }
        return true;
    }
    false
}

// A callee that is no function, or has another parameter count; too many arguments.
fn function_fault(t: &[u32], c: u32, l: &[u32], lc: u32, d: u32, n: u32) -> bool
    ensures { result ≡ function_fault (lent_program t.now c l.now lc d) n }
{
    let k = prog_tables::kind_at(t, n);
    let e = prog_tables::expression_at(t, n);
    if prog_tables::is_call(k, e) {
        let g = prog_tables::callee_at(t, n);
        if g < c {
            let j = prog_tables::kind_at(t, g);
            if j == Kind::FUNCTION {
                let p = prog_tables::parameters_at(t, g);
                let m = prog_tables::count_at(t, n);
                if p == m {
                    if m <= Machine::PARAMETERS {
                        return false;
                    }
                    return true;
                }
                return true;
            }
            return true;
        }
        return true;
    }
    false
}

// A callee that is no label row of an imported function, or has another argument count; too many arguments.
fn import_fault(t: &[u32], c: u32, l: &[u32], lc: u32, d: u32, n: u32) -> bool
    ensures { result ≡ import_fault (lent_program t.now c l.now lc d) n }
{
    let k = prog_tables::kind_at(t, n);
    let e = prog_tables::expression_at(t, n);
    if prog_tables::is_import(k, e) {
        let g = prog_tables::callee_at(t, n);
        if g < lc {
            let j = prog_tables::label_kind_at(l, g);
            if j == LabelKind::IMPORT {
                let p = prog_tables::label_arguments_at(l, g);
                let m = prog_tables::count_at(t, n);
                if p == m {
                    if m <= Machine::PARAMETERS {
                        return false;
                    }
                    return true;
                }
                return true;
            }
            return true;
        }
        return true;
    }
    false
}

// A broken callee of a call in any form.
fn callee_fault(t: &[u32], c: u32, l: &[u32], lc: u32, d: u32, n: u32) -> bool
    ensures { result ≡ callee_fault (lent_program t.now c l.now lc d) n }
{
    if function_fault(t, c, l, lc, d, n) {
        return true;
    }
    import_fault(t, c, l, lc, d, n)
}

// A frame size below 3 + parameters.
fn size_fault(t: &[u32], c: u32, l: &[u32], lc: u32, d: u32, n: u32) -> bool
    ensures { result ≡ size_fault (lent_program t.now c l.now lc d) n }
{
    let k = prog_tables::kind_at(t, n);
    if k == Kind::FUNCTION {
        let a = prog_tables::a_at(t, n);
        let p = prog_tables::parameters_at(t, n);
        let least = Table::FRAME_HEAD as u64 + p as u64;
        let size = a as u64;
        return size < least;
    }
    false
}

// Whether a row of this kind names a frame word of its own.
fn has_word(k: u32) -> bool
    ensures { result ≡ has_word k }
{
    if k < Kind::BLOCK {
        return false;
    }
    k < Kind::SET_AT
}

// The last frame word that a row itself names.
fn own_word(t: &[u32], n: u32) -> u64
    ensures { result ≡ own_word (row_at t.now n) }
{
    let k = prog_tables::kind_at(t, n);
    let a = prog_tables::a_at(t, n);
    if k == Kind::BLOCK {
        let b = prog_tables::parameters_at(t, n);
        return a as u64 + b as u64;
    }
    a as u64
}

// A destination or block word at or past the frame size.
fn word_fault(t: &[u32], c: u32, l: &[u32], lc: u32, d: u32, n: u32) -> bool
    ensures { result ≡ word_fault (lent_program t.now c l.now lc d) n }
{
    let k = prog_tables::kind_at(t, n);
    if has_word(k) {
        let size = size_at(t, c, n);
        let w = own_word(t, n);
        return size as u64 <= w;
    }
    false
}

// The operands that a row has, at most as many as its slots.
fn operands_at(t: &[u32], n: u32) -> u32
    ensures { result ≡ min (used_by (row_at t.now n).kind (row_at t.now n).expr (row_at t.now n).count) 8 }
{
    let k = prog_tables::kind_at(t, n);
    let e = prog_tables::expression_at(t, n);
    prog_tables::used_by(k, e, prog_tables::count_at(t, n)).min(8)
}

// Whether the operand in slot i of a row is broken.
fn slot_fault(t: &[u32], size: u32, d: u32, n: u32, i: u32) -> bool
    requires { i < operand_slots }
    ensures { result ≡ operand_fault size d (slot_at t.now n i) }
{
    operand_fault(size, d, prog_tables::slot_at(t, n, i))
}

// A broken operand.
fn operands_fault(t: &[u32], c: u32, l: &[u32], lc: u32, d: u32, n: u32) -> bool
    ensures { result ≡ operands_fault (lent_program t.now c l.now lc d) n }
{
    let m = operands_at(t, n);
    let size = size_at(t, c, n);
    (0..m).any(|i| slot_fault(t, size, d, n, i))
}

// A broken address operand.
fn address_fault(t: &[u32], c: u32, l: &[u32], lc: u32, d: u32, n: u32) -> bool
    ensures { result ≡ address_fault (lent_program t.now c l.now lc d) n }
{
    let k = prog_tables::kind_at(t, n);
    if k == Kind::SET_AT {
        let o = prog_tables::address_at(t, n);
        if is_address(o) {
            return operand_fault(size_at(t, c, n), d, o);
        }
        return true;
    }
    false
}

// The tests of a row by its kind: each names other causes, in the order of its clause, so no two are one function.
// A broken test: its target, its operands.
fn test_fault(t: &[u32], c: u32, l: &[u32], lc: u32, d: u32, n: u32) -> bool
    ensures { result ≡ some (target_fault (lent_program t.now c l.now lc d) n ∷ operands_fault (lent_program t.now c l.now lc d) n ∷ []) }
{
    if target_fault(t, c, l, lc, d, n) {
        return true;
    }
    operands_fault(t, c, l, lc, d, n)
}

// A broken call in any form: its callee, its arguments.
fn call_fault(t: &[u32], c: u32, l: &[u32], lc: u32, d: u32, n: u32) -> bool
    ensures { result ≡ some (callee_fault (lent_program t.now c l.now lc d) n ∷ operands_fault (lent_program t.now c l.now lc d) n ∷ []) }
{
    if callee_fault(t, c, l, lc, d, n) {
        return true;
    }
    operands_fault(t, c, l, lc, d, n)
}

// A broken `call`, `tail-call` or `return`: its expression.
fn expression_fault(t: &[u32], c: u32, l: &[u32], lc: u32, d: u32, n: u32) -> bool
    ensures { result ≡ some (kind_fault (lent_program t.now c l.now lc d) n ∷ callee_fault (lent_program t.now c l.now lc d) n ∷ operands_fault (lent_program t.now c l.now lc d) n ∷ []) }
{
    if kind_fault(t, c, l, lc, d, n) {
        return true;
    }
    call_fault(t, c, l, lc, d, n)
}

// A broken `let` or `set` of a local: its expression, its destination.
fn local_fault(t: &[u32], c: u32, l: &[u32], lc: u32, d: u32, n: u32) -> bool
    ensures { result ≡ some (kind_fault (lent_program t.now c l.now lc d) n ∷ callee_fault (lent_program t.now c l.now lc d) n ∷ word_fault (lent_program t.now c l.now lc d) n ∷ operands_fault (lent_program t.now c l.now lc d) n ∷ []) }
{
    if kind_fault(t, c, l, lc, d, n) {
        return true;
    }
    if callee_fault(t, c, l, lc, d, n) {
        return true;
    }
    if word_fault(t, c, l, lc, d, n) {
        return true;
    }
    operands_fault(t, c, l, lc, d, n)
}

// A broken `set @`: its expression, its address.
fn set_at_fault(t: &[u32], c: u32, l: &[u32], lc: u32, d: u32, n: u32) -> bool
    ensures { result ≡ some (kind_fault (lent_program t.now c l.now lc d) n ∷ callee_fault (lent_program t.now c l.now lc d) n ∷ operands_fault (lent_program t.now c l.now lc d) n ∷ address_fault (lent_program t.now c l.now lc d) n ∷ []) }
{
    if kind_fault(t, c, l, lc, d, n) {
        return true;
    }
    if callee_fault(t, c, l, lc, d, n) {
        return true;
    }
    if operands_fault(t, c, l, lc, d, n) {
        return true;
    }
    address_fault(t, c, l, lc, d, n)
}

// Whether a row of c rows is broken, with lc label rows and d bytes of data: by its kind, since a row of one kind has not what another has.
pub fn row_fault(t: &[u32], c: u32, l: &[u32], lc: u32, d: u32, n: u32) -> bool
    ensures { result ≡ row_fault (lent_program t.now c l.now lc d) n }
{
    let k = prog_tables::kind_at(t, n);
    if prog_tables::is_test(k) {
        return test_fault(t, c, l, lc, d, n);
    }
    match k {
        Kind::FUNCTION => size_fault(t, c, l, lc, d, n),
        Kind::END_FUNCTION => false,
        Kind::BLOCK => word_fault(t, c, l, lc, d, n),
        Kind::END_BLOCK => word_fault(t, c, l, lc, d, n),
        Kind::LET => local_fault(t, c, l, lc, d, n),
        Kind::SET => local_fault(t, c, l, lc, d, n),
        Kind::SET_AT => set_at_fault(t, c, l, lc, d, n),
        Kind::SET_BYTE => operands_fault(t, c, l, lc, d, n),
        Kind::SET_WORD => operands_fault(t, c, l, lc, d, n),
        Kind::GOTO => target_fault(t, c, l, lc, d, n),
        Kind::CALL => expression_fault(t, c, l, lc, d, n),
        Kind::TAIL_CALL => expression_fault(t, c, l, lc, d, n),
        Kind::RETURN => expression_fault(t, c, l, lc, d, n),
        Kind::ELSE => target_fault(t, c, l, lc, d, n),
        Kind::ELSE_IF => target_fault(t, c, l, lc, d, n),
        Kind::END_IF => false,
        _ => true,
    }
}
