// The rows of the statement table, from the skeleton, the frame words, the final label table, and what each name means.
#![tactic(auto)]

ghost use Rattle.std.specs.Prelude.{◌≡◌, ◌+◌, ◌-◌, ◌*◌, ◌≤◌, ◌<◌, min, eqb, length};
ghost use Rattle.base_limits.specs.Limits as limits;
ghost use Rattle.res_scope.specs.Lines.{label_kind};
ghost use Rattle.prog_tables.specs.Statement.{operand_kind, operand_number, slot_words};
ghost use Rattle.res_scope.specs.Names.{same_number};
ghost use Rattle.prog_tables.specs.Layout.{statement_row, import_label};
ghost use Rattle.res_rows.specs.Rows.{label_number, word_of_let, word_of_parameter, local_word, label_target, called_label, callee_target, is_imported, plain_operand, at_operand, constant_operand, token_operand, address_constant, address_operand, operands_from, slot_operand, operand_words, aOf, bOf, expr_of, callee_of, address_of, row_with, row_of, head_of, head_words, put_words, put_row, statement_table};

use base_limits::Machine;
use lang_kinds::{Kind, Token};
use prog_tables::{ExpressionKind, LabelKind, LabelRow, Operand, OperandKind, StatementRow, Table};
use res_scope::{Meaning, Parts};

// Words 0 to 10 of a row.
#[derive(Drop)]
struct Head {
    kind: u32,
    func: u32,
    scope: u32,
    up: u32,
    a: u32,
    b: u32,
    expr: u32,
    callee: u32,
    count: u32,
    form: u32,
    address: u32,
}

fn label_number(z: &[u32], j: u32) -> u32
    ensures { result ≡ label_number z.now j }
{
    prog_tables::word_at(z, j as usize * Table::LABEL_ROW + LabelRow::NUMBER)
}

fn word_of_let(w: &[u32], m: u32) -> u32
    ensures { result ≡ word_of_let w.now m }
{
    prog_tables::word_at(w, m as usize)
}

fn word_of_parameter(j: u32) -> u32
    ensures { result ≡ word_of_parameter j }
{
    ((Table::FRAME_HEAD as u64 + j as u64) % Machine::WORD_VALUES) as u32
}

fn local_word(w: &[u32], m: Meaning) -> u32
    ensures { result ≡ local_word w.now m }
{
    match m {
        Meaning::Let(j) => word_of_let(w, j),
        Meaning::Parameter(j) => word_of_parameter(j),
        Meaning::Label(_) => 0,
        Meaning::Unknown => 0,
    }
}

fn label_target(z: &[u32], m: Meaning) -> u32
    ensures { result ≡ label_target z.now m }
{
    match m {
        Meaning::Let(_) => 0,
        Meaning::Parameter(_) => 0,
        Meaning::Label(j) => label_number(z, j),
        Meaning::Unknown => 0,
    }
}

fn called_label(y: &[u32], z: &[u32], j: u32) -> u32
    ensures { result ≡ called_label y.now z.now j }
{
    if res_scope::label_kind(y, j) == LabelKind::IMPORT {
        return j;
    }
    label_number(z, j)
}

fn callee_target(y: &[u32], z: &[u32], m: Meaning) -> u32
    ensures { result ≡ callee_target y.now z.now m }
{
    match m {
        Meaning::Let(_) => 0,
        Meaning::Parameter(_) => 0,
        Meaning::Label(j) => called_label(y, z, j),
        Meaning::Unknown => 0,
    }
}

fn is_import_label(y: &[u32], j: u32) -> bool
    ensures { result ≡ eqb (label_kind y.now j) import_label }
{
    res_scope::label_kind(y, j) == LabelKind::IMPORT
}

fn is_imported(y: &[u32], m: Meaning) -> bool
    ensures { result ≡ is_imported y.now m }
{
    match m {
        Meaning::Let(_) => false,
        Meaning::Parameter(_) => false,
        Meaning::Label(j) => is_import_label(y, j),
        Meaning::Unknown => false,
    }
}

// Two functions, not one with a flag: only the constructors differ, so a flag would be tested in each arm.
fn plain_operand(w: &[u32], z: &[u32], m: Meaning) -> Operand
    ensures { result ≡ plain_operand w.now z.now m }
{
    match m {
        Meaning::Let(j) => Operand::Local(word_of_let(w, j)),
        Meaning::Parameter(j) => Operand::Local(word_of_parameter(j)),
        Meaning::Label(j) => Operand::Address(label_number(z, j)),
        Meaning::Unknown => Operand::Unlisted,
    }
}

fn at_operand(w: &[u32], z: &[u32], m: Meaning) -> Operand
    ensures { result ≡ at_operand w.now z.now m }
{
    match m {
        Meaning::Let(j) => Operand::AtLocal(word_of_let(w, j)),
        Meaning::Parameter(j) => Operand::AtLocal(word_of_parameter(j)),
        Meaning::Label(j) => Operand::AtAddress(label_number(z, j)),
        Meaning::Unknown => Operand::Unlisted,
    }
}

fn constant_operand(kind: u32, v: u32) -> Operand
    ensures { result ≡ constant_operand kind v }
{
    if kind == Token::INTEGER {
        return Operand::Constant(v);
    }
    if kind == Token::SUBSTITUTE {
        return Operand::Constant(v);
    }
    if kind == Token::AT_INTEGER {
        return Operand::AtConstant(v);
    }
    if kind == Token::AT_SUBSTITUTE {
        return Operand::AtConstant(v);
    }
    Operand::Unlisted
}

fn token_operand(
    t: &[u32],
    k: &[u32],
    y: &[u32],
    l: u32,
    w: &[u32],
    z: &[u32],
    r: u32,
    i: u32,
) -> Operand
    ensures { result ≡ token_operand (same_number t.now) t.now k.now y.now l w.now z.now r i }
{
    let kind = parse_lines::kind_at(t, i);
    if kind == Token::SYMBOL {
        return plain_operand(w, z, res_scope::meaning_of(t, k, y, l, r, i));
    }
    if kind == Token::AT_SYMBOL {
        return at_operand(w, z, res_scope::meaning_of(t, k, y, l, r, i));
    }
    constant_operand(kind, parse_lines::value_at(t, i))
}

fn address_constant(kind: u32, v: u32) -> Operand
    ensures { result ≡ address_constant kind v }
{
    if kind == Token::AT_INTEGER {
        return Operand::Constant(v);
    }
    if kind == Token::AT_SUBSTITUTE {
        return Operand::Constant(v);
    }
    Operand::Unlisted
}

fn address_operand(
    t: &[u32],
    k: &[u32],
    y: &[u32],
    l: u32,
    w: &[u32],
    z: &[u32],
    r: u32,
    i: u32,
) -> Operand
    ensures { result ≡ address_operand (same_number t.now) t.now k.now y.now l w.now z.now r i }
{
    let kind = parse_lines::kind_at(t, i);
    if kind == Token::AT_SYMBOL {
        return plain_operand(w, z, res_scope::meaning_of(t, k, y, l, r, i));
    }
    address_constant(kind, parse_lines::value_at(t, i))
}

fn a_of(
    t: &[u32],
    k: &[u32],
    y: &[u32],
    l: u32,
    w: &[u32],
    z: &[u32],
    r: u32,
    kind: u32,
    i: u32,
) -> u32
    ensures { result ≡ aOf (same_number t.now) k.now y.now l w.now z.now r kind i }
{
    if kind == Kind::SET {
        return local_word(w, res_scope::meaning_of(t, k, y, l, r, i));
    }
    if kind == Kind::GOTO {
        return label_target(z, res_scope::meaning_of(t, k, y, l, r, i));
    }
    prog_tables::word_at(w, r as usize)
}

fn b_of(k: &[u32], c: u32, r: u32, kind: u32) -> u32
    ensures { result ≡ bOf k.now c r kind }
{
    if kind == Kind::FUNCTION {
        return prog_tables::parameters_at(k, r);
    }
    if kind == Kind::BLOCK {
        return prog_frames::lets_before(k, r, c);
    }
    0
}

fn expr_of(t: &[u32], k: &[u32], y: &[u32], l: u32, r: u32, expr: u32, i: u32) -> u32
    ensures { result ≡ expr_of (same_number t.now) k.now y.now l r expr i }
{
    if i == 0 {
        return expr;
    }
    if is_imported(y, res_scope::meaning_of(t, k, y, l, r, i)) {
        return ExpressionKind::IMPORT;
    }
    expr
}

fn callee_of(t: &[u32], k: &[u32], y: &[u32], l: u32, z: &[u32], r: u32, kind: u32, i: u32) -> u32
    ensures { result ≡ callee_of (same_number t.now) k.now y.now l z.now r kind i }
{
    if kind == Kind::BLOCK {
        return (prog_frames::locals_at(k, r) % Machine::WORD_VALUES) as u32;
    }
    if i == 0 {
        return 0;
    }
    callee_target(y, z, res_scope::meaning_of(t, k, y, l, r, i))
}

fn address_of(
    t: &[u32],
    k: &[u32],
    y: &[u32],
    l: u32,
    w: &[u32],
    z: &[u32],
    r: u32,
    kind: u32,
    i: u32,
) -> Operand
    ensures { result ≡ address_of (same_number t.now) t.now k.now y.now l w.now z.now r kind i }
{
    if kind == Kind::SET_AT {
        return address_operand(t, k, y, l, w, z, r, i);
    }
    Operand::Unlisted
}

fn operand_kind(o: Operand) -> u32
    ensures { result ≡ operand_kind o }
{
    match o {
        Operand::Constant(_) => OperandKind::CONSTANT,
        Operand::Local(_) => OperandKind::LOCAL,
        Operand::Address(_) => OperandKind::ADDRESS,
        Operand::AtConstant(_) => OperandKind::AT_CONSTANT,
        Operand::AtLocal(_) => OperandKind::AT_LOCAL,
        Operand::AtAddress(_) => OperandKind::AT_ADDRESS,
        Operand::Unlisted => 0,
    }
}

fn operand_number(o: Operand) -> u32
    ensures { result ≡ operand_number o }
{
    match o {
        Operand::Constant(v) => v,
        Operand::Local(v) => v,
        Operand::Address(v) => v,
        Operand::AtConstant(v) => v,
        Operand::AtLocal(v) => v,
        Operand::AtAddress(v) => v,
        Operand::Unlisted => 0,
    }
}

fn head_of(
    t: &[u32],
    k: &[u32],
    y: &[u32],
    l: u32,
    w: &[u32],
    z: &[u32],
    c: u32,
    r: u32,
    kind: u32,
    first: u32,
    next: u32,
    p: Parts,
) -> Head
    requires { first ≤ limits.tokens + 1 }
    ensures { result ≡ head_of (row_with (same_number t.now) t.now k.now y.now l w.now z.now c r kind first next p) }
{
    let i = first + 1;
    let o = address_of(t, k, y, l, w, z, r, kind, i);
    Head {
        kind,
        func: prog_tables::func_at(k, r),
        scope: prog_tables::scope_at(k, r),
        up: prog_tables::up_at(k, r),
        a: a_of(t, k, y, l, w, z, r, kind, i),
        b: b_of(k, c, r, kind),
        expr: expr_of(t, k, y, l, r, p.expr, p.callee),
        callee: callee_of(t, k, y, l, z, r, kind, p.callee),
        count: next.saturating_sub(p.first),
        form: operand_kind(o),
        address: operand_number(o),
    }
}

fn put_head(out: &mut [u32], at: usize, h: Head)
    requires { at + 11 ≤ length out.old }
    ensures { out.new ≡ put_words out.old at (head_words h) }
{
    out[at] = h.kind;
    out[at + StatementRow::FUNC] = h.func;
    out[at + StatementRow::SCOPE] = h.scope;
    out[at + StatementRow::UP] = h.up;
    out[at + StatementRow::A] = h.a;
    out[at + StatementRow::B] = h.b;
    out[at + StatementRow::EXPR] = h.expr;
    out[at + StatementRow::CALLEE] = h.callee;
    out[at + StatementRow::COUNT] = h.count;
    out[at + StatementRow::ADDRESS] = h.form;
    out[at + 10] = h.address;
}

fn put_operand(out: &mut [u32], at: usize, o: Operand)
    requires { at + 2 ≤ length out.old }
    ensures { out.new ≡ put_words out.old at (operand_words o) }
{
    let kind = operand_kind(o);
    let number = operand_number(o);
    out[at] = kind;
    out[at + 1] = number;
}

fn slot_operand(
    t: &[u32],
    k: &[u32],
    y: &[u32],
    l: u32,
    w: &[u32],
    z: &[u32],
    r: u32,
    first: u32,
    count: u32,
    j: u32,
) -> Operand
    requires { first + count < limits.word_values }
    ensures { result ≡ slot_operand (same_number t.now) t.now k.now y.now l w.now z.now r first count j }
{
    if j < count {
        return token_operand(t, k, y, l, w, z, r, first + j);
    }
    Operand::Unlisted
}

fn put_slot(
    t: &[u32],
    k: &[u32],
    y: &[u32],
    l: u32,
    w: &[u32],
    z: &[u32],
    r: u32,
    first: u32,
    count: u32,
    j: u32,
    out: &mut [u32],
    at: usize,
)
    requires { (first + count < limits.word_values) × (at + 2 ≤ length out.old) }
    ensures { out.new ≡ put_words out.old at (operand_words (slot_operand (same_number t.now) t.now k.now y.now l w.now z.now r first count j)) }
{
    let o = slot_operand(t, k, y, l, w, z, r, first, count, j);
    put_operand(out, at, o);
}

fn put_slots(
    t: &[u32],
    k: &[u32],
    y: &[u32],
    l: u32,
    w: &[u32],
    z: &[u32],
    r: u32,
    first: u32,
    count: u32,
    out: &mut [u32],
    at: usize,
)
    requires { (first + count < limits.word_values) × (at + limits.parameters * 2 ≤ length out.old) }
    ensures { out.new ≡ put_words out.old at (slot_words limits.parameters (operands_from (min count limits.parameters) (same_number t.now) t.now k.now y.now l w.now z.now r first)) }
{
    for j in 0..Machine::PARAMETERS {
        put_slot(
            t,
            k,
            y,
            l,
            w,
            z,
            r,
            first,
            count,
            j,
            out,
            at + j as usize * 2,
        );
    }
}

fn put_parts(
    t: &[u32],
    k: &[u32],
    y: &[u32],
    l: u32,
    w: &[u32],
    z: &[u32],
    c: u32,
    r: u32,
    kind: u32,
    first: u32,
    next: u32,
    p: Parts,
    out: &mut [u32],
)
    requires { (first ≤ limits.tokens + 1) × (r * statement_row + statement_row ≤ length out.old) }
    ensures { out.new ≡ put_row out.old r (row_with (same_number t.now) t.now k.now y.now l w.now z.now c r kind first next p) }
{
    let at = r as usize * Table::STATEMENT_ROW;
    let h = head_of(t, k, y, l, w, z, c, r, kind, first, next, p);
    put_head(out, at, h);
    let count = next.saturating_sub(p.first);
    put_slots(
        t,
        k,
        y,
        l,
        w,
        z,
        r,
        p.first,
        count,
        out,
        at + StatementRow::OPERANDS,
    );
}

fn write_row(
    t: &[u32],
    k: &[u32],
    y: &[u32],
    l: u32,
    w: &[u32],
    z: &[u32],
    c: u32,
    r: u32,
    out: &mut [u32],
)
    requires { r * statement_row + statement_row ≤ length out.old }
    ensures { out.new ≡ put_row out.old r (row_of (same_number t.now) t.now k.now y.now l w.now z.now c r) }
{
    let kind = prog_tables::kind_at(k, r);
    let first = res_scope::first_token(k, r);
    let next = res_scope::end_token(k, r);
    let p = res_scope::parts_of(t, kind, first, next);
    put_parts(t, k, y, l, w, z, c, r, kind, first, next, p, out);
}

// The rows of c statements. The names of the source are good, and the label table is the final one.
pub fn write_rows(
    t: &[u32],
    k: &[u32],
    y: &[u32],
    l: u32,
    w: &[u32],
    z: &[u32],
    c: u32,
    out: &mut [u32],
)
    requires { (c ≤ limits.statements) × (c * statement_row ≤ length out.old) }
    ensures { out.new ≡ statement_table (same_number t.now) t.now k.now y.now l w.now z.now c out.old }
{
    for r in 0..c {
        write_row(t, k, y, l, w, z, c, r, out);
    }
}
