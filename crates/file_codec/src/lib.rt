// The codecs of rule files: which words of a row a file has; words, fields, rows and labels read.
#![tactic(auto)]

ghost use Rattle.std.specs.Prelude.{◌≡◌, ◌+◌, ◌*◌, ◌≤◌, ◌<◌, get_or, eqb, min, length};
ghost use Rattle.prog_tables.specs.StatementRow as row;
ghost use Rattle.prog_tables.specs.WellFormed.{has_operands};
ghost use Rattle.file_codec.specs.Words.{word_in};
ghost use Rattle.prog_tables.specs.Tests.{count_below};
ghost use Rattle.prog_tables.specs.Layout.{statement_row};
ghost use Rattle.base_prelude.specs.Choice.{pick};
ghost use Rattle.file_codec.specs.Rows.{uses, unpacked_at, row_fits};
ghost use Rattle.file_codec.specs.Labels.{label_head, label_fits};

use lang_kinds::Kind;
use prog_tables::{LabelKind, StatementRow};

// A byte, 0 past the end.
pub fn byte_in(b: &[u8], i: usize) -> u32
    ensures { (result ≡ get_or b.now i 0) × (result < 256) }
{
    if i < b.len() {
        base_prelude::wide(b[i])
    } else {
        0
    }
}

// The word whose first byte is at a place; bytes past the end are 0.
pub fn word_in(b: &[u8], at: usize) -> u32
    requires { at < 1099511627776 }
    ensures { result ≡ word_in b.now at }
{
    let high = byte_in(b, at + 2) + 256 * byte_in(b, at + 3);
    byte_in(b, at) + 256 * (byte_in(b, at + 1) + 256 * high)
}

// Whether a row of this kind has operands.
pub fn has_operands(k: u32) -> bool
    ensures { result ≡ has_operands k }
{
    prog_tables::has_operands(k)
}

// Whether it uses the word that is a target, a frame word or a frame size.
fn uses_a(k: u32) -> bool
    ensures { result ≡ uses k 0 0 row.a }
{
    if prog_faults::has_target(k) {
        return true;
    }
    if k == Kind::GOTO {
        return true;
    }
    if k == Kind::FUNCTION {
        return true;
    }
    if k < Kind::BLOCK {
        return false;
    }
    k < Kind::SET_AT
}

// Parameters, or own lets.
fn uses_b(k: u32) -> bool
    ensures { result ≡ uses k 0 0 row.b }
{
    if k == Kind::FUNCTION {
        return true;
    }
    k == Kind::BLOCK
}

// The expression kind.
fn uses_expr(k: u32) -> bool
    ensures { result ≡ uses k 0 0 row.expr }
{
    if prog_tables::has_expression(k) {
        return true;
    }
    prog_tables::is_call_row(k)
}

// The callee, of a block the locals before it.
fn uses_callee(k: u32, e: u32) -> bool
    ensures { result ≡ uses k e 0 row.callee }
{
    if k == Kind::BLOCK {
        return true;
    }
    if prog_tables::is_call(k, e) {
        return true;
    }
    prog_tables::is_import(k, e)
}

// A word of an operand, the address operand aside.
fn uses_slot(k: u32, e: u32, n: u32, j: usize) -> bool
    requires { row.operands ≤ j }
    ensures { result ≡ uses k e n j }
{
    let used = prog_tables::used_by(k, e, n);
    (j as u64) < 11 + 2 * used as u64
}

// Whether a row of kind k with expression kind e and count n uses its word j.
pub fn uses(k: u32, e: u32, n: u32, j: usize) -> bool
    ensures { result ≡ uses k e n j }
{
    if j < StatementRow::A {
        return true;
    }
    if j == StatementRow::A {
        return uses_a(k);
    }
    if j == StatementRow::B {
        return uses_b(k);
    }
    if j == StatementRow::EXPR {
        return uses_expr(k);
    }
    if j == StatementRow::CALLEE {
        return uses_callee(k, e);
    }
    if j == StatementRow::COUNT {
        return has_operands(k);
    }
    if j < StatementRow::OPERANDS {
        return k == Kind::SET_AT;
    }
    uses_slot(k, e, n, j)
}

// 1 for a word that is used, 0 for one that is not.
fn one(b: bool) -> u32
    ensures { (result ≡ pick b 1 0) × (result ≤ 1) }
{
    if b { 1 } else { 0 }
}

// The words before the expression kind.
fn before_expr(k: u32) -> u32
    ensures { (result ≡ count_below (uses k 0 0) row.expr) × (result ≤ 6) }
{
    4 + one(uses_a(k)) + one(uses_b(k))
}

// The words before the count.
fn before_count(k: u32, e: u32) -> u32
    ensures { (result ≡ count_below (uses k e 0) row.count) × (result ≤ 8) }
{
    before_expr(k) + one(uses_expr(k)) + one(uses_callee(k, e))
}

// Words of the address operand.
fn address_words(k: u32) -> u32
    ensures { (result ≡ 2 * pick (eqb k 7) 1 0) × (result ≤ 2) }
{
    if k == Kind::SET_AT { 2 } else { 0 }
}

// Words of the other operands: there are eight slots whatever the count.
fn slot_words(used: u32) -> u32
    ensures { result ≡ 2 * min used 8 }
{
    if used < 8 { 2 * used } else { 16 }
}

// The words that a row uses.
pub fn row_words(k: u32, e: u32, n: u32) -> u32
    ensures { result ≡ count_below (uses k e n) statement_row }
{
    let head = before_count(k, e) + one(has_operands(k)) + address_words(k);
    head + slot_words(prog_tables::used_by(k, e, n))
}

// The expression kind in the bytes of a row's field, of a row of kind k.
pub fn expr_in(x: &[u8], k: u32) -> u32
    ensures { result ≡ unpacked_at (uses k 0 0) x.now row.expr }
{
    if uses_expr(k) {
        return word_in(x, before_expr(k) as usize * 4);
    }
    0
}

// The count.
pub fn count_in(x: &[u8], k: u32, e: u32) -> u32
    ensures { result ≡ unpacked_at (uses k e 0) x.now row.count }
{
    if has_operands(k) {
        return word_in(x, before_count(k, e) as usize * 4);
    }
    0
}

// Whether the bytes of a row's field are as many as its row has.
pub fn row_fits(x: &[u8]) -> bool
    ensures { result ≡ row_fits x.now }
{
    let k = word_in(x, 0);
    let e = expr_in(x, k);
    let n = count_in(x, k, e);
    x.len() == row_words(k, e, n) as usize * 4
}

// The bytes before the name of a label of kind k.
pub fn label_head(k: u32) -> usize
    ensures { (result ≡ label_head k) × (result ≤ 12) }
{
    if k == LabelKind::IMPORT { 12 } else { 8 }
}

// Whether the bytes of a label's field hold its head.
pub fn label_fits(x: &[u8]) -> bool
    ensures { result ≡ label_fits x.now }
{
    label_head(word_in(x, 0)) <= x.len()
}
