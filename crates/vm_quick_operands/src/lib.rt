// Operands, expressions and functions of rows, tested for 35 and read at once. What is not good gives no word, and is left to the exact step.
#![tactic(auto)]

ghost use Rattle.std.specs.Prelude.{◌≡◌, ◌+◌, ◌*◌, ◌≤◌, ◌<◌, length, get_or};
ghost use Rattle.base_limits.specs.Limits.{memory_bytes};
ghost use Rattle.prog_tables.specs.Statement.{operand_at, row_at};
ghost use Rattle.prog_tables.specs.Layout.{statement_row, operand_slots};
ghost use Rattle.prog_tables.specs.Places.{place_of, address_place, first_place, second_place, third_place, slot_at};
ghost use Rattle.vm_quick_operands.specs.Fast.{good_read, one_read, two_read, good_work, size_of};

use lang_kinds::Kind;
use prog_tables::{ExpressionKind, OperandKind, Table};
use vm_definitions::Value;

// Word v of the frame at s.
pub fn local(st: &[u32], s: u32, v: u32) -> u32
    requires { s + v < length st.now }
    ensures { result ≡ get_or st.now (s + v) 0 }
{
    prog_tables::word_in(st, s as usize + v as usize)
}

// The word of the operand at a place, where it is good: of a frame of this size, with d bytes of data.
fn read(t: &[u32], i: usize, d: u32, size: u32, st: &[u32], s: u32, m: &[u8]) -> Option<u32>
    requires { (i + 1 < length t.now) × (s + size ≤ length st.now) }
    ensures { result ≡ good_read size d st.now s m.now (operand_at t.now i) }
{
    let k = prog_tables::word_in(t, i);
    let v = prog_tables::word_in(t, i + 1);
    match k {
        OperandKind::CONSTANT => Some(v),
        OperandKind::LOCAL => {
            if v < size {
                return Some(local(st, s, v));
            }
            None
        }
        OperandKind::ADDRESS => {
            if v <= d {
                return Some(v);
            }
            None
        }
        OperandKind::AT_CONSTANT => vm_operands::fetch(m, v),
        OperandKind::AT_LOCAL => {
            if v < size {
                return vm_operands::fetch(m, local(st, s, v));
            }
            None
        }
        OperandKind::AT_ADDRESS => {
            if v <= d {
                return vm_operands::fetch(m, v);
            }
            None
        }
        _ => None,
    }
}

// The word of the first operand of row n, where it is good.
pub fn read_first(t: &[u32], n: u32, d: u32, size: u32, st: &[u32], s: u32, m: &[u8]) -> Option<u32>
    requires { (place_of n + statement_row ≤ length t.now) × (s + size ≤ length st.now) }
    ensures { result ≡ good_read size d st.now s m.now (operand_at t.now (first_place (place_of n))) }
{
    read(t, prog_tables::first_place(n), d, size, st, s, m)
}

// That of the second.
pub fn read_second(
    t: &[u32],
    n: u32,
    d: u32,
    size: u32,
    st: &[u32],
    s: u32,
    m: &[u8],
) -> Option<u32>
    requires { (place_of n + statement_row ≤ length t.now) × (s + size ≤ length st.now) }
    ensures { result ≡ good_read size d st.now s m.now (operand_at t.now (second_place (place_of n))) }
{
    read(t, prog_tables::second_place(n), d, size, st, s, m)
}

// That of the third.
pub fn read_third(t: &[u32], n: u32, d: u32, size: u32, st: &[u32], s: u32, m: &[u8]) -> Option<u32>
    requires { (place_of n + statement_row ≤ length t.now) × (s + size ≤ length st.now) }
    ensures { result ≡ good_read size d st.now s m.now (operand_at t.now (third_place (place_of n))) }
{
    read(t, prog_tables::third_place(n), d, size, st, s, m)
}

// That of the address operand.
pub fn read_address(
    t: &[u32],
    n: u32,
    d: u32,
    size: u32,
    st: &[u32],
    s: u32,
    m: &[u8],
) -> Option<u32>
    requires { (place_of n + statement_row ≤ length t.now) × (s + size ≤ length st.now) }
    ensures { result ≡ good_read size d st.now s m.now (operand_at t.now (address_place (place_of n))) }
{
    read(t, prog_tables::address_place(n), d, size, st, s, m)
}

// That of operand i.
pub fn read_slot(
    t: &[u32],
    n: u32,
    i: u32,
    d: u32,
    size: u32,
    st: &[u32],
    s: u32,
    m: &[u8],
) -> Option<u32>
    requires { (place_of n + statement_row ≤ length t.now) × (i < operand_slots) × (s + size ≤ length st.now) }
    ensures { result ≡ good_read size d st.now s m.now (slot_at t.now n i) }
{
    read(t, prog_tables::slot_place(n, i), d, size, st, s, m)
}

// An expression of one operand of row n.
fn work_one(
    t: &[u32],
    n: u32,
    e: u32,
    d: u32,
    size: u32,
    st: &[u32],
    s: u32,
    m: &[u8],
    top: u32,
) -> Result<Value, u32>
    requires { (place_of n + statement_row ≤ length t.now) × (s + size ≤ length st.now) × (length m.now ≤ memory_bytes) }
    ensures { result ≡ one_read t.now (place_of n) size d st.now s m.now top e }
{
    let Some(x) = read_first(t, n, d, size, st, s, m) else {
        return Err(32);
    };
    if e == ExpressionKind::PLAIN {
        return Ok(Value { word: x, top });
    }
    vm_operands::apply(e, x, 0, m, top)
}

// An expression of two operands.
fn work_two(
    t: &[u32],
    n: u32,
    e: u32,
    d: u32,
    size: u32,
    st: &[u32],
    s: u32,
    m: &[u8],
    top: u32,
) -> Result<Value, u32>
    requires { (place_of n + statement_row ≤ length t.now) × (s + size ≤ length st.now) × (length m.now ≤ memory_bytes) }
    ensures { result ≡ two_read t.now (place_of n) size d st.now s m.now top e }
{
    let Some(x) = read_first(t, n, d, size, st, s, m) else {
        return Err(32);
    };
    let Some(y) = read_second(t, n, d, size, st, s, m) else {
        return Err(32);
    };
    vm_operands::apply(e, x, y, m, top)
}

// The expression of row n, where it is no call.
pub fn work(
    t: &[u32],
    n: u32,
    d: u32,
    size: u32,
    st: &[u32],
    s: u32,
    m: &[u8],
    top: u32,
) -> Result<Value, u32>
    requires { (place_of n + statement_row ≤ length t.now) × (s + size ≤ length st.now) × (length m.now ≤ memory_bytes) }
    ensures { result ≡ good_work t.now (place_of n) size d st.now s m.now top }
{
    let e = prog_tables::expression_in(t, n);
    let k = prog_tables::expression_uses(e, 0);
    if k == 1 {
        return work_one(t, n, e, d, size, st, s, m, top);
    }
    if k == 2 {
        return work_two(t, n, e, d, size, st, s, m, top);
    }
    Err(0)
}

// The frame size of the good `function` row g of c rows; 0 where it is none.
pub fn size_of(t: &[u32], c: u32, g: u32) -> u32
    requires { c * statement_row ≤ length t.now }
    ensures { result ≡ size_of (row_at t.now) c g }
{
    if c <= g {
        return 0;
    }
    let k = prog_tables::kind_in(t, g);
    if k == Kind::FUNCTION {
        let size = prog_tables::a_in(t, g);
        let p = prog_tables::b_in(t, g);
        if (size as u64) < Table::FRAME_HEAD as u64 + p as u64 {
            return 0;
        }
        return size;
    }
    0
}
