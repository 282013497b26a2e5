// A plain run: statements inside one frame that neither call nor return, each taken with few tests. What is not taken is left to the exact step.
#![tactic(auto)]

ghost use Rattle.std.specs.Prelude.{◌≡◌, ◌∷◌, suc, ◌+◌, ◌*◌, ◌≤◌, ◌<◌, length, replicate};
ghost use Rattle.base_limits.specs.Limits.{word_values, greatest_word, memory_bytes};
ghost use Rattle.base_prelude.specs.Choice.{if_true};
ghost use Rattle.base_limits.specs.declared.Width.TheVariants.{Bits32};
ghost use Rattle.vm_definitions.specs.Access.{store_from};
ghost use Rattle.prog_tables.specs.Layout.{statement_row};
ghost use Rattle.prog_tables.specs.Places.{place_of};
ghost use Rattle.vm_definitions.specs.Expressions.{test_holds};
ghost use Rattle.vm_quick_statements.specs.PlainRun.{to_row, taken, ended_with, aimed, quick_assign, quick_test, quick_jump, quick_block, quick_end, three_read, quick_byte, quick_word, stored_at, quick_at, quick_form, quick_step, plain_run_of};

use lang_kinds::Kind;
use prog_tables::{ExpressionKind, OperandKind, Table};
use vm_statements::Store;

// Where a statement that is taken goes on, and the auto top. Without one nothing happened.
#[derive(Clone, Copy, Debug, PartialEq, Eq)]
pub struct Move {
    pub next: u32,
    pub top: u32,
}

// Where a plain run ends: the next statement, the auto top, and the steps counted.
#[derive(Drop)]
pub struct PlainRun {
    pub next: u32,
    pub top: u32,
    pub count: u64,
}

// `let` and `set` of a local, without a call; the head of the frame is not written.
fn assign(
    t: &[u32],
    d: u32,
    size: u32,
    st: &mut [u32],
    s: u32,
    m: &[u8],
    n: u32,
    top: u32,
) -> Option<Move>
    requires { (n < greatest_word) × (place_of n + statement_row ≤ length t.now) × (s + size ≤ length st.old) × (length m.now ≤ memory_bytes) }
    ensures { taken result st.new m.now ≡ quick_assign t.now d size st.old s m.now n top }
{
    let a = prog_tables::a_in(t, n);
    if a < Table::FRAME_HEAD {
        return None;
    }
    if size <= a {
        return None;
    }
    match vm_quick_operands::work(t, n, d, size, st, s, m, top) {
        Ok(v) => {
            vm_memory::put(st, s as usize + a as usize, v.word);
            Some(Move {
                next: n + 1,
                top: v.top,
            })
        }
        Err(_) => None,
    }
}

// `let` and `set` of a local; a call is not looked at further.
fn set_local(
    t: &[u32],
    d: u32,
    size: u32,
    st: &mut [u32],
    s: u32,
    m: &[u8],
    n: u32,
    top: u32,
) -> Option<Move>
    requires { (n < greatest_word) × (place_of n + statement_row ≤ length t.now) × (s + size ≤ length st.old) × (length m.now ≤ memory_bytes) }
    ensures { taken result st.new m.now ≡ quick_assign t.now d size st.old s m.now n top }
{
    let e = prog_tables::expression_in(t, n);
    if e == ExpressionKind::CALL {
        return None;
    }
    assign(t, d, size, st, s, m, n, top)
}

// Whether row a is a row of function g.
fn is_aimed(t: &[u32], c: u32, g: u32, a: u32) -> bool
    requires { c * statement_row ≤ length t.now }
    ensures { result ≡ aimed t.now c g a }
{
    if a < c {
        return prog_tables::func_in(t, a) == g;
    }
    false
}

// Where a test of kind k at row n goes with two words; a is its target.
fn branch(n: u32, top: u32, k: u32, a: u32, x: u32, y: u32) -> Option<Move>
    requires { n < greatest_word }
    ensures { result ≡ to_row (if_true (test_holds Bits32 k x y) (suc n) a) top }
{
    if vm_operands::test(k, x, y) {
        return Some(Move { next: n + 1, top });
    }
    Some(Move { next: a, top })
}

// A test of kind k.
fn test(
    t: &[u32],
    c: u32,
    g: u32,
    d: u32,
    size: u32,
    st: &[u32],
    s: u32,
    m: &[u8],
    n: u32,
    top: u32,
    k: u32,
) -> Option<Move>
    requires { (n < greatest_word) × (place_of n + statement_row ≤ length t.now) × (s + size ≤ length st.now) × (c * statement_row ≤ length t.now) }
    ensures { taken result st.now m.now ≡ quick_test t.now c g d size st.now s m.now n top k }
{
    let a = prog_tables::a_in(t, n);
    if is_aimed(t, c, g, a) {
        let x = vm_quick_operands::read_first(t, n, d, size, st, s, m)?;
        let y = vm_quick_operands::read_second(t, n, d, size, st, s, m)?;
        return branch(n, top, k, a, x, y);
    }
    None
}

// `goto` and `else`.
fn jump(t: &[u32], c: u32, g: u32, n: u32, top: u32) -> Option<Move>
    requires { (place_of n + statement_row ≤ length t.now) × (c * statement_row ≤ length t.now) }
    ensures { result ≡ quick_jump t.now c g n top }
{
    let a = prog_tables::a_in(t, n);
    if is_aimed(t, c, g, a) {
        return Some(Move { next: a, top });
    }
    None
}

// The words of a block from a place on: the auto top, then zeros.
fn open_block(st: &mut [u32], at: usize, top: u32, lets: u32)
    requires { at < 1099511627775 }
    ensures { st.new ≡ store_from st.old at (top ∷ replicate lets 0) }
{
    vm_memory::put(st, at, top);
    vm_memory::put_zeros(st, at + 1, lets);
}

// `block`.
fn enter_block(
    t: &[u32],
    size: u32,
    st: &mut [u32],
    s: u32,
    m: &[u8],
    n: u32,
    top: u32,
) -> Option<Move>
    requires { (n < greatest_word) × (place_of n + statement_row ≤ length t.now) }
    ensures { taken result st.new m.now ≡ quick_block t.now size st.old s m.now n top }
{
    let a = prog_tables::a_in(t, n);
    let b = prog_tables::b_in(t, n);
    if a < Table::FRAME_HEAD {
        return None;
    }
    if size as u64 <= a as u64 + b as u64 {
        return None;
    }
    open_block(st, s as usize + a as usize, top, b);
    Some(Move { next: n + 1, top })
}

// `end block`.
fn leave_block(t: &[u32], size: u32, st: &[u32], s: u32, m: usize, n: u32) -> Option<Move>
    requires { (n < greatest_word) × (place_of n + statement_row ≤ length t.now) × (s + size ≤ length st.now) }
    ensures { result ≡ quick_end t.now size st.now s m n }
{
    let a = prog_tables::a_in(t, n);
    if size <= a {
        return None;
    }
    let top = vm_quick_operands::local(st, s, a);
    if m < top as usize {
        return None;
    }
    Some(Move { next: n + 1, top })
}

// The first three operands of the row at a place, left to right.
fn read_three(t: &[u32], n: u32, d: u32, size: u32, st: &[u32], s: u32, m: &[u8]) -> Option<Store>
    requires { (place_of n + statement_row ≤ length t.now) × (s + size ≤ length st.now) }
    ensures { result ≡ three_read t.now (place_of n) d size st.now s m.now }
{
    let base = vm_quick_operands::read_first(t, n, d, size, st, s, m)?;
    let offset = vm_quick_operands::read_second(t, n, d, size, st, s, m)?;
    let value = vm_quick_operands::read_third(t, n, d, size, st, s, m)?;
    Some(Store {
        base,
        offset,
        value,
    })
}

// `set-byte`.
fn set_byte(
    t: &[u32],
    d: u32,
    size: u32,
    st: &[u32],
    s: u32,
    m: &mut [u8],
    n: u32,
    top: u32,
) -> Option<Move>
    requires { (n < greatest_word) × (place_of n + statement_row ≤ length t.now) × (s + size ≤ length st.now) }
    ensures { taken result st.now m.new ≡ quick_byte t.now d size st.now s m.old n top }
{
    let x = read_three(t, n, d, size, st, s, m)?;
    let a = vm_operands::byte_address(x.base, x.offset);
    if vm_operands::has_byte(m.len(), a) {
        vm_memory::put_byte(m, a, x.value);
        return Some(Move { next: n + 1, top });
    }
    None
}

// `set-word`. Not one with `set-byte`: it would take address, test and store as arguments: no plainer.
fn set_word(
    t: &[u32],
    d: u32,
    size: u32,
    st: &[u32],
    s: u32,
    m: &mut [u8],
    n: u32,
    top: u32,
) -> Option<Move>
    requires { (n < greatest_word) × (place_of n + statement_row ≤ length t.now) × (s + size ≤ length st.now) }
    ensures { taken result st.now m.new ≡ quick_word t.now d size st.now s m.old n top }
{
    let x = read_three(t, n, d, size, st, s, m)?;
    let a = vm_operands::word_address(x.base, x.offset);
    if vm_operands::has_word(m.len(), a) {
        vm_memory::put_word(m, a, x.value);
        return Some(Move { next: n + 1, top });
    }
    None
}

// `set @` without a call, a being its good address.
fn store_at(
    t: &[u32],
    d: u32,
    size: u32,
    st: &[u32],
    s: u32,
    m: &mut [u8],
    n: u32,
    top: u32,
    a: u32,
) -> Option<Move>
    requires { (n < greatest_word) × (place_of n + statement_row ≤ length t.now) × (s + size ≤ length st.now) × (length m.old ≤ memory_bytes) × (a + 4 ≤ length m.old) }
    ensures { taken result st.now m.new ≡ stored_at t.now d size st.now s m.old n top a }
{
    match vm_quick_operands::work(t, n, d, size, st, s, m, top) {
        Ok(v) => {
            vm_memory::put_word(m, a, v.word);
            Some(Move {
                next: n + 1,
                top: v.top,
            })
        }
        Err(_) => None,
    }
}

// `set @` without a call.
fn set_at(
    t: &[u32],
    d: u32,
    size: u32,
    st: &[u32],
    s: u32,
    m: &mut [u8],
    n: u32,
    top: u32,
) -> Option<Move>
    requires { (n < greatest_word) × (place_of n + statement_row ≤ length t.now) × (s + size ≤ length st.now) × (length m.old ≤ memory_bytes) }
    ensures { taken result st.now m.new ≡ quick_at t.now d size st.now s m.old n top }
{
    let k = prog_tables::address_kind_in(t, n);
    if OperandKind::ADDRESS < k {
        return None;
    }
    let a = vm_quick_operands::read_address(t, n, d, size, st, s, m)?;
    if vm_operands::has_word(m.len(), a) {
        return store_at(t, d, size, st, s, m, n, top, a);
    }
    None
}

// Row n, one of function g.
fn take_form(
    t: &[u32],
    c: u32,
    g: u32,
    d: u32,
    size: u32,
    st: &mut [u32],
    s: u32,
    m: &mut [u8],
    n: u32,
    top: u32,
) -> Option<Move>
    requires { (n < c) × (c < word_values) × (c * statement_row ≤ length t.now) × (s + size ≤ length st.old) × (length m.old ≤ memory_bytes) }
    ensures { taken result st.new m.new ≡ quick_form t.now c g d size st.old s m.old n top }
{
    let k = prog_tables::kind_in(t, n);
    if prog_tables::is_test(k) {
        return test(t, c, g, d, size, st, s, m, n, top, k);
    }
    match k {
        Kind::BLOCK => enter_block(t, size, st, s, m, n, top),
        Kind::END_BLOCK => leave_block(t, size, st, s, m.len(), n),
        Kind::LET => set_local(t, d, size, st, s, m, n, top),
        Kind::SET => set_local(t, d, size, st, s, m, n, top),
        Kind::SET_AT => set_at(t, d, size, st, s, m, n, top),
        Kind::SET_BYTE => set_byte(t, d, size, st, s, m, n, top),
        Kind::SET_WORD => set_word(t, d, size, st, s, m, n, top),
        Kind::GOTO => jump(t, c, g, n, top),
        Kind::ELSE => jump(t, c, g, n, top),
        Kind::ELSE_IF => jump(t, c, g, n, top),
        Kind::END_IF => Some(Move { next: n + 1, top }),
        _ => None,
    }
}

// The statement at row n, where that is a row of function g.
fn take(
    t: &[u32],
    c: u32,
    g: u32,
    d: u32,
    size: u32,
    st: &mut [u32],
    s: u32,
    m: &mut [u8],
    n: u32,
    top: u32,
) -> Option<Move>
    requires { (c < word_values) × (c * statement_row ≤ length t.now) × (s + size ≤ length st.old) × (length m.old ≤ memory_bytes) }
    ensures { taken result st.new m.new ≡ quick_step t.now c g d size st.old s m.old n top }
{
    if c <= n {
        return None;
    }
    let own = prog_tables::func_in(t, n);
    if own == g {
        return take_form(t, c, g, d, size, st, s, m, n, top);
    }
    None
}

// Statements from row n on, of function g with this frame size, within a budget; s is where the frame starts.
pub fn run_plain(
    t: &[u32],
    c: u32,
    g: u32,
    d: u32,
    size: u32,
    budget: u64,
    st: &mut [u32],
    s: u32,
    m: &mut [u8],
    n: u32,
    top: u32,
) -> PlainRun
    requires { (c * statement_row ≤ length t.now) × (s + size ≤ length st.old) × (length m.old ≤ memory_bytes) }
    ensures { ended_with result st.new m.new ≡ plain_run_of t.now c g d size s budget st.old m.old n top }
{
    let mut next = n;
    let mut end = top;
    for count in 0..budget {
        let Some(x) = take(t, c, g, d, size, st, s, m, next, end) else {
            return PlainRun {
                next,
                top: end,
                count,
            };
        };
        next = x.next;
        end = x.top;
    }
    PlainRun {
        next,
        top: end,
        count: budget,
    }
}
