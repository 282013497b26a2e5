// Statements: one function for each form, and the statement that a record stands at.
#![tactic(auto)]

ghost use Rattle.std.specs.Prelude.{◌≡◌, true, [], ◌∷◌, suc, ◌+◌, ◌≤◌, ◌<◌, length, get_or, take, replicate};
ghost use Rattle.base_limits.specs.Limits.{greatest_word, memory_bytes};
ghost use Rattle.base_prelude.specs.Choice.{if_true};
ghost use Rattle.base_limits.specs.declared.Width.TheVariants.{Bits32};
ghost use Rattle.base_limits.specs.Record.{going_on};
ghost use Rattle.lang_kinds.specs.Kinds as kind;
ghost use Rattle.prog_tables.specs.Statement.{row_at, slots, is_test, has_expression};
ghost use Rattle.vm_definitions.specs.Access.{store_from};
ghost use Rattle.vm_definitions.specs.Operands.{number_in, read_all};
ghost use Rattle.vm_definitions.specs.Expressions.{test_holds};
ghost use Rattle.vm_definitions.specs.Step.{test_of, set_at_of, effect_of};
ghost use Rattle.vm_definitions.specs.Lent.{left};
ghost use Rattle.prog_tables.specs.Places.{place_of};
ghost use Rattle.vm_calls.specs.Outcomes.{one_step, after, assigning, setting_byte, setting_word, Expressed};
ghost use Rattle.vm_statements.specs.Three.{three_words};
ghost use Rattle.vm_statements.specs.Ready.{Ready, setting_local, assigning_at, returning};

use base_limits::Machine;
use lang_kinds::Kind;
use prog_tables::ExpressionKind;
use vm_definitions::{Outcome, Value};

// `block`: the auto top is saved, the block's words are zeroed.
fn enter_block(t: &[u32], r: Machine, st: &mut [u32]) -> Outcome
    requires { r.next < greatest_word }
    ensures { (result ≡ one_step (going_on r (suc r.next) r.top)) × (st.new ≡ store_from st.old (r.frame + (row_at t.now r.next).a) (r.top ∷ replicate (row_at t.now r.next).b 0)) }
{
    let n = r.next;
    let top = r.top;
    let frame = r.frame;
    let a = prog_tables::a_at(t, n);
    let lets = prog_tables::parameters_at(t, n);
    let at = frame as usize + a as usize;
    vm_memory::put(st, at, top);
    vm_memory::put_zeros(st, at + 1, lets);
    vm_calls::go_on(r, n + 1, top)
}

// `end block`: the auto top is restored.
fn leave_block(t: &[u32], r: Machine, st: &[u32]) -> Outcome
    requires { r.next < greatest_word }
    ensures { result ≡ one_step (going_on r (suc r.next) (get_or st.now (r.frame + (row_at t.now r.next).a) 0)) }
{
    let n = r.next;
    let frame = r.frame;
    let a = prog_tables::a_at(t, n);
    let top = prog_tables::word_at(st, frame as usize + a as usize);
    vm_calls::go_on(r, n + 1, top)
}

// Where a test of kind k goes with two words.
fn branch(t: &[u32], r: Machine, k: u32, x: u32, y: u32) -> Outcome
    requires { r.next < greatest_word }
    ensures { result ≡ one_step (going_on r (if_true (test_holds Bits32 k x y) (suc r.next) (row_at t.now r.next).a) r.top) }
{
    let n = r.next;
    let top = r.top;
    if vm_operands::test(k, x, y) {
        return vm_calls::go_on(r, n + 1, top);
    }
    vm_calls::go_on(r, prog_tables::a_at(t, n), top)
}

// A test: its operands left to right.
fn run_test(t: &[u32], c: u32, r: Machine, k: u32, st: &[u32], m: &[u8]) -> Outcome
    requires { (r.next < greatest_word) × (k ≡ (row_at t.now r.next).kind) × (is_test k ≡ true) }
    ensures { left result st.now m.now ≡ after test_of t.now c r st.now m.now }
{
    let n = r.next;
    let s = r.frame;
    let Some(x) = vm_operands::read_operand(st, s, m, prog_tables::slot_at(t, n, 0)) else {
        return vm_calls::stop(r, 32);
    };
    let Some(y) = vm_operands::read_operand(st, s, m, prog_tables::slot_at(t, n, 1)) else {
        return vm_calls::stop(r, 32);
    };
    branch(t, r, k, x, y)
}

// `let` and `set` of a local, without a call.
fn assign(t: &[u32], c: u32, r: Machine, st: &mut [u32], m: &[u8]) -> Outcome
    requires { (r.next < greatest_word) × (Expressed (row_at t.now r.next)) × (length m.now ≤ memory_bytes) }
    ensures { left result st.new m.now ≡ after assigning t.now c r st.old m.now }
{
    let n = r.next;
    let frame = r.frame;
    let x = vm_calls::work(t, c, r, st, m);
    match x {
        Ok(v) => {
            let a = prog_tables::a_at(t, n);
            vm_memory::put(st, frame as usize + a as usize, v.word);
            vm_calls::go_on(r, n + 1, v.top)
        }
        Err(k) => vm_calls::stop(r, k),
    }
}

// `let` and `set` of a local.
fn set_local(t: &[u32], c: u32, r: Machine, st: &mut [u32], m: &[u8]) -> Outcome
    requires { (Ready (row_at t.now) c r st.old (length m.now)) × (has_expression (row_at t.now r.next).kind ≡ true) × ((row_at t.now r.next).kind < kind.set_byte) }
    ensures { left result st.new m.now ≡ after setting_local t.now c r st.old m.now }
{
    let n = r.next;
    let e = prog_tables::expression_at(t, n);
    if e == ExpressionKind::CALL {
        return vm_calls::call(t, c, r, st, m);
    }
    assign(t, c, r, st, m)
}

// `set @` without a call, a being its address.
fn assign_word(t: &[u32], c: u32, r: Machine, a: u32, st: &[u32], m: &mut [u8]) -> Outcome
    requires { (r.next < greatest_word) × (Expressed (row_at t.now r.next)) × (length m.old ≤ memory_bytes) × (a + 4 ≤ length m.old) × (a ≡ number_in Bits32 st.now r.frame (row_at t.now r.next).address) }
    ensures { left result st.now m.new ≡ after assigning_at t.now c r st.now m.old }
{
    let n = r.next;
    let x = vm_calls::work(t, c, r, st, m);
    match x {
        Ok(v) => {
            vm_memory::put_word(m, a, v.word);
            vm_calls::go_on(r, n + 1, v.top)
        }
        Err(k) => vm_calls::stop(r, k),
    }
}

// `set @` without a call: its address is judged first.
fn assign_at(t: &[u32], c: u32, r: Machine, st: &[u32], m: &mut [u8]) -> Outcome
    requires { (r.next < greatest_word) × (Expressed (row_at t.now r.next)) × (length m.old ≤ memory_bytes) }
    ensures { left result st.now m.new ≡ after set_at_of t.now c r st.now m.old }
{
    let n = r.next;
    let s = r.frame;
    let a = vm_operands::number_in(st, s, prog_tables::address_at(t, n));
    if vm_operands::has_word(m.len(), a) {
        return assign_word(t, c, r, a, st, m);
    }
    vm_calls::stop(r, 32)
}

// `set @`.
fn set_at(t: &[u32], c: u32, r: Machine, st: &mut [u32], m: &mut [u8]) -> Outcome
    requires { (Ready (row_at t.now) c r st.old (length m.old)) × ((row_at t.now r.next).kind ≡ 7) }
    ensures { left result st.new m.new ≡ after effect_of t.now c r st.old m.old }
{
    let n = r.next;
    let e = prog_tables::expression_at(t, n);
    if e == ExpressionKind::CALL {
        return vm_calls::call_at(t, c, r, st, m);
    }
    assign_at(t, c, r, st, m)
}

// Base, offset and value of `set-byte` and `set-word`.
#[derive(Clone, Copy, Debug, PartialEq, Eq)]
pub struct Store {
    pub base: u32,
    pub offset: u32,
    pub value: u32,
}

// The three operands of row n, left to right, where all could be read.
fn read_three(t: &[u32], n: u32, st: &[u32], s: u32, m: &[u8]) -> Option<Store>
    ensures { three_words result ≡ read_all Bits32 st.now s m.now (take 3 (slots t.now (place_of n))) }
{
    let base = vm_operands::read_operand(st, s, m, prog_tables::slot_at(t, n, 0))?;
    let offset = vm_operands::read_operand(st, s, m, prog_tables::slot_at(t, n, 1))?;
    let value = vm_operands::read_operand(st, s, m, prog_tables::slot_at(t, n, 2))?;
    Some(Store {
        base,
        offset,
        value,
    })
}

// `set-byte`: base, offset and value are read before the address is judged.
fn set_byte(t: &[u32], c: u32, r: Machine, st: &[u32], m: &mut [u8]) -> Outcome
    requires { (r.next < greatest_word) × ((row_at t.now r.next).kind ≡ kind.set_byte) }
    ensures { left result st.now m.new ≡ after setting_byte t.now c r st.now m.old }
{
    let n = r.next;
    let s = r.frame;
    let top = r.top;
    let Some(x) = read_three(t, n, st, s, m) else {
        return vm_calls::stop(r, 32);
    };
    let a = vm_operands::byte_address(x.base, x.offset);
    if vm_operands::has_byte(m.len(), a) {
        vm_memory::put_byte(m, a, x.value);
        return vm_calls::go_on(r, n + 1, top);
    }
    vm_calls::stop(r, 32)
}

// `set-word`: base, offset and value are read before the address is judged.
// Not one with `set-byte`: address, test and store differ, which it would take as arguments: no plainer.
fn set_word(t: &[u32], c: u32, r: Machine, st: &[u32], m: &mut [u8]) -> Outcome
    requires { (r.next < greatest_word) × ((row_at t.now r.next).kind ≡ kind.set_word) }
    ensures { left result st.now m.new ≡ after setting_word t.now c r st.now m.old }
{
    let n = r.next;
    let s = r.frame;
    let top = r.top;
    let Some(x) = read_three(t, n, st, s, m) else {
        return vm_calls::stop(r, 32);
    };
    let a = vm_operands::word_address(x.base, x.offset);
    if vm_operands::has_word(m.len(), a) {
        vm_memory::put_word(m, a, x.value);
        return vm_calls::go_on(r, n + 1, top);
    }
    vm_calls::stop(r, 32)
}

// The value of a `return` with an expression.
fn return_value(t: &[u32], c: u32, r: Machine, st: &mut [u32], m: &mut [u8]) -> Outcome
    requires { (Ready (row_at t.now) c r st.old (length m.old)) × ((row_at t.now r.next).kind ≡ 13) × (Expressed (row_at t.now r.next)) }
    ensures { left result st.new m.new ≡ after returning t.now c r st.old m.old }
{
    let x = vm_calls::work(t, c, r, st, m);
    match x {
        Ok(v) => vm_calls::hand_back(t, c, r, v.word, st, m),
        Err(k) => vm_calls::stop(r, k),
    }
}

// `return` in its three forms.
fn give_back(t: &[u32], c: u32, r: Machine, st: &mut [u32], m: &mut [u8]) -> Outcome
    requires { (Ready (row_at t.now) c r st.old (length m.old)) × ((row_at t.now r.next).kind ≡ 13) }
    ensures { left result st.new m.new ≡ after effect_of t.now c r st.old m.old }
{
    let n = r.next;
    let e = prog_tables::expression_at(t, n);
    if e == ExpressionKind::CALL {
        return vm_calls::call(t, c, r, st, m);
    }
    if e == ExpressionKind::NONE {
        return vm_calls::hand_back(t, c, r, 0, st, m);
    }
    return_value(t, c, r, st, m)
}

// A jump: `goto`, `else`.
fn jump(t: &[u32], r: Machine) -> Outcome
    ensures { result ≡ one_step (going_on r (row_at t.now r.next).a r.top) }
{
    let n = r.next;
    let top = r.top;
    vm_calls::go_on(r, prog_tables::a_at(t, n), top)
}

// `end if`.
fn pass(r: Machine) -> Outcome
    requires { r.next < greatest_word }
    ensures { result ≡ one_step (going_on r (suc r.next) r.top) }
{
    let n = r.next;
    let top = r.top;
    vm_calls::go_on(r, n + 1, top)
}

// The statement that the record stands at, one that is not refused.
pub fn execute(t: &[u32], c: u32, r: Machine, st: &mut [u32], m: &mut [u8]) -> Outcome
    requires { Ready (row_at t.now) c r st.old (length m.old) }
    ensures { left result st.new m.new ≡ after effect_of t.now c r st.old m.old }
{
    let n = r.next;
    let k = prog_tables::kind_at(t, n);
    if prog_tables::is_test(k) {
        return run_test(t, c, r, k, st, m);
    }
    match k {
        Kind::END_FUNCTION => vm_calls::hand_back(t, c, r, 0, st, m),
        Kind::BLOCK => enter_block(t, r, st),
        Kind::END_BLOCK => leave_block(t, r, st),
        Kind::LET => set_local(t, c, r, st, m),
        Kind::SET => set_local(t, c, r, st, m),
        Kind::SET_AT => set_at(t, c, r, st, m),
        Kind::SET_BYTE => set_byte(t, c, r, st, m),
        Kind::SET_WORD => set_word(t, c, r, st, m),
        Kind::CALL => vm_calls::call(t, c, r, st, m),
        Kind::TAIL_CALL => vm_calls::tail_call(t, c, r, st, m),
        Kind::RETURN => give_back(t, c, r, st, m),
        Kind::END_IF => pass(r),
        _ => jump(t, r),
    }
}
