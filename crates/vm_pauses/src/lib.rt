// Calls to imported functions: the pause, and going on with the word that the host hands in.
#![tactic(auto)]

ghost use Rattle.std.specs.Prelude.{◌≡◌, true, ◌≤◌, ◌<◌, length, get_or, take};
ghost use Rattle.base_limits.specs.Limits.{greatest_word};
ghost use Rattle.base_limits.specs.Record.{pause_of};
ghost use Rattle.prog_tables.specs.Layout.{operand_slots};
ghost use Rattle.prog_tables.specs.Statement.{row_at};
ghost use Rattle.prog_tables.specs.Program.{lent_program};
ghost use Rattle.vm_definitions.specs.Frames.{importing};
ghost use Rattle.vm_definitions.specs.Step.{arguments_of, paused_by, pausing};
ghost use Rattle.vm_definitions.specs.Lent.{world, left};
ghost use Rattle.vm_calls.specs.Outcomes.{after};
ghost use Rattle.vm_pauses.specs.Pauses.{held, handing_in, Awaits};

use base_limits::{Machine, Pause, State};
use lang_kinds::Kind;
use prog_tables::Table;
use vm_definitions::{Broken, Outcome};

// Word i of k words, 0 beyond them.
fn word_of(words: [u32; Table::OPERAND_SLOTS], k: u32, i: u32) -> u32
    requires { (k ≤ operand_slots) × (i < operand_slots) }
    ensures { result ≡ get_or (take k words) i 0 }
{
    if i < k {
        return words[i as usize];
    }
    0
}

// A pause at an imported name with k arguments.
fn pause_of(number: u32, k: u32, words: [u32; Table::OPERAND_SLOTS]) -> Pause
    requires { k ≤ operand_slots }
    ensures { result ≡ pause_of number (take k words) }
{
    Pause {
        number: number,
        count: k,
        first: word_of(words, k, 0),
        second: word_of(words, k, 1),
        third: word_of(words, k, 2),
        fourth: word_of(words, k, 3),
        fifth: word_of(words, k, 4),
        sixth: word_of(words, k, 5),
        seventh: word_of(words, k, 6),
        eighth: word_of(words, k, 7),
    }
}

// The record paused; nothing is counted.
fn hold(r: Machine, q: Pause) -> Outcome
    ensures { result ≡ held r q }
{
    Outcome {
        machine: Machine::with_state(State::Paused(q), r),
        count: 0,
        broken: Broken::No,
    }
}

// A call to an imported function, its address judged: arguments, then the pause.
fn ask(t: &[u32], c: u32, l: &[u32], lc: u32, d: u32, r: Machine, st: &[u32], m: &[u8]) -> Outcome
    requires { importing (row_at t.now r.next) ≡ true }
    ensures { left result st.now m.now ≡ paused_by (lent_program t.now c l.now lc d) (world r st.now m.now) (arguments_of (lent_program t.now c l.now lc d) (world r st.now m.now)) }
{
    let n = r.next;
    let s = r.frame;
    let k = vm_calls::arguments_at(t, n);
    if let Some(words) = vm_calls::read_arguments(t, n, k, st, s, m) {
        let g = prog_tables::callee_at(t, n);
        let number = prog_tables::label_number_at(l, g);
        return hold(r, pause_of(number, k, words));
    }
    vm_calls::stop(r, 32)
}

// A call or tail call to an imported function: `set @` judges its address first.
pub fn pause(
    t: &[u32],
    c: u32,
    l: &[u32],
    lc: u32,
    d: u32,
    r: Machine,
    st: &[u32],
    m: &[u8],
) -> Outcome
    requires { importing (row_at t.now r.next) ≡ true }
    ensures { left result st.now m.now ≡ pausing (lent_program t.now c l.now lc d) (world r st.now m.now) }
{
    let n = r.next;
    let k = prog_tables::kind_at(t, n);
    if k == Kind::SET_AT {
        let s = r.frame;
        let a = vm_operands::number_in(st, s, prog_tables::address_at(t, n));
        if vm_operands::has_word(m.len(), a) {
            return ask(t, c, l, lc, d, r, st, m);
        }
        return vm_calls::stop(r, 32);
    }
    ask(t, c, l, lc, d, r, st, m)
}

// The word that the host hands in, for the call that a running record stands at; its arguments are not read again.
pub fn hand_in(t: &[u32], c: u32, r: Machine, v: u32, st: &mut [u32], m: &mut [u8]) -> Outcome
    requires { (r.next < greatest_word) × (Awaits (row_at t.now) c r st.old (length m.old)) }
    ensures { left result st.new m.new ≡ after (handing_in v) t.now c r st.old m.old }
{
    let n = r.next;
    if vm_guard::returns_import(t, n) {
        return vm_calls::hand_back(t, c, r, v, st, m);
    }
    let frame = r.frame;
    let top = r.top;
    let q = Machine::going_on(r, n + 1, top);
    vm_calls::hand_to(t, c, r, v, n, frame, q, st, m)
}
