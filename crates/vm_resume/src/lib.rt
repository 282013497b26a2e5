// Going on from a pause, with the word that the host hands in.
#![tactic(auto)]

ghost use Rattle.std.specs.Prelude.{◌≡◌, length};
ghost use Rattle.base_limits.specs.declared.Width.TheVariants.{Bits32};
ghost use Rattle.prog_tables.specs.Program.{program_from};
ghost use Rattle.vm_definitions.specs.Step.{resume_of};
ghost use Rattle.vm_definitions.specs.Claim.{is_paused};
ghost use Rattle.vm_definitions.specs.Lent.{tables_of, world, left, resumed};
ghost use Rattle.vm_calls.specs.Outcomes.{given_back};
ghost use Rattle.vm_resume.specs.Within.{counts_broken, taken_up, resumed_with};

use base_limits::{Machine, State};
use vm_definitions::{Broken, Outcome, Resumed};

// Whether a record is paused.
fn is_paused(r: Machine) -> bool
    ensures { result ≡ is_paused r.state }
{
    let state = r.state;
    match state {
        State::Running => false,
        State::Finished(_) => false,
        State::Stopped { number, statement } => false,
        State::Paused(_) => true,
    }
}

// The call that a paused record stands at gets its word, or 35; the counts of the tables are good.
fn take_up(
    t: &[u32],
    c: u32,
    l: &[u32],
    lc: u32,
    d: u32,
    v: u32,
    r: Machine,
    st: &mut [u32],
    m: &mut [u8],
) -> Outcome
    ensures { left result st.new m.new ≡ taken_up t.now c l.now lc d v (world r st.old m.old) }
{
    let b = vm_guard::find_unresumable(t, c, l, lc, d, r, st, m.len());
    match b {
        Broken::No => {
            let q = Machine::with_state(State::Running, r);
            vm_pauses::hand_in(t, c, q, v, st, m)
        }
        Broken::At(i) => vm_calls::give_back(r, Broken::At(i)),
        Broken::Somewhere => vm_calls::give_back(r, Broken::Somewhere),
    }
}

// 35 of going on where a count is past its table: the lowest broken statement that it reads, else no place.
fn judge_counts(
    t: &[u32],
    c: u32,
    l: &[u32],
    lc: u32,
    d: u32,
    r: Machine,
    st: &[u32],
    m: usize,
) -> Broken
    ensures { result ≡ counts_broken t.now c l.now lc d r st.now m }
{
    if vm_counts::statements_past(t, c) {
        return Broken::Somewhere;
    }
    let b = vm_guard::find_unresumable(t, c, l, lc, d, r, st, m);
    match b {
        Broken::No => Broken::Somewhere,
        Broken::At(i) => Broken::At(i),
        Broken::Somewhere => Broken::Somewhere,
    }
}

// Going on of a paused record.
fn go_on(
    t: &[u32],
    c: u32,
    l: &[u32],
    lc: u32,
    names: &[u8],
    d: u32,
    v: u32,
    r: Machine,
    st: &mut [u32],
    m: &mut [u8],
) -> Outcome
    ensures { left result st.new m.new ≡ resumed_with (program_from Bits32 (tables_of t.now c l.now lc names.now d)) v (world r st.old m.old) }
{
    if vm_counts::count_fault(t, c, l, lc, names) {
        let b = judge_counts(t, c, l, lc, d, r, st, m.len());
        return vm_calls::give_back(r, b);
    }
    take_up(t, c, l, lc, d, v, r, st, m)
}

// Going on with the record over the lent tables, stack and memory: 37 where it is not paused.
pub fn resume(
    statements: &[u32],
    count: u32,
    labels: &[u32],
    label_count: u32,
    names: &[u8],
    data_length: u32,
    word: u32,
    machine: Machine,
    stack: &mut [u32],
    memory: &mut [u8],
) -> Resumed
    ensures { resumed result stack.new memory.new ≡ resume_of (program_from Bits32 (tables_of statements.now count labels.now label_count names.now data_length)) word (world machine stack.old memory.old) }
{
    if is_paused(machine) {
        let o = go_on(
            statements,
            count,
            labels,
            label_count,
            names,
            data_length,
            word,
            machine,
            stack,
            memory,
        );
        return Resumed {
            outcome: o,
            unpaused: false,
        };
    }
    Resumed {
        outcome: vm_calls::give_back(machine, Broken::No),
        unpaused: true,
    }
}
