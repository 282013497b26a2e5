// One step, and a run of steps.
#![tactic(auto)]

ghost use Rattle.std.specs.Prelude.{◌≡◌, ◌+◌, ◌*◌, ◌≤◌, ◌<◌, length};
ghost use Rattle.base_limits.specs.Limits.{memory_bytes, stack_words};
ghost use Rattle.base_limits.specs.Record.{moved_to};
ghost use Rattle.base_limits.specs.declared.Width.TheVariants.{Bits32};
ghost use Rattle.base_limits.specs.declared.State.TheVariants.{Running};
ghost use Rattle.prog_tables.specs.Statement.{row_at};
ghost use Rattle.prog_tables.specs.Program.{program_from, lent_program};
ghost use Rattle.vm_guard.specs.Passed.{Passed};
ghost use Rattle.vm_definitions.specs.Step.{statement_of, step_of, run_of};
ghost use Rattle.vm_definitions.specs.Lent.{tables_of, world, left};
ghost use Rattle.prog_tables.specs.Layout.{statement_row};
ghost use Rattle.vm_calls.specs.Outcomes.{given_back};
ghost use Rattle.vm_run.specs.Within.{is_running, counts_broken, taken_step, within_step, within_run};
ghost use Rattle.vm_run.specs.Steps.{usable_size, plain_run_end, steps_in_frame, some_steps};

use base_limits::{Machine, State};
use vm_definitions::{Broken, Outcome};

// The statement that a record stands at, one that is not refused: a call to an imported function pauses.
fn obey(
    t: &[u32],
    c: u32,
    l: &[u32],
    lc: u32,
    d: u32,
    r: Machine,
    st: &mut [u32],
    m: &mut [u8],
) -> Outcome
    requires { Passed (lent_program t.now c l.now lc d) r st.old (length m.old) }
    ensures { left result st.new m.new ≡ statement_of (lent_program t.now c l.now lc d) (world r st.old m.old) }
{
    if vm_guard::is_importing(t, r.next) {
        return vm_pauses::pause(t, c, l, lc, d, r, st, m);
    }
    vm_statements::execute(t, c, r, st, m)
}

// The statement that a running record stands at, or 35; the counts of the tables are good.
fn take_step(
    t: &[u32],
    c: u32,
    l: &[u32],
    lc: u32,
    d: u32,
    r: Machine,
    st: &mut [u32],
    m: &mut [u8],
) -> Outcome
    ensures { left result st.new m.new ≡ taken_step t.now c l.now lc d (world r st.old m.old) }
{
    let b = vm_guard::find_broken(t, c, l, lc, d, r, st, m.len());
    match b {
        Broken::No => obey(t, c, l, lc, d, r, st, m),
        Broken::At(i) => vm_calls::give_back(r, Broken::At(i)),
        Broken::Somewhere => vm_calls::give_back(r, Broken::Somewhere),
    }
}

// Whether a record is running.
fn is_running(r: Machine) -> bool
    ensures { result ≡ is_running r.state }
{
    let state = r.state;
    match state {
        State::Running => true,
        State::Finished(_) => false,
        State::Stopped { number, statement } => false,
        State::Paused(_) => false,
    }
}

// A running record; its state is written, not copied, so that a run carries no state from turn to turn.
fn as_running(r: Machine) -> Machine
    requires { r.state ≡ Running }
    ensures { result ≡ r }
{
    Machine::of_parts(State::Running, r.next, r.frame, r.used, r.top)
}

// A step over tables whose counts are good.
fn step_within(
    t: &[u32],
    c: u32,
    l: &[u32],
    lc: u32,
    d: u32,
    r: Machine,
    st: &mut [u32],
    m: &mut [u8],
) -> Outcome
    ensures { left result st.new m.new ≡ within_step t.now c l.now lc d (world r st.old m.old) }
{
    if is_running(r) {
        return take_step(t, c, l, lc, d, as_running(r), st, m);
    }
    vm_calls::give_back(r, Broken::No)
}

// The words of the frame in use, where the record is running and stands in a good one; else 0.
fn usable_size(t: &[u32], c: u32, m: usize, q: Machine, st: &[u32]) -> u32
    requires { c * statement_row ≤ length t.now }
    ensures { result ≡ usable_size (row_at t.now) c m q st.now }
{
    if is_running(q) {
        return vm_guard::good_frame_size(t, c, m, q, st);
    }
    0
}

// A running record in another frame; its state is written, not copied.
fn keep_running(r: Machine, n: u32, frame: u32, used: u32, top: u32) -> Machine
    requires { r.state ≡ Running }
    ensures { result ≡ moved_to r n frame used top }
{
    Machine::of_parts(State::Running, n, frame, used, top)
}

// The statement that a plain run of so many steps ends at: a call or a return, or else the exact step where there was none before it.
fn end_plain(
    t: &[u32],
    c: u32,
    l: &[u32],
    lc: u32,
    g: u32,
    d: u32,
    size: u32,
    r: Machine,
    count: u64,
    st: &mut [u32],
    m: &mut [u8],
) -> Outcome
    requires { (r.state ≡ Running) × (c * statement_row ≤ length t.now) × (r.frame + size ≤ length st.old) × (length st.old ≤ stack_words) × (length m.old ≤ memory_bytes) × (count < 18446744073709551615) }
    ensures { left result st.new m.new ≡ plain_run_end t.now c l.now lc d g size count (world r st.old m.old) }
{
    let y = vm_quick_calls::take_transfer(
        t, c, l, lc, g, d, size, st, r.frame, r.used, m, r.next, r.top,
    );
    match y {
        Some(x) => Outcome {
            machine: keep_running(r, x.next, x.frame, x.used, x.top),
            count: count + 1,
            broken: Broken::No,
        },
        None => {
            if 0 < count {
                return Outcome {
                    machine: r,
                    count,
                    broken: Broken::No,
                };
            }
            take_step(t, c, l, lc, d, as_running(r), st, m)
        }
    }
}

// Steps of a running record that stands in a good frame of this size: a plain run, and what it ends at.
fn advance_in_frame(
    t: &[u32],
    c: u32,
    l: &[u32],
    lc: u32,
    d: u32,
    size: u32,
    budget: u64,
    r: Machine,
    st: &mut [u32],
    m: &mut [u8],
) -> Outcome
    requires { (r.state ≡ Running) × (c * statement_row ≤ length t.now) × (r.frame + size ≤ length st.old) × (length st.old ≤ stack_words) × (length m.old ≤ memory_bytes) }
    ensures { left result st.new m.new ≡ steps_in_frame t.now c l.now lc d size budget (world r st.old m.old) }
{
    let g = prog_tables::func_at(t, r.next);
    let x = vm_quick_statements::run_plain(t, c, g, d, size, budget, st, r.frame, m, r.next, r.top);
    let count = x.count;
    let q = keep_running(r, x.next, r.frame, r.used, x.top);
    if count < budget {
        return end_plain(t, c, l, lc, g, d, size, q, count, st, m);
    }
    Outcome {
        machine: q,
        count: count,
        broken: Broken::No,
    }
}

// Some steps within a budget, one at least where that is possible.
fn advance(
    t: &[u32],
    c: u32,
    l: &[u32],
    lc: u32,
    d: u32,
    budget: u64,
    r: Machine,
    st: &mut [u32],
    m: &mut [u8],
) -> Outcome
    requires { c * statement_row ≤ length t.now }
    ensures { left result st.new m.new ≡ some_steps t.now c l.now lc d budget (world r st.old m.old) }
{
    let size = usable_size(t, c, m.len(), r, st);
    if size == 0 {
        return step_within(t, c, l, lc, d, r, st, m);
    }
    advance_in_frame(t, c, l, lc, d, size, budget, r, st, m)
}

// Steps within a budget, over tables whose counts are good.
fn run_within(
    t: &[u32],
    c: u32,
    l: &[u32],
    lc: u32,
    d: u32,
    budget: u64,
    r: Machine,
    st: &mut [u32],
    m: &mut [u8],
) -> Outcome
    requires { c * statement_row ≤ length t.now }
    ensures { left result st.new m.new ≡ within_run t.now c l.now lc d budget (world r st.old m.old) }
{
    let mut q = r;
    let mut count: u64 = 0;
    // By a count: a turn takes as many steps as `advance` says, so this is no range.
    while count < budget {
        let o = advance(t, c, l, lc, d, budget - count, q, st, m);
        let counted = o.count;
        let broken = o.broken;
        let next = o.machine;
        if counted == 0 {
            return Outcome {
                machine: next,
                count: count,
                broken: broken,
            };
        }
        count += counted;
        if is_running(next) {
            q = as_running(next);
        } else {
            return Outcome {
                machine: next,
                count: count,
                broken: Broken::No,
            };
        }
    }
    Outcome {
        machine: q,
        count: count,
        broken: Broken::No,
    }
}

// 35 of a step where a count is past its table: the lowest broken statement that it reads, else no place.
fn judge_counts(
    t: &[u32],
    c: u32,
    l: &[u32],
    lc: u32,
    d: u32,
    r: Machine,
    st: &[u32],
    m: usize,
) -> Broken
    ensures { result ≡ counts_broken t.now c l.now lc d r st.now m }
{
    if vm_counts::statements_past(t, c) {
        return Broken::Somewhere;
    }
    let b = vm_guard::find_broken(t, c, l, lc, d, r, st, m);
    match b {
        Broken::No => Broken::Somewhere,
        Broken::At(i) => Broken::At(i),
        Broken::Somewhere => Broken::Somewhere,
    }
}

// Nothing happened: a count is past its table.
fn refuse_counts(
    t: &[u32],
    c: u32,
    l: &[u32],
    lc: u32,
    d: u32,
    r: Machine,
    st: &[u32],
    m: usize,
) -> Outcome
    ensures { result ≡ given_back r (counts_broken t.now c l.now lc d r st.now m) }
{
    let b = judge_counts(t, c, l, lc, d, r, st, m);
    vm_calls::give_back(r, b)
}

// Steps until the budget is used up, the record has finished, stopped or paused, or a 35 comes.
pub fn run(
    statements: &[u32],
    count: u32,
    labels: &[u32],
    label_count: u32,
    names: &[u8],
    data_length: u32,
    budget: u64,
    machine: Machine,
    stack: &mut [u32],
    memory: &mut [u8],
) -> Outcome
    ensures { left result stack.new memory.new ≡ run_of (program_from Bits32 (tables_of statements.now count labels.now label_count names.now data_length)) budget (world machine stack.old memory.old) }
{
    if budget == 0 {
        return vm_calls::give_back(machine, Broken::No);
    }
    if is_running(machine) {
        if vm_counts::count_fault(statements, count, labels, label_count, names) {
            return refuse_counts(
                statements,
                count,
                labels,
                label_count,
                data_length,
                machine,
                stack,
                memory.len(),
            );
        }
        return run_within(
            statements,
            count,
            labels,
            label_count,
            data_length,
            budget,
            as_running(machine),
            stack,
            memory,
        );
    }
    vm_calls::give_back(machine, Broken::No)
}

// One step of the record over the lent tables, stack and memory: a run of one.
pub fn step(
    statements: &[u32],
    count: u32,
    labels: &[u32],
    label_count: u32,
    names: &[u8],
    data_length: u32,
    machine: Machine,
    stack: &mut [u32],
    memory: &mut [u8],
) -> Outcome
    ensures { left result stack.new memory.new ≡ step_of (program_from Bits32 (tables_of statements.now count labels.now label_count names.now data_length)) (world machine stack.old memory.old) }
{
    run(
        statements,
        count,
        labels,
        label_count,
        names,
        data_length,
        1,
        machine,
        stack,
        memory,
    )
}
