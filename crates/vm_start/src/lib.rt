// Start: refusals 35 and 20 to 23, and the first frame.
#![tactic(auto)]

ghost use Rattle.std.specs.Prelude.{◌≡◌, ◌+◌, ◌*◌, ◌≤◌, ◌<◌, min, length, take, drop};
ghost use Rattle.base_limits.specs.Limits.{word_values, greatest_word};
ghost use Rattle.base_prelude.specs.Lists.{same_list};
ghost use Rattle.base_limits.specs.declared.Width.TheVariants.{Bits32};
ghost use Rattle.prog_tables.specs.Tests.{some_below};
ghost use Rattle.prog_tables.specs.Statement.{row_at};
ghost use Rattle.prog_tables.specs.Label.{label_at, is_data, is_function_label};
ghost use Rattle.prog_tables.specs.Program.{program_from, lent_program};
ghost use Rattle.prog_tables.specs.Faults.{label_fault, row_fault};
ghost use Rattle.vm_definitions.specs.Broken.{start_broken, numbers_below, lowest};
ghost use Rattle.vm_definitions.specs.Start.{exports_as, export_of};
ghost use Rattle.vm_definitions.specs.Lent.{tables_of, world};
ghost use Rattle.vm_definitions.specs.declared.Broken.TheVariants.{No};
ghost use Rattle.vm_start.specs.Opening.{opened, opening_of, labels_alone, no_function, aim_fault, rest_fault, rows_broken, begun_at, fitted_of, entered_of};

use base_limits::Machine;
use lang_kinds::Kind;
use prog_tables::{LabelKind, LabelRow, Table};
use vm_definitions::{Broken, Opening, StartError};

// The lowest broken row.
fn broken_row(t: &[u32], c: u32, l: &[u32], k: u32, d: u32) -> Broken
    ensures { result ≡ lowest (row_fault (lent_program t.now c l.now k d)) (numbers_below c) }
{
    for i in 0..c {
        if prog_faults::row_fault(t, c, l, k, d, i) {
            return Broken::At(i);
        }
    }
    Broken::No
}

// Whether a label kind is that of data.
fn is_data(k: u32) -> bool
    ensures { result ≡ is_data k }
{
    k == LabelKind::DATA || k == LabelKind::EXPORTED_DATA
}

// Whether a label kind is that of a function.
fn is_function_label(k: u32) -> bool
    ensures { result ≡ is_function_label k }
{
    k == LabelKind::FUNCTION || k == LabelKind::EXPORTED_FUNCTION
}

// Whether a row is no `function` row of c rows.
fn is_no_function(t: &[u32], c: u32, n: u32) -> bool
    ensures { result ≡ no_function (row_at t.now) c n }
{
    c <= n || prog_tables::kind_at(t, n) != Kind::FUNCTION
}

// Whether a label of kind k with number n is broken, its name aside.
fn aim_fault(t: &[u32], c: u32, d: u32, k: u32, n: u32) -> bool
    ensures { result ≡ aim_fault (row_at t.now) c d k n }
{
    if is_data(k) {
        return d < n;
    }
    if is_function_label(k) {
        return is_no_function(t, c, n);
    }
    if k == LabelKind::PLACE {
        return c <= n;
    }
    k != LabelKind::IMPORT
}

// Whether a label row is broken.
fn label_fault(t: &[u32], c: u32, l: &[u32], k: u32, names: &[u8], d: u32, i: u32) -> bool
    ensures { result ≡ label_fault (program_from Bits32 (tables_of t.now c l.now k names.now d)) (label_at l.now names.now i) }
{
    let at = i as usize * Table::LABEL_ROW;
    let size = prog_tables::word_at(l, at + LabelRow::SIZE);
    if 64 < size {
        return true;
    }
    aim_fault(
        t,
        c,
        d,
        prog_tables::word_at(l, at),
        prog_tables::word_at(l, at + LabelRow::NUMBER),
    )
}

// Whether some label row is broken.
fn labels_fault(t: &[u32], c: u32, l: &[u32], k: u32, names: &[u8], d: u32) -> bool
    ensures { result ≡ some_below (λ i. label_fault (program_from Bits32 (tables_of t.now c l.now k names.now d)) (label_at l.now names.now i)) k }
{
    for i in 0..k {
        if label_fault(t, c, l, k, names, d, i) {
            return true;
        }
    }
    false
}

// Whether something beside the rows is broken, n bytes of data being lent.
fn rest_fault(t: &[u32], c: u32, l: &[u32], k: u32, names: &[u8], d: u32, n: usize) -> bool
    ensures { result ≡ rest_fault (program_from Bits32 (tables_of t.now c l.now k names.now d)) n }
{
    if vm_counts::labels_past(l, k, names) {
        return true;
    }
    if n < d as usize {
        return true;
    }
    labels_fault(t, c, l, k, names, d)
}

// Refusal 35 of the rows, then of the rest.
fn judge_rows(t: &[u32], c: u32, l: &[u32], k: u32, names: &[u8], d: u32, n: usize) -> Broken
    ensures { result ≡ rows_broken (program_from Bits32 (tables_of t.now c l.now k names.now d)) n }
{
    let b = broken_row(t, c, l, k, d);
    match b {
        Broken::No => {
            if rest_fault(t, c, l, k, names, d, n) {
                return Broken::Somewhere;
            }
            Broken::No
        }
        Broken::At(i) => Broken::At(i),
        Broken::Somewhere => Broken::Somewhere,
    }
}

// Refusal 35 of a start, n bytes of data being lent. Only a count of statements past its table hides a broken one.
pub fn judge(t: &[u32], c: u32, l: &[u32], k: u32, names: &[u8], d: u32, n: usize) -> Broken
    ensures { result ≡ start_broken (program_from Bits32 (tables_of t.now c l.now k names.now d)) n }
{
    if vm_counts::statements_past(t, c) {
        return Broken::Somewhere;
    }
    judge_rows(t, c, l, k, names, d, n)
}

// Whether n bytes from a place on are a name; those past the end are none.
fn is_named(names: &[u8], at: usize, n: usize, name: &[u8]) -> bool
    requires { at + n < 1099511627776 }
    ensures { result ≡ same_list (take n (drop at names.now)) name.now }
{
    let from = at.min(names.len());
    let to = (at + n).min(names.len());
    base_prelude::same(&names[from..to], name)
}

// Whether a label is an exported function of that name.
fn is_exported(l: &[u32], names: &[u8], name: &[u8], i: u32) -> bool
    ensures { result ≡ exports_as (labels_alone l.now 0 names.now) name.now i }
{
    let at = i as usize * Table::LABEL_ROW;
    let k = prog_tables::word_at(l, at);
    if k == LabelKind::EXPORTED_FUNCTION {
        let size = prog_tables::word_at(l, at + LabelRow::SIZE);
        return is_named(names, i as usize * 64, size as usize, name);
    }
    false
}

// The first exported function of that name, the count of labels without one.
fn find_export(l: &[u32], k: u32, names: &[u8], name: &[u8]) -> u32
    ensures { result ≡ export_of (labels_alone l.now k names.now) name.now }
{
    for i in 0..k {
        if is_exported(l, names, name, i) {
            return i;
        }
    }
    k
}

// Builds the first frame of the function at row g, writes the data and gives the record.
fn open(
    g: u32,
    size: u32,
    d: u32,
    bytes: &[u8],
    args: &[u32],
    st: &mut [u32],
    m: &mut [u8],
) -> Machine
    requires g_lt_greatest_word { g < greatest_word }
    requires args_len_bound { length args.now < word_values }
    requires d_in_bounds { d ≤ length m.old }
    requires d_in_bounds_2 { d ≤ length bytes.now }
    ensures { world result st.new m.new ≡ begun_at Bits32 g size d bytes.now args.now st.old m.old }
{
    vm_memory::build_frame(st, 0, Machine::MARK, Machine::MARK, d, args, size);
    vm_memory::put_bytes(m, bytes, d);
    Machine::fresh(g + 1, size, d)
}

// Refusals 22 and 23, then the first frame.
fn fit(
    g: u32,
    size: u32,
    d: u32,
    bytes: &[u8],
    args: &[u32],
    machine: Machine,
    st: &mut [u32],
    m: &mut [u8],
) -> Opening
    requires g_lt_greatest_word { g < greatest_word }
    requires args_len_bound { length args.now < word_values }
    requires d_in_bounds { d ≤ length bytes.now }
    ensures { opened result st.new m.new ≡ fitted_of Bits32 g size d bytes.now args.now (world machine st.old m.old) }
{
    if m.len() < d as usize {
        return Opening {
            machine,
            answer: Err(StartError::Refused(22)),
        };
    }
    if Machine::MEMORY_BYTES < m.len() {
        return Opening {
            machine,
            answer: Err(StartError::Refused(22)),
        };
    }
    if st.len() < size as usize {
        return Opening {
            machine,
            answer: Err(StartError::Refused(23)),
        };
    }
    if Machine::STACK_WORDS < st.len() {
        return Opening {
            machine,
            answer: Err(StartError::Refused(23)),
        };
    }
    let fresh = open(g, size, d, bytes, args, st, m);
    Opening {
        machine: fresh,
        answer: Ok(()),
    }
}

// Refusal 21, then the others.
fn enter(
    t: &[u32],
    g: u32,
    d: u32,
    bytes: &[u8],
    args: &[u32],
    machine: Machine,
    st: &mut [u32],
    m: &mut [u8],
) -> Opening
    requires g_lt_greatest_word { g < greatest_word }
    requires d_in_bounds { d ≤ length bytes.now }
    ensures { opened result st.new m.new ≡ entered_of Bits32 (row_at t.now) g d bytes.now args.now (world machine st.old m.old) }
{
    let n = args.len();
    let p = prog_tables::parameters_at(t, g);
    if n != p as usize {
        return Opening {
            machine,
            answer: Err(StartError::Refused(21)),
        };
    }
    let size = prog_tables::a_at(t, g);
    fit(g, size, d, bytes, args, machine, st, m)
}

// Refusal 20, then the others: the tables are sound.
fn begin(
    t: &[u32],
    c: u32,
    l: &[u32],
    k: u32,
    names: &[u8],
    d: u32,
    bytes: &[u8],
    name: &[u8],
    args: &[u32],
    machine: Machine,
    st: &mut [u32],
    m: &mut [u8],
) -> Opening
    requires { start_broken (program_from Bits32 (tables_of t.now c l.now k names.now d)) (length bytes.now) ≡ No }
    ensures { opened result st.new m.new ≡ opening_of (program_from Bits32 (tables_of t.now c l.now k names.now d)) bytes.now name.now args.now (world machine st.old m.old) }
{
    let e = find_export(l, k, names, name);
    if e < k {
        let g = prog_tables::word_at(l, e as usize * Table::LABEL_ROW + LabelRow::NUMBER);
        return enter(t, g, d, bytes, args, machine, st, m);
    }
    Opening {
        machine,
        answer: Err(StartError::Refused(20)),
    }
}

// Starts the exported function of that name.
pub fn start(
    statements: &[u32],
    count: u32,
    labels: &[u32],
    label_count: u32,
    names: &[u8],
    data_length: u32,
    bytes: &[u8],
    name: &[u8],
    arguments: &[u32],
    machine: Machine,
    stack: &mut [u32],
    memory: &mut [u8],
) -> Opening
    ensures { opened result stack.new memory.new ≡ opening_of (program_from Bits32 (tables_of statements.now count labels.now label_count names.now data_length)) bytes.now name.now arguments.now (world machine stack.old memory.old) }
{
    let b = judge(
        statements,
        count,
        labels,
        label_count,
        names,
        data_length,
        bytes.len(),
    );
    match b {
        Broken::No => begin(
            statements,
            count,
            labels,
            label_count,
            names,
            data_length,
            bytes,
            name,
            arguments,
            machine,
            stack,
            memory,
        ),
        Broken::At(i) => Opening {
            machine,
            answer: Err(StartError::Unsound(Broken::At(i))),
        },
        Broken::Somewhere => Opening {
            machine,
            answer: Err(StartError::Unsound(Broken::Somewhere)),
        },
    }
}
