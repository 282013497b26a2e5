// Rules of labels in well-formed tables: what a label names, and its own name.
#![tactic(auto)]

ghost use Rattle.std.specs.Prelude.{◌≡◌, []};
ghost use Rattle.base_prelude.specs.Lists.{same_list};
ghost use Rattle.prog_tables.specs.Tests.{all_below, some_below};
ghost use Rattle.prog_tables.specs.Statement.{row_at};
ghost use Rattle.prog_tables.specs.Label.{label_at};
ghost use Rattle.prog_tables.specs.Program.{lent_program};
ghost use Rattle.prog_tables.specs.WellFormed.{names, name_good, name_new, label_good};
ghost use Rattle.prog_labels.specs.Labels.{tabled, place_named, row_named};

use base_limits::Machine;
use lang_kinds::Kind;
use prog_tables::LabelKind;

// Whether a label of kind x may name row v as a place.
fn is_place(t: &[u32], x: u32, v: u32) -> bool
    ensures { result ≡ place_named (row_at t.now) x v }
{
    if x != LabelKind::PLACE {
        return false;
    }
    if prog_tables::kind_at(t, v) == Kind::FUNCTION {
        return false;
    }
    !prog_rules::follows_jump(t, v)
}

// Whether a label of kind x may name row v.
fn names_row(t: &[u32], x: u32, v: u32) -> bool
    ensures { result ≡ row_named (row_at t.now) x v }
{
    if prog_rules::is_function_label(x) {
        return prog_tables::kind_at(t, v) == Kind::FUNCTION;
    }
    is_place(t, x, v)
}

// Whether label i names what a label of its kind may name.
fn names_good(t: &[u32], c: u32, l: &[u32], k: u32, d: u32, i: u32) -> bool
    ensures { result ≡ names (lent_program t.now c l.now k d) (label_at l.now [] i) }
{
    let x = prog_tables::label_kind_at(l, i);
    let v = prog_tables::label_number_at(l, i);
    if prog_tables::is_data(x) {
        return v <= d;
    }
    if x == LabelKind::IMPORT {
        return prog_tables::label_arguments_at(l, i) <= Machine::PARAMETERS;
    }
    if v < c {
        return names_row(t, x, v);
    }
    false
}

// Whether the name of label i is neither empty, nor too long, nor reserved.
fn is_name_good(l: &[u32], names: &[u8], i: u32) -> bool
    ensures { result ≡ name_good (label_at l.now names.now i) }
{
    let size = prog_names::size_at(l, i);
    if size < 1 {
        return false;
    }
    if Machine::NAME_BYTES < size as usize {
        return false;
    }
    let from = prog_names::name_from(names, i);
    let to = prog_names::name_to(l, names, i);
    lang_words::lookup(&names[from..to]) == 0
}

// Whether label i has that name.
fn is_named(l: &[u32], names: &[u8], name: &[u8], i: u32) -> bool
    ensures { result ≡ same_list (label_at l.now names.now i).name name.now }
{
    let from = prog_names::name_from(names, i);
    let to = prog_names::name_to(l, names, i);
    base_prelude::same(&names[from..to], name)
}

// Whether a label before n has that name.
fn is_taken(l: &[u32], names: &[u8], name: &[u8], n: u32) -> bool
    ensures { result ≡ some_below (λ i. same_list (label_at l.now names.now i).name name.now) n }
{
    (0..n).any(|i| is_named(l, names, name, i))
}

// Whether no label before n has its name.
fn is_name_new(l: &[u32], names: &[u8], n: u32) -> bool
    ensures { result ≡ name_new (label_at l.now names.now) n }
{
    let from = prog_names::name_from(names, n);
    let to = prog_names::name_to(l, names, n);
    !is_taken(l, names, &names[from..to], n)
}

// Whether label n keeps the rules of labels.
fn is_label_good(t: &[u32], c: u32, l: &[u32], k: u32, names: &[u8], d: u32, n: u32) -> bool
    ensures { result ≡ label_good (tabled t.now c l.now k names.now d) n }
{
    if !names_good(t, c, l, k, d, n) {
        return false;
    }
    is_name_good(l, names, n) && is_name_new(l, names, n)
}

// Whether each of k labels keeps the rules of labels.
pub fn labels_good(t: &[u32], c: u32, l: &[u32], k: u32, names: &[u8], d: u32) -> bool
    ensures { result ≡ all_below (label_good (tabled t.now c l.now k names.now d)) k }
{
    (0..k).all(|i| is_label_good(t, c, l, k, names, d, i))
}
