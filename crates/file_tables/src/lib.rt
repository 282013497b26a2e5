// The rows of a file of right form, unpacked into tables.
#![tactic(auto)]

ghost use Rattle.std.specs.Prelude.{◌≡◌, ◌+◌, ◌-◌, ◌*◌, ◌≤◌, ◌<◌, length, get_or};
ghost use Rattle.base_limits.specs.Limits.{name_bytes};
ghost use Rattle.prog_tables.specs.Layout.{statement_row, label_row};
ghost use Rattle.vm_definitions.specs.Access.{store_from};
ghost use Rattle.file_codec.specs.Words.{listed};
ghost use Rattle.file_codec.specs.Fields.{head_bytes, row_tag, label_tag, size_at, body_at};
ghost use Rattle.file_codec.specs.Rows.{uses, unpacked_at, unpacked, row_fits};
ghost use Rattle.file_codec.specs.Labels.{label_head, label_words_in, arguments_in, name_slot, label_fits};
ghost use Rattle.file_codec.specs.Form.{behind_fields};
ghost use Rattle.file_codec.specs.Tables.{each_field};

use base_limits::Machine;
use file_form::Tag;
use prog_tables::{LabelKind, Table};

// The words of a row of kind k with expression kind e and count n, to a place of the table.
fn unpack_words(x: &[u8], k: u32, e: u32, n: u32, t: &mut [u32], at: usize)
    requires { at + statement_row ≤ length t.old }
    ensures { t.new ≡ store_from t.old at (listed (unpacked_at (uses k e n) x.now) statement_row 0) }
{
    let mut p: usize = 0;
    for j in 0..Table::STATEMENT_ROW {
        if file_codec::uses(k, e, n, j) {
            t[at + j] = file_codec::word_in(x, p);
            p += 4;
        } else {
            t[at + j] = 0;
        }
    }
}

// The words of a row, from the bytes of its field.
fn unpack_row(x: &[u8], t: &mut [u32], at: usize)
    requires { at + statement_row ≤ length t.old }
    ensures { t.new ≡ store_from t.old at (unpacked x.now) }
{
    let k = file_codec::word_in(x, 0);
    let e = file_codec::expr_in(x, k);
    let n = file_codec::count_in(x, k, e);
    unpack_words(x, k, e, n, t, at);
}

// Three walks of four lines: one for all would be generic in the table's word, which `store_from` fixes to a number.
// n rows, whose fields stand from a place on, to the front of the table.
pub fn unpack_rows(b: &[u8], n: u32, at: usize, t: &mut [u32])
    requires { (n * statement_row ≤ length t.old) × (behind_fields row_tag row_fits b.now n at ≤ length b.now) }
    ensures { t.new ≡ store_from t.old 0 (each_field unpacked b.now n at) }
{
    let mut p = at;
    for i in 0..n {
        unpack_row(file_form::body(b, p), t, i as usize * Table::STATEMENT_ROW);
        p = file_form::behind(b, p);
    }
}

// The argument count of a label of kind k: that of an import.
fn arguments_in(x: &[u8], k: u32) -> u32
    ensures { result ≡ arguments_in k x.now }
{
    if k == LabelKind::IMPORT {
        return file_codec::word_in(x, 8);
    }
    0
}

// The bytes of the name of a label of kind k.
fn name_size(x: &[u8], k: u32) -> u32
    requires { length x.now < 65536 }
    ensures { result ≡ length x.now - label_head k }
{
    let head = file_codec::label_head(k);
    if x.len() < head {
        return 0;
    }
    (x.len() - head) as u32
}

// The words of a label row, to a place of the table.
fn unpack_label(x: &[u8], l: &mut [u32], at: usize)
    requires { (length x.now < 65536) × (at + label_row ≤ length l.old) }
    ensures { l.new ≡ store_from l.old at (label_words_in x.now) }
{
    let k = file_codec::word_in(x, 0);
    l[at] = k;
    l[at + 1] = file_codec::word_in(x, 4);
    l[at + 2] = arguments_in(x, k);
    l[at + 3] = name_size(x, k);
}

// Its name, to a place of the name table.
fn unpack_name(x: &[u8], names: &mut [u8], at: usize)
    requires { at + name_bytes ≤ length names.old }
    ensures { names.new ≡ store_from names.old at (name_slot x.now) }
{
    let head = file_codec::label_head(file_codec::word_in(x, 0));
    for j in 0..Machine::NAME_BYTES {
        names[at + j] = x.get(head + j).copied().unwrap_or(0);
    }
}

// The words of n labels, whose fields stand from a place on, to the front of the table.
pub fn unpack_labels(b: &[u8], n: u32, at: usize, l: &mut [u32])
    requires { (n * label_row ≤ length l.old) × (behind_fields label_tag label_fits b.now n at ≤ length b.now) }
    ensures { l.new ≡ store_from l.old 0 (each_field label_words_in b.now n at) }
{
    let mut p = at;
    for i in 0..n {
        unpack_label(file_form::body(b, p), l, i as usize * Table::LABEL_ROW);
        p = file_form::behind(b, p);
    }
}

// Their names.
pub fn unpack_names(b: &[u8], n: u32, at: usize, names: &mut [u8])
    requires { (n * name_bytes ≤ length names.old) × (behind_fields label_tag label_fits b.now n at ≤ length b.now) }
    ensures { names.new ≡ store_from names.old 0 (each_field name_slot b.now n at) }
{
    let mut p = at;
    for i in 0..n {
        unpack_name(
            file_form::body(b, p),
            names,
            i as usize * Machine::NAME_BYTES,
        );
        p = file_form::behind(b, p);
    }
}
