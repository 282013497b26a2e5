// Writing rule files: the file of tables, to a lent buffer. Bytes past the buffer's end are counted and not written, so the file's length is
// what a write to a buffer of one byte counts.
#![tactic(auto)]

ghost use Rattle.std.specs.Prelude.{◌≡◌, [], ◌∷◌, ◌+◌, ◌≤◌, ◌<◌, length, take, drop};
ghost use Rattle.base_prelude.specs.Choice.{if_true, if_eq};
ghost use Rattle.base_limits.specs.Limits as limits;
ghost use Rattle.base_word.specs.Bytes.{word_bytes};
ghost use Rattle.prog_tables.specs.Layout.{statement_row, import_label};
ghost use Rattle.prog_tables.specs.Label.{label_at};
ghost use Rattle.vm_definitions.specs.Lent.{tables_of};
ghost use Rattle.app_page.specs.Sheet.{sheet, put};
ghost use Rattle.file_codec.specs.Words.{word_size};
ghost use Rattle.file_codec.specs.Fields.{counts_tag, data_tag, row_tag, label_tag, field_of};
ghost use Rattle.file_codec.specs.Rows.{uses, packed, word_of};
ghost use Rattle.file_codec.specs.Labels.{label_bytes};
ghost use Rattle.file_codec.specs.File.{counts_bytes, row_fields, label_fields, file_of};
ghost use Rattle.file_writer.specs.Write.{past_limits, write_broken, wrote, fitted, write_of};

use app_page::{part, put_byte, put_bytes};
use base_limits::Machine;
use prog_tables::{LabelKind, LabelRow, StatementRow, Table, word_at};
use vm_definitions::Broken;

// Why nothing is written: the buffer is shorter than the bytes needed (16), or refusal 35.
#[derive(Drop)]
pub enum WriteError {
    Short(usize),
    Broken(Broken),
}

// The tags of fields, and the bytes before a field's own.
#[derive(Drop)]
pub struct Field {}

impl Field {
    pub const COUNTS: u8 = 1;

    pub const DATA: u8 = 2;

    pub const ROW: u8 = 3;

    pub const LABEL: u8 = 4;

    pub const HEAD: usize = 3;
}

// A word, little-endian.
fn put_word(out: &mut [u8], at: usize, v: u32) -> usize
    requires { at < 1125899906842624 }
    ensures out_after { sheet result out.new ≡ put (word_bytes word_size v) (sheet at out.old) }
    ensures upper_bound { result ≤ at + 4 }
{
    let second = put_byte(out, at, (v % 256) as u8);
    let third = put_byte(out, second, (v / 256 % 256) as u8);
    let fourth = put_byte(out, third, (v / 256 / 256 % 256) as u8);
    put_byte(out, fourth, (v / 256 / 256 / 256 % 256) as u8)
}

// The bytes of a slice from a place on, so many at most.
fn put_part(out: &mut [u8], at: usize, s: &[u8], from: usize, n: u32) -> usize
    requires { at < 1125899906842624 }
    ensures out_after { sheet result out.new ≡ put (take n (drop from s.now)) (sheet at out.old) }
    ensures upper_bound { result ≤ at + 4294967296 }
{
    put_bytes(out, at, part(s, from, n as usize))
}

// Tag and length of a field of n bytes.
fn put_head(out: &mut [u8], at: usize, tag: u8, n: usize) -> usize
    requires { at < 1125899906842624 }
    ensures { sheet result out.new ≡ put (tag ∷ word_bytes 2 n) (sheet at out.old) }
{
    let low = put_byte(out, at, tag);
    let high = put_byte(out, low, (n % 256) as u8);
    put_byte(out, high, (n / 256 % 256) as u8)
}

// The counts.
fn put_counts(out: &mut [u8], at: usize, c: u32, k: u32, d: u32) -> usize
    requires { at < 562949953421312 }
    ensures out_after { sheet result out.new ≡ put (counts_bytes c k d) (sheet at out.old) }
    ensures upper_bound { result ≤ at + 12 }
{
    let labels = put_word(out, at, c);
    let data = put_word(out, labels, k);
    put_word(out, data, d)
}

// The field of the counts.
fn put_counts_field(out: &mut [u8], c: u32, k: u32, d: u32) -> usize
    ensures out_after { sheet result out.new ≡ put (field_of counts_tag (counts_bytes c k d)) (sheet 0 out.old) }
    ensures upper_bound { result ≤ 15 }
{
    let end = put_counts(out, Field::HEAD, c, k, d);
    put_head(out, 0, Field::COUNTS, end - Field::HEAD);
    end
}

// The field of the data.
fn put_data_field(out: &mut [u8], at: usize, bytes: &[u8], d: u32) -> usize
    requires { at < 281474976710656 }
    ensures out_after { sheet result out.new ≡ put (field_of data_tag (take d bytes.now)) (sheet at out.old) }
    ensures upper_bound { result ≤ at + 4294967299 }
{
    let body = at + Field::HEAD;
    let end = put_part(out, body, bytes, 0, d);
    put_head(out, at, Field::DATA, end - body);
    end
}

// Word j of row n, where a row of kind k with expression kind e and count m uses it.
fn put_used(out: &mut [u8], at: usize, k: u32, e: u32, m: u32, t: &[u32], n: u32, j: usize) -> usize
    requires { (at < 562949953421312) × (j < statement_row) }
    ensures out_after { sheet result out.new ≡ put (if_true (uses k e m j) (word_bytes word_size (word_of t.now n j)) []) (sheet at out.old) }
    ensures upper_bound { result ≤ at + 4 }
{
    if file_codec::uses(k, e, m, j) {
        return put_word(out, at, word_at(t, n as usize * Table::STATEMENT_ROW + j));
    }
    at
}

// The words of row n that it uses.
fn put_row(out: &mut [u8], at: usize, t: &[u32], n: u32) -> usize
    requires { at < 281474976710656 }
    ensures out_after { sheet result out.new ≡ put (packed (word_of t.now n)) (sheet at out.old) }
    ensures upper_bound { result ≤ at + 108 }
{
    let row = n as usize * Table::STATEMENT_ROW;
    let k = word_at(t, row + StatementRow::KIND);
    let e = word_at(t, row + StatementRow::EXPR);
    let m = word_at(t, row + StatementRow::COUNT);
    let mut to = at;
    for j in 0..Table::STATEMENT_ROW {
        to = put_used(out, to, k, e, m, t, n, j);
    }
    to
}

// The field of row n.
fn put_row_field(out: &mut [u8], at: usize, t: &[u32], n: u32) -> usize
    requires { at < 140737488355328 }
    ensures out_after { sheet result out.new ≡ put (field_of row_tag (packed (word_of t.now n))) (sheet at out.old) }
    ensures upper_bound { result ≤ at + 111 }
{
    let body = at + Field::HEAD;
    let end = put_row(out, body, t, n);
    put_head(out, at, Field::ROW, end - body);
    end
}

// The fields of the statement rows.
fn put_rows(out: &mut [u8], at: usize, t: &[u32], c: u32) -> usize
    requires { at < 70368744177664 }
    ensures out_after { sheet result out.new ≡ put (row_fields t.now c 0) (sheet at out.old) }
    ensures upper_bound { result ≤ at + 476741369856 }
{
    let mut to = at;
    for i in 0..c {
        to = put_row_field(out, to, t, i);
    }
    to
}

// The arguments of a label of kind k, where it has them.
fn put_arguments(out: &mut [u8], at: usize, k: u32, a: u32) -> usize
    requires { at < 562949953421312 }
    ensures out_after { sheet result out.new ≡ put (if_eq k import_label (word_bytes word_size a) []) (sheet at out.old) }
    ensures upper_bound { result ≤ at + 4 }
{
    if k == LabelKind::IMPORT {
        return put_word(out, at, a);
    }
    at
}

// Label row n with its name.
fn put_label(out: &mut [u8], at: usize, l: &[u32], names: &[u8], n: u32) -> usize
    requires { at < 281474976710656 }
    ensures out_after { sheet result out.new ≡ put (label_bytes (label_at l.now names.now n)) (sheet at out.old) }
    ensures upper_bound { result ≤ at + 4294967308 }
{
    let row = n as usize * Table::LABEL_ROW;
    let kind = word_at(l, row);
    let number = put_word(out, at, kind);
    let arguments = put_word(out, number, word_at(l, row + LabelRow::NUMBER));
    let name = put_arguments(out, arguments, kind, word_at(l, row + LabelRow::ARGUMENTS));
    let size = word_at(l, row + LabelRow::SIZE);
    put_part(out, name, names, n as usize * Machine::NAME_BYTES, size)
}

// The field of label row n.
fn put_label_field(out: &mut [u8], at: usize, l: &[u32], names: &[u8], n: u32) -> usize
    requires { at < 140737488355328 }
    ensures out_after { sheet result out.new ≡ put (field_of label_tag (label_bytes (label_at l.now names.now n))) (sheet at out.old) }
    ensures upper_bound { result ≤ at + 4294967311 }
{
    let body = at + Field::HEAD;
    let end = put_label(out, body, l, names, n);
    put_head(out, at, Field::LABEL, end - body);
    end
}

// The fields of the label rows.
fn put_labels(out: &mut [u8], at: usize, l: &[u32], names: &[u8], k: u32) -> usize
    requires { (at < 70368744177664) × (k ≤ limits.labels) }
    ensures { sheet result out.new ≡ put (label_fields l.now names.now k 0) (sheet at out.old) }
{
    let mut to = at;
    for i in 0..k {
        to = put_label_field(out, to, l, names, i);
    }
    to
}

// The file, and its length.
fn put_file(
    statements: &[u32],
    count: u32,
    labels: &[u32],
    label_count: u32,
    names: &[u8],
    data_length: u32,
    bytes: &[u8],
    out: &mut [u8],
) -> usize
    requires { label_count ≤ limits.labels }
    ensures { sheet result out.new ≡ put (file_of (tables_of statements.now count labels.now label_count names.now data_length) bytes.now) (sheet 0 out.old) }
{
    let data = put_counts_field(out, count, label_count, data_length);
    let rows = put_data_field(out, data, bytes, data_length);
    let from = put_rows(out, rows, statements, count);
    put_labels(out, from, labels, names, label_count)
}

// 16, or the file.
fn fit(
    statements: &[u32],
    count: u32,
    labels: &[u32],
    label_count: u32,
    names: &[u8],
    data_length: u32,
    bytes: &[u8],
    out: &mut [u8],
) -> Result<usize, WriteError>
    requires { label_count ≤ limits.labels }
    ensures { wrote result out.new ≡ fitted (file_of (tables_of statements.now count labels.now label_count names.now data_length) bytes.now) out.old }
{
    let mut none = [0u8; 1];
    let length = put_file(
        statements,
        count,
        labels,
        label_count,
        names,
        data_length,
        bytes,
        &mut none,
    );
    if out.len() < length {
        return Err(WriteError::Short(length));
    }
    Ok(put_file(
        statements,
        count,
        labels,
        label_count,
        names,
        data_length,
        bytes,
        out,
    ))
}

// By `if`: with `||` of three the goals at the joined value did not close.
// Whether tables are larger than the limits allow.
fn past_limits(c: u32, k: u32, d: u32) -> bool
    ensures { result ≡ past_limits c k d }
{
    if Machine::STATEMENTS < c as usize {
        return true;
    }
    if Machine::LABELS < k as usize {
        return true;
    }
    Machine::DATA_BYTES < d as usize
}

// Refusal 35: as start gives it, then that of the limits.
fn judge(t: &[u32], c: u32, l: &[u32], k: u32, names: &[u8], d: u32, n: usize) -> Broken
    ensures { result ≡ write_broken (tables_of t.now c l.now k names.now d) n }
{
    let b = vm_start::judge(t, c, l, k, names, d, n);
    match b {
        Broken::No => {
            if past_limits(c, k, d) {
                return Broken::Somewhere;
            }
            Broken::No
        }
        _ => b,
    }
}

// Writes the file of tables with their data to a buffer, and gives its bytes.
pub fn write(
    statements: &[u32],
    count: u32,
    labels: &[u32],
    label_count: u32,
    names: &[u8],
    data_length: u32,
    bytes: &[u8],
    out: &mut [u8],
) -> Result<usize, WriteError>
    ensures { wrote result out.new ≡ write_of (tables_of statements.now count labels.now label_count names.now data_length) bytes.now out.old }
{
    let b = judge(
        statements,
        count,
        labels,
        label_count,
        names,
        data_length,
        bytes.len(),
    );
    match b {
        Broken::No => fit(
            statements,
            count,
            labels,
            label_count,
            names,
            data_length,
            bytes,
            out,
        ),
        _ => Err(WriteError::Broken(b)),
    }
}
