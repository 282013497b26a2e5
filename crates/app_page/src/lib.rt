// The lister's page.
#![tactic(auto)]

ghost use Rattle.std.specs.Prelude.{◌≡◌, [], ◌∷◌, ◌++◌, ◌+◌, ◌*◌, ◌/◌, ◌%◌, ◌≤◌, ◌<◌, length, take, drop};
ghost use Rattle.base_limits.specs.Limits.{word_values};
ghost use Rattle.prog_tables.specs.Label.{label_at};
ghost use Rattle.app_page.specs.Bytes.{digits_within, decimal, field, hex_digit, name_byte, name_bytes_of, newlines, label-word, refused-word, line_word, byte_word, line-end};
ghost use Rattle.app_page.specs.Sheet.{sheet, put};
ghost use Rattle.app_page.specs.Page.{head_line, kind_word, exported_word, sizes, label_sizes, label_tail, label_head, label_line, label_lines, accepted_page, line_of, refused_page, shown, shown_on};

use base_prelude::wide;
use prog_tables::{LabelKind, LabelRow, Table};

// A byte at a place, and the place behind it; past the buffer's end it is counted only.
pub fn put_byte(out: &mut [u8], at: usize, c: u8) -> usize
    requires { at < 1152921504606846976 }
    ensures out_after { sheet result out.new ≡ put (c ∷ []) (sheet at out.old) }
    ensures upper_bound { result ≤ at + 1 }
{
    if at < out.len() {
        out[at] = c;
        return at + 1;
    }
    at + 1
}

// The bytes of a text.
pub fn put_bytes(out: &mut [u8], at: usize, s: &[u8]) -> usize
    requires { (at < 1125899906842624) × (length s.now ≤ 4294967296) }
    ensures out_after { sheet result out.new ≡ put s.now (sheet at out.old) }
    ensures upper_bound { result ≤ at + length s.now }
{
    let mut to = at;
    for c in s {
        to = put_byte(out, to, *c);
    }
    to
}

fn digit(n: u64) -> u8
    requires { n < 10 }
    ensures { result ≡ 48 + n }
{
    48 + n as u8
}

// The last digits of a number, by recursion with the remaining digits falling.
fn put_digits(out: &mut [u8], at: usize, left: u32, n: u64) -> usize
    requires { (at < 1125899906842624) × (left ≤ 20) }
    ensures out_after { sheet result out.new ≡ put (digits_within left n) (sheet at out.old) }
    ensures upper_bound { result ≤ at + left }
{
    if left == 0 {
        return at;
    }
    if n < 10 {
        return put_byte(out, at, digit(n));
    }
    let to = put_digits(out, at, left - 1, n / 10);
    put_byte(out, to, digit(n % 10))
}

fn put_decimal(out: &mut [u8], at: usize, n: u64) -> usize
    requires { at < 1125899906842624 }
    ensures out_after { sheet result out.new ≡ put (decimal n) (sheet at out.old) }
    ensures upper_bound { result ≤ at + 20 }
{
    put_digits(out, at, 20, n)
}

// A blank and a number.
fn put_field(out: &mut [u8], at: usize, n: u64) -> usize
    requires { at < 562949953421312 }
    ensures out_after { sheet result out.new ≡ put (field n) (sheet at out.old) }
    ensures upper_bound { result ≤ at + 21 }
{
    let to = put_byte(out, at, 32);
    put_decimal(out, to, n)
}

fn hex_digit(d: u8) -> u8
    requires { d < 16 }
    ensures { result ≡ hex_digit d }
{
    if d < 10 {
        return 48 + d;
    }
    87 + d
}

fn put_escape(out: &mut [u8], at: usize, c: u8) -> usize
    requires { at < 562949953421312 }
    ensures out_after { sheet result out.new ≡ put (92 ∷ 120 ∷ hex_digit (c / 16) ∷ hex_digit (c % 16) ∷ []) (sheet at out.old) }
    ensures upper_bound { result ≤ at + 4 }
{
    let x = put_byte(out, at, 92);
    let high = put_byte(out, x, 120);
    let low = put_byte(out, high, hex_digit(c / 16));
    put_byte(out, low, hex_digit(c % 16))
}

fn put_name_byte(out: &mut [u8], at: usize, c: u8) -> usize
    requires { at < 562949953421312 }
    ensures out_after { sheet result out.new ≡ put (name_byte c) (sheet at out.old) }
    ensures upper_bound { result ≤ at + 4 }
{
    if lex_spelling::is_name_byte(wide(c)) {
        return put_byte(out, at, c);
    }
    put_escape(out, at, c)
}

// A loop of its own beside put_bytes: one for both would take the step as a closure and say in its contract what it writes.
fn put_name(out: &mut [u8], at: usize, name: &[u8]) -> usize
    requires { (at < 281474976710656) × (length name.now ≤ 64) }
    ensures out_after { sheet result out.new ≡ put (name_bytes_of name.now) (sheet at out.old) }
    ensures upper_bound { result ≤ at + 256 }
{
    let mut to = at;
    for c in name {
        to = put_name_byte(out, to, *c);
    }
    to
}

// The bytes of a text from a place on, so many at most.
pub fn part(s: &[u8], from: usize, size: usize) -> &[u8]
    ensures { result.now ≡ take size (drop from s.now) }
{
    if s.len() <= from {
        return &s[0..0];
    }
    if size <= s.len() - from {
        return &s[from..from + size];
    }
    &s[from..]
}

// A label's name: 64 bytes a row, and 64 at most.
fn name_at(names: &[u8], n: u32, size: u32) -> &[u8]
    ensures result_value { result.now ≡ take 64 (take size (drop (n * 64) names.now)) }
    ensures result_len_bound { length result.now ≤ 64 }
{
    let name = part(names, n as usize * 64, size as usize);
    part(name, 0, 64)
}

fn put_kind(out: &mut [u8], at: usize, kind: u32) -> usize
    requires { at < 281474976710656 }
    ensures out_after { sheet result out.new ≡ put (kind_word kind) (sheet at out.old) }
    ensures upper_bound { result ≤ at + 64 }
{
    if kind < LabelKind::FUNCTION {
        return put_bytes(out, at, b" data ");
    }
    if kind < LabelKind::PLACE {
        return put_bytes(out, at, b" function ");
    }
    if kind == LabelKind::IMPORT {
        return put_bytes(out, at, b" import ");
    }
    put_bytes(out, at, b" place ")
}

fn put_exported(out: &mut [u8], at: usize, kind: u32) -> usize
    requires { at < 281474976710656 }
    ensures out_after { sheet result out.new ≡ put (exported_word kind) (sheet at out.old) }
    ensures upper_bound { result ≤ at + 64 }
{
    if kind == LabelKind::EXPORTED_DATA {
        return put_bytes(out, at, b" yes");
    }
    if kind == LabelKind::EXPORTED_FUNCTION {
        return put_bytes(out, at, b" yes");
    }
    put_bytes(out, at, b" no")
}

// Parameters and frame size.
fn put_sizes(out: &mut [u8], at: usize, rows: &[u32], statement: u32) -> usize
    requires { at < 281474976710656 }
    ensures out_after { sheet result out.new ≡ put (sizes rows.now statement) (sheet at out.old) }
    ensures upper_bound { result ≤ at + 64 }
{
    let to = put_field(out, at, prog_tables::parameters_at(rows, statement) as u64);
    put_field(out, to, prog_tables::a_at(rows, statement) as u64)
}

fn put_label_sizes(
    out: &mut [u8],
    at: usize,
    rows: &[u32],
    kind: u32,
    statement: u32,
    arguments: u32,
) -> usize
    requires { at < 281474976710656 }
    ensures out_after { sheet result out.new ≡ put (label_sizes rows.now kind statement arguments) (sheet at out.old) }
    ensures upper_bound { result ≤ at + 64 }
{
    if kind < LabelKind::FUNCTION {
        return at;
    }
    if kind < LabelKind::PLACE {
        return put_sizes(out, at, rows, statement);
    }
    if kind == LabelKind::IMPORT {
        return put_field(out, at, arguments as u64);
    }
    at
}

fn put_label_tail(
    out: &mut [u8],
    at: usize,
    rows: &[u32],
    kind: u32,
    number: u32,
    arguments: u32,
) -> usize
    requires { at < 140737488355328 }
    ensures out_after { sheet result out.new ≡ put (label_tail rows.now kind number arguments) (sheet at out.old) }
    ensures upper_bound { result ≤ at + 256 }
{
    let behind_kind = put_kind(out, at, kind);
    let behind_number = put_decimal(out, behind_kind, number as u64);
    let behind_export = put_exported(out, behind_number, kind);
    let to = put_label_sizes(out, behind_export, rows, kind, number, arguments);
    put_byte(out, to, 10)
}

fn put_label_head(out: &mut [u8], at: usize, name: &[u8]) -> usize
    requires { (at < 140737488355328) × (length name.now ≤ 64) }
    ensures out_after { sheet result out.new ≡ put (label-word ++ name_bytes_of name.now) (sheet at out.old) }
    ensures upper_bound { result ≤ at + 512 }
{
    let to = put_bytes(out, at, b"label ");
    put_name(out, to, name)
}

// The line of a label.
fn put_label(out: &mut [u8], at: usize, table: &[u32], names: &[u8], rows: &[u32], n: u32) -> usize
    requires { at < 70368744177664 }
    ensures out_after { sheet result out.new ≡ put (label_line rows.now (label_at table.now names.now n)) (sheet at out.old) }
    ensures upper_bound { result ≤ at + 1024 }
{
    let row = n as usize * Table::LABEL_ROW;
    let kind = prog_tables::word_at(table, row);
    let number = prog_tables::word_at(table, row + LabelRow::NUMBER);
    let arguments = prog_tables::word_at(table, row + LabelRow::ARGUMENTS);
    let size = prog_tables::word_at(table, row + LabelRow::SIZE);
    let to = put_label_head(out, at, name_at(names, n, size));
    put_label_tail(out, to, rows, kind, number, arguments)
}

fn put_labels(
    out: &mut [u8],
    at: usize,
    table: &[u32],
    names: &[u8],
    rows: &[u32],
    count: u32,
) -> usize
    requires { at ≤ 1024 }
    ensures { sheet result out.new ≡ put (label_lines count table.now names.now rows.now 0) (sheet at out.old) }
{
    let mut to = at;
    for i in 0..count {
        to = put_label(out, to, table, names, rows, i);
    }
    to
}

fn put_head(out: &mut [u8], statements: u32, labels: u32, size: u32) -> usize
    ensures out_after { sheet result out.new ≡ put (head_line statements labels size) (sheet 0 out.old) }
    ensures upper_bound { result ≤ 1024 }
{
    let behind_word = put_bytes(out, 0, b"accepted");
    let behind_statements = put_field(out, behind_word, statements as u64);
    let behind_labels = put_field(out, behind_statements, labels as u64);
    let to = put_field(out, behind_labels, size as u64);
    put_byte(out, to, 10)
}

fn put_accepted(
    out: &mut [u8],
    statements: u32,
    labels: u32,
    size: u32,
    table: &[u32],
    names: &[u8],
    rows: &[u32],
) -> usize
    ensures { sheet result out.new ≡ put (accepted_page statements labels size table.now names.now rows.now) (sheet 0 out.old) }
{
    let to = put_head(out, statements, labels, size);
    put_labels(out, to, table, names, rows, labels)
}

// The same five lines as refused_page: a shared function would take the writer as a closure with its contract, no plainer.
// The page of an accepted source: the counts, and a line for each label of the tables.
// Its length, or None where the buffer is shorter.
pub fn accepted_page(
    statements: u32,
    labels: u32,
    size: u32,
    table: &[u32],
    names: &[u8],
    rows: &[u32],
    out: &mut [u8],
) -> Option<usize>
    ensures { shown result out.new ≡ shown_on (accepted_page statements labels size table.now names.now rows.now) out.old }
{
    let mut none = [0u8; 1];
    let size_of_page = put_accepted(&mut none, statements, labels, size, table, names, rows);
    if out.len() < size_of_page {
        return None;
    }
    Some(put_accepted(out, statements, labels, size, table, names, rows))
}

// How often byte 10 stands in a text.
fn newlines_in(s: &[u8]) -> u64
    requires { length s.now ≤ word_values }
    ensures { (result ≡ newlines s.now) × (result ≤ word_values) }
{
    s.iter().filter(|c| **c == 10).count() as u64
}

// The line of a place, from 1.
fn line_of(source: &[u8], place: u32) -> u64
    ensures { result ≡ line_of source.now place }
{
    newlines_in(part(source, 0, place as usize)) + 1
}

fn put_refusal(out: &mut [u8], number: u32) -> usize
    ensures out_after { sheet result out.new ≡ put (refused-word ++ field number ++ line_word) (sheet 0 out.old) }
    ensures upper_bound { result ≤ 256 }
{
    let behind_word = put_bytes(out, 0, b"refused");
    let behind_number = put_field(out, behind_word, number as u64);
    put_bytes(out, behind_number, b" line")
}

fn put_place(out: &mut [u8], at: usize, line: u64, place: u32) -> usize
    requires { at ≤ 256 }
    ensures { sheet result out.new ≡ put (field line ++ byte_word ++ field place ++ line-end) (sheet at out.old) }
{
    let behind_line = put_field(out, at, line);
    let behind_word = put_bytes(out, behind_line, b" byte");
    let to = put_field(out, behind_word, place as u64);
    put_byte(out, to, 10)
}

fn put_refused(out: &mut [u8], source: &[u8], number: u32, place: u32) -> usize
    ensures { sheet result out.new ≡ put (refused_page source.now number place) (sheet 0 out.old) }
{
    let to = put_refusal(out, number);
    put_place(out, to, line_of(source, place), place)
}

// The page of a refused source: the refusal's number, line and byte. Its length, or None where the buffer is shorter.
pub fn refused_page(source: &[u8], number: u32, place: u32, out: &mut [u8]) -> Option<usize>
    ensures { shown result out.new ≡ shown_on (refused_page source.now number place) out.old }
{
    let mut none = [0u8; 1];
    let size_of_page = put_refused(&mut none, source, number, place);
    if out.len() < size_of_page {
        return None;
    }
    Some(put_refused(out, source, number, place))
}
