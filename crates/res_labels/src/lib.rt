// The label table and the name table.
#![tactic(auto)]

ghost use Rattle.std.specs.Prelude.{◌≡◌, [], ◌∷◌, ◌+◌, ◌-◌, ◌*◌, ◌≤◌, ◌<◌, length};
ghost use Rattle.prog_tables.specs.Layout.{label_row};
ghost use Rattle.base_limits.specs.Limits as limits;
ghost use Rattle.res_labels.specs.Labelling.{outline_word, flag_at, exported_kind, final_kind, final_number, final_arguments, label_words, put_words, label_table, label_name, put_name, name_table};

use base_limits::{Machine, Width};
use lang_kinds::TokenRow;
use prog_tables::{LabelKind, LabelRow, OutlineLabel, Table};

// Word f of label row j of the outline, 0 behind the table.
fn outline_word(y: &[u32], j: u32, f: usize) -> u32
    requires { f < 4 }
    ensures { result ≡ outline_word y.now j f }
{
    prog_tables::word_at(y, j as usize * Table::LABEL_ROW + f)
}

fn flag_at(flags: &[u32], j: u32) -> u32
    ensures { result ≡ flag_at flags.now j }
{
    prog_tables::word_at(flags, j as usize)
}

fn exported_kind(kind: u32) -> u32
    ensures { result ≡ exported_kind kind }
{
    match kind {
        LabelKind::DATA => LabelKind::EXPORTED_DATA,
        LabelKind::FUNCTION => LabelKind::EXPORTED_FUNCTION,
        _ => kind,
    }
}

fn final_kind(kind: u32, flag: u32) -> u32
    ensures { result ≡ final_kind kind flag }
{
    if flag == 1 { exported_kind(kind) } else { kind }
}

fn final_number(w: Width, t: &[u32], kind: u32, number: u32) -> u32
    requires { length t.now ≡ limits.token_words }
    ensures { result ≡ final_number w t.now kind number }
{
    match kind {
        LabelKind::DATA => res_data::address_of(w, t, number),
        LabelKind::IMPORT => number.saturating_sub(1) / 16,
        _ => number.saturating_sub(1),
    }
}

fn final_arguments(kind: u32, number: u32) -> u32
    ensures { result ≡ final_arguments kind number }
{
    if kind == LabelKind::IMPORT {
        number.saturating_sub(1) % 16
    } else {
        0
    }
}

fn put_words(out: &mut [u32], j: u32, kind: u32, number: u32, arguments: u32, size: u32)
    requires { j * label_row + label_row ≤ length out.old }
    ensures { out.new ≡ put_words out.old j (kind ∷ number ∷ arguments ∷ size ∷ []) }
{
    let at = j as usize * Table::LABEL_ROW;
    out[at] = kind;
    out[at + LabelRow::NUMBER] = number;
    out[at + LabelRow::ARGUMENTS] = arguments;
    out[at + LabelRow::SIZE] = size;
}

fn write_row(w: Width, t: &[u32], y: &[u32], flags: &[u32], j: u32, out: &mut [u32])
    requires { (length t.now ≡ limits.token_words) × (j * label_row + label_row ≤ length out.old) }
    ensures { out.new ≡ put_words out.old j (label_words w t.now y.now flags.now j) }
{
    let kind = outline_word(y, j, OutlineLabel::KIND);
    let names = outline_word(y, j, OutlineLabel::NAMES);
    let number = final_number(w, t, kind, names);
    let arguments = final_arguments(kind, names);
    let size = parse_lines::value_at(t, outline_word(y, j, OutlineLabel::TOKEN));
    put_words(
        out,
        j,
        final_kind(kind, flag_at(flags, j)),
        number,
        arguments,
        size,
    );
}

fn write_rows(w: Width, t: &[u32], y: &[u32], flags: &[u32], l: u32, out: &mut [u32])
    requires { (length t.now ≡ limits.token_words) × (l * label_row ≤ length out.old) }
    ensures { out.new ≡ label_table w t.now y.now flags.now l out.old }
{
    for j in 0..l {
        write_row(w, t, y, flags, j, out);
    }
}

fn write_name(s: &[u8], t: &[u32], y: &[u32], j: u32, names: &mut [u8])
    requires { j * limits.name_bytes + limits.name_bytes ≤ length names.old }
    ensures { names.new ≡ put_name names.old j (label_name s.now t.now y.now j) }
{
    let first = parse_lines::token_word(
        t,
        outline_word(y, j, OutlineLabel::TOKEN),
        TokenRow::FIRST,
    );
    let from = j as usize * Machine::NAME_BYTES;
    let end = from + Machine::NAME_BYTES;
    lex_spelling::copy_text(false, s, first as usize, &mut names[from..end]);
}

fn write_names(s: &[u8], t: &[u32], y: &[u32], l: u32, names: &mut [u8])
    requires { l * limits.name_bytes ≤ length names.old }
    ensures { names.new ≡ name_table s.now t.now y.now l names.old }
{
    for j in 0..l {
        write_name(s, t, y, j, names);
    }
}

// The rows and names of the first l labels of the outline's label rows y, over two buffers; a flag of 1 says that a label is exported.
pub fn write_labels(
    w: Width,
    s: &[u8],
    t: &[u32],
    y: &[u32],
    flags: &[u32],
    l: u32,
    out: &mut [u32],
    names: &mut [u8],
)
    requires { (length t.now ≡ limits.token_words) × (l * label_row ≤ length out.old) × (l * limits.name_bytes ≤ length names.old) }
    ensures out_after { out.new ≡ label_table w t.now y.now flags.now l out.old }
    ensures names_after { names.new ≡ name_table s.now t.now y.now l names.old }
{
    write_rows(w, t, y, flags, l, out);
    write_names(s, t, y, l, names);
}
