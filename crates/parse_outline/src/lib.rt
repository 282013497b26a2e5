// The outline as a whole: statement rows, label rows, and the stage's answer.
#![tactic(auto)]

ghost use Rattle.std.specs.Prelude.{◌≡◌, ◌+◌, ◌*◌, ◌-◌, ◌≤◌, ◌<◌, length};
ghost use Rattle.base_limits.specs.Limits as limits;
ghost use Rattle.prog_tables.specs.Layout.{label_words};
ghost use Rattle.parse_units.specs.Outline.{outline_words};
ghost use Rattle.parse_units.specs.Parse.{parse_result, parse_of};
ghost use Rattle.parse_outline.specs.Labels.{label_kind, label_number, put_label, marked, mark_token, mark_from, mark_before, mark_import, mark_unit, marking, marks_behind, mark_step, marks_from, label_rows, first_marks, going};
ghost use Rattle.parse_outline.specs.Fits.{MarksFit};
ghost use Rattle.parse_outline.specs.Parsed.{refusal_of};
ghost use Rattle.parse_outline.specs.Outline.{answer_of, parsed, outline_of};

use base_limits::{Machine, Refusal, Width};
use lang_kinds::{Ground, Kind, Token};
use parse_lines::Span;
pub use parse_units::Outline;
use parse_units::Totals;
use prog_tables::{LabelKind, OutlineLabel};

const MOST_LABELS: u32 = Machine::LABELS as u32;

// The numbers of statement rows and of label rows of an outline.
#[derive(Clone, Copy)]
pub struct RowCounts {
    pub statements: u32,
    pub labels: u32,
}

// Between two units: the next token, the next row, the section, the labels so far.
#[derive(Clone, Copy)]
pub struct Marks {
    pub at: u32,
    pub row: u32,
    pub section: u32,
    pub labels: u32,
}

fn label_kind(k: u32, section: u32) -> u32
    ensures { result ≡ label_kind k section }
{
    if section < Ground::DATA_SECTION {
        if k == Kind::FUNCTION {
            return LabelKind::FUNCTION;
        }
        return LabelKind::PLACE;
    }
    LabelKind::DATA
}

fn label_number(section: u32, word: u32, row: u32) -> u32
    ensures { result ≡ label_number section word row }
{
    if section < Ground::DATA_SECTION {
        return row;
    }
    word
}

fn put_words(x: &mut [u32], c: u32, token: u32, kind: u32, number: u32)
    requires { (length x.old ≡ label_words) × (c < limits.labels) }
    ensures { x.new ≡ put_label x.old c token kind number }
{
    let w = c as usize * Outline::LABEL_ROW;
    x[w] = token;
    x[w + OutlineLabel::KIND] = kind;
    x[w + OutlineLabel::NAMES] = number;
    x[w + 3] = 0;
}

fn put_label(x: &mut [u32], c: u32, token: u32, kind: u32, number: u32)
    requires { length x.old ≡ label_words }
    ensures { x.new ≡ put_label x.old c token kind number }
{
    if c < MOST_LABELS {
        put_words(x, c, token, kind, number);
    }
}

fn mark_token(t: &[u32], x: &mut [u32], i: u32, kind: u32, number: u32, c: u32) -> u32
    requires { (length x.old ≡ label_words) × (c < limits.greatest_word) }
    ensures { marked result x.new ≡ mark_token t.now i kind number (marked c x.old) }
{
    if parse_lines::kind_at(t, i) == Token::LABEL {
        put_label(x, c, i, kind, number);
        return c + 1;
    }
    c
}

fn mark_from(
    t: &[u32],
    x: &mut [u32],
    first: u32,
    end: u32,
    kind: u32,
    number: u32,
    start: u32,
) -> u32
    requires { (length x.old ≡ label_words) × (end ≤ limits.tokens + 1) × (start ≤ limits.tokens + 1) }
    ensures { marked result x.new ≡ mark_from (end - first) t.now first kind number (marked start x.old) }
{
    let mut c = start;
    for i in first..end {
        c = mark_token(t, x, i, kind, number, c);
    }
    c
}

// The labels before a line.
fn mark_before(t: &[u32], x: &mut [u32], u: Span, k: u32, s: Marks) -> u32
    requires { (length x.old ≡ label_words) × (u.word ≤ limits.tokens + 1) × (s.labels ≤ limits.tokens + 1) }
    ensures { marked result x.new ≡ mark_before t.now u k s x.old }
{
    let kind = label_kind(k, s.section);
    let number = label_number(s.section, u.word, s.row);
    mark_from(t, x, u.first, u.word, kind, number, s.labels)
}

// The label that an import of a listed name is.
fn mark_import(t: &[u32], x: &mut [u32], u: Span, k: u32, c: u32) -> u32
    requires { (length x.old ≡ label_words) × (u.word ≤ limits.tokens + 1) × (c < limits.greatest_word) }
    ensures { marked result x.new ≡ mark_import t.now u k (marked c x.old) }
{
    if parse_units::import_labels(t, u, k) == 0 {
        return c;
    }
    let mark = parse_lines::host_at(t, u.word + 1);
    put_label(x, c, u.word + 1, LabelKind::IMPORT, mark);
    c + 1
}

fn mark_unit(t: &[u32], x: &mut [u32], u: Span, k: u32, s: Marks) -> u32
    requires { (length x.old ≡ label_words) × (u.word ≤ limits.tokens + 1) × (s.labels ≤ limits.tokens + 1) }
    ensures { marked result x.new ≡ mark_unit t.now u k s x.old }
{
    let c = mark_before(t, x, u, k, s);
    mark_import(t, x, u, k, c)
}

fn marks_behind(u: Span, k: u32, s: Marks, labels: u32) -> Marks
    requires { s.row ≤ 8195 }
    ensures { result ≡ marks_behind u k s labels }
{
    Marks {
        at: u.next,
        row: s.row + lang_kinds::rows_of(k),
        section: parse_units::section_behind(k, s.section),
        labels,
    }
}

// Marks one unit: where the next one starts, or nothing behind the last.
fn mark_step(t: &[u32], x: &mut [u32], s: Marks) -> Option<Marks>
    requires { MarksFit t.now x.old s }
    ensures { going result x.new ≡ mark_step t.now (marking s x.old) }
{
    let u = parse_lines::unit_at(t, s.at);
    let k = parse_lines::line_kind(t, u.word);
    let c = mark_unit(t, x, u, k, s);
    if k == Kind::EDGE {
        return None;
    }
    Some(marks_behind(u, k, s, c))
}

fn marks_from(t: &[u32], x: &mut [u32], start: Marks)
    requires { MarksFit t.now x.old start }
    ensures { x.new ≡ marks_from t.now (marking start x.old) }
{
    let mut s = start;
    while let Some(y) = mark_step(t, x, s) {
        s = y;
    }
}

fn first_marks() -> Marks
    ensures { result ≡ first_marks }
{
    Marks {
        at: 0,
        row: 1,
        section: Ground::BEFORE_SECTIONS,
        labels: 0,
    }
}

// The label rows of the tokens t; the words are cleared first.
fn label_rows(t: &[u32], x: &mut [u32])
    requires { (length t.now ≡ limits.token_words) × (length x.old ≡ label_words) }
    ensures { x.new ≡ label_rows t.now }
{
    x.fill(0);
    marks_from(t, x, first_marks());
}

// The refusal that a key stands for.
pub fn refusal_of(key: u64) -> Refusal
    ensures { result ≡ refusal_of key }
{
    Refusal {
        number: (key % 64) as u32,
        place: (key / 64) as usize,
    }
}

fn answer_of(v: Result<Totals, u64>) -> Result<RowCounts, Refusal>
    ensures { result ≡ answer_of v }
{
    match v {
        Ok(x) => Ok(RowCounts {
            statements: x.count.saturating_sub(1),
            labels: x.labels,
        }),
        Err(key) => Err(refusal_of(key)),
    }
}

fn parse_all(
    w: Width,
    n: u32,
    t: &[u32],
    rows: &mut [u32],
    labels: &mut [u32],
) -> Result<RowCounts, Refusal>
    requires { (length t.now ≡ limits.token_words) × (length rows.old ≡ outline_words) × (length labels.old ≡ label_words) }
    ensures { parsed result rows.new labels.new ≡ outline_of w t.now n }
{
    let v = parse_units::parse_rows(w, t, n, rows);
    label_rows(t, labels);
    answer_of(v)
}

// The outline of the tokens t of a source of n bytes: the answer, a row for each statement, a row for each label.
pub fn parse(
    w: Width,
    n: u32,
    t: &[u32; Machine::TOKEN_WORDS],
    rows: &mut [u32; Outline::WORDS],
    labels: &mut [u32; Outline::LABEL_WORDS],
) -> Result<RowCounts, Refusal>
    ensures { parsed result rows.new labels.new ≡ outline_of w t.now n }
{
    parse_all(w, n, t, rows, labels)
}
