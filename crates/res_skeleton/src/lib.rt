// The skeleton of the statement table: what nesting alone gives each row, and the tokens of its line.
#![tactic(auto)]

ghost use Rattle.std.specs.Prelude.{◌≡◌, ◌+◌, ◌*◌, ◌-◌, ◌≤◌, ◌<◌, length};
ghost use Rattle.prog_tables.specs.Layout.{statement_words};
ghost use Rattle.base_limits.specs.Limits as limits;
ghost use Rattle.parse_units.specs.Outline.{row_at};
ghost use Rattle.res_skeleton.specs.Skeleton.{parameters_of, bare, statement_of, put_row, rows_in, skeleton_of};

use lang_kinds::Kind;
use parse_units::OutlineRow;
use prog_tables::{StatementRow, Table};

// What a row has; all its other words are 0.
#[derive(Drop)]
pub struct SkeletonRow {
    pub kind: u32,
    pub func: u32,
    pub scope: u32,
    pub up: u32,
    pub b: u32,
    pub token: u32,
    pub next: u32,
}

fn parameters_of(kind: u32, operands: u32) -> u32
    ensures { result ≡ parameters_of kind operands }
{
    if kind == Kind::FUNCTION {
        return operands;
    }
    0
}

fn bare_row(x: &[u32], n: u32) -> SkeletonRow
    ensures { result ≡ bare (row_at x.now n) }
{
    let kind = parse_lines::token_word(x, n, OutlineRow::KIND);
    SkeletonRow {
        kind,
        func: parse_lines::token_word(x, n, OutlineRow::FUNC).saturating_sub(1),
        scope: parse_lines::token_word(x, n, OutlineRow::SCOPE).saturating_sub(1),
        up: parse_lines::token_word(x, n, OutlineRow::UP),
        b: parameters_of(kind, parse_lines::token_word(x, n, OutlineRow::OPERANDS)),
        token: parse_lines::token_word(x, n, OutlineRow::TOKEN),
        next: parse_lines::token_word(x, n, OutlineRow::NEXT),
    }
}

fn put_row(k: &mut [u32], n: u32, r: SkeletonRow)
    requires { (n < limits.statements) × (length k.old ≡ statement_words) }
    ensures { k.new ≡ put_row k.old n r }
{
    let w = n as usize * Table::STATEMENT_ROW;
    k[w] = r.kind;
    k[w + StatementRow::FUNC] = r.func;
    k[w + StatementRow::SCOPE] = r.scope;
    k[w + StatementRow::UP] = r.up;
    k[w + StatementRow::A] = 0;
    k[w + StatementRow::B] = r.b;
    k[w + StatementRow::EXPR] = 0;
    k[w + StatementRow::CALLEE] = 0;
    k[w + StatementRow::COUNT] = 0;
    k[w + StatementRow::TOKEN] = r.token;
    k[w + StatementRow::NEXT] = r.next;
}

fn put_statement(x: &[u32], n: u32, k: &mut [u32])
    requires { (n < limits.statements) × (length k.old ≡ statement_words) }
    ensures { k.new ≡ put_row k.old n (statement_of x.now n) }
{
    let r = bare_row(x, n + 1);
    put_row(k, n, r);
}

fn put_rows(x: &[u32], c: u32, k: &mut [u32])
    requires { (c ≤ limits.statements) × (length k.old ≡ statement_words) }
    ensures { k.new ≡ rows_in k.old x.now c }
{
    for n in 0..c {
        put_statement(x, n, k);
    }
}

// The rows of c statements of the outline x; the words are cleared first.
pub fn make_skeleton(x: &[u32], c: u32, k: &mut [u32])
    requires { (c ≤ limits.statements) × (length k.old ≡ statement_words) }
    ensures { k.new ≡ skeleton_of x.now c }
{
    base_prelude::clear_from(k, 0);
    put_rows(x, c, k);
}
