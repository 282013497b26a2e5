// The rules on names: unknown names, wrong kinds, second names, argument counts; and the first use of each label.
#![tactic(auto)]

ghost use Rattle.std.specs.Prelude.{◌≡◌, ◌+◌, ◌-◌, ◌≤◌, ◌<◌, length};
ghost use Rattle.base_limits.specs.Limits as limits;
ghost use Rattle.base_prelude.specs.Fault.{none};
ghost use Rattle.res_scope.specs.Names.{same_number, meaning_of};
ghost use Rattle.res_names.specs.Naming.{data_fault, value_fault, set_fault, import_fault, function_fault, callee_fault, place_fault, goto_fault, parameter_taken, local_taken, let_fault, parameter_fault, label_fault, naming, judged, mark_use, use_of, value_part, operands_part, callee_part, set_part, goto_part, parameters_fault, declared_fault, head_part, body_part, statement_part, statements_part, labels_fault, names_of};

use lang_kinds::{Kind, Token};
use prog_tables::LabelKind;
use res_scope::{Meaning, Parts};

// No fault: above every key.
const NONE: u64 = 1099511627776;

fn data_fault(t: &[u32], n: u32, y: &[u32], i: u32, j: u32) -> u64
    ensures { result ≡ data_fault t.now n y.now i j }
{
    if res_scope::label_kind(y, j) == LabelKind::DATA {
        return NONE;
    }
    parse_lines::key_at(t, n, i, 11)
}

fn value_fault(t: &[u32], n: u32, y: &[u32], i: u32, m: Meaning) -> u64
    ensures { result ≡ value_fault t.now n y.now i m }
{
    match m {
        Meaning::Let(_) => NONE,
        Meaning::Parameter(_) => NONE,
        Meaning::Label(j) => data_fault(t, n, y, i, j),
        Meaning::Unknown => parse_lines::key_at(t, n, i, 10),
    }
}

fn set_fault(t: &[u32], n: u32, i: u32, m: Meaning) -> u64
    ensures { result ≡ set_fault t.now n i m }
{
    match m {
        Meaning::Let(_) => NONE,
        Meaning::Parameter(_) => NONE,
        Meaning::Label(_) => parse_lines::key_at(t, n, i, 11),
        Meaning::Unknown => parse_lines::key_at(t, n, i, 10),
    }
}

fn import_fault(t: &[u32], n: u32, y: &[u32], i: u32, count: u32, j: u32) -> u64
    ensures { result ≡ import_fault t.now n y.now i count j }
{
    if res_scope::label_kind(y, j) == LabelKind::IMPORT {
        if res_scope::label_arguments(y, j) == count {
            return NONE;
        }
        return parse_lines::key_at(t, n, i, 13);
    }
    parse_lines::key_at(t, n, i, 11)
}

fn function_fault(t: &[u32], n: u32, k: &[u32], y: &[u32], i: u32, count: u32, j: u32) -> u64
    ensures { result ≡ function_fault t.now n k.now y.now i count j }
{
    if res_scope::label_kind(y, j) == LabelKind::FUNCTION {
        if prog_tables::parameters_at(k, res_scope::label_statement(y, j)) == count {
            return NONE;
        }
        return parse_lines::key_at(t, n, i, 13);
    }
    import_fault(t, n, y, i, count, j)
}

fn callee_fault(t: &[u32], n: u32, k: &[u32], y: &[u32], i: u32, count: u32, m: Meaning) -> u64
    ensures { result ≡ callee_fault t.now n k.now y.now i count m }
{
    match m {
        Meaning::Let(_) => parse_lines::key_at(t, n, i, 11),
        Meaning::Parameter(_) => parse_lines::key_at(t, n, i, 11),
        Meaning::Label(j) => function_fault(t, n, k, y, i, count, j),
        Meaning::Unknown => parse_lines::key_at(t, n, i, 10),
    }
}

fn place_fault(t: &[u32], n: u32, k: &[u32], y: &[u32], r: u32, i: u32, j: u32) -> u64
    ensures { result ≡ place_fault t.now n k.now y.now r i j }
{
    if res_scope::label_kind(y, j) == LabelKind::PLACE {
        let m = res_scope::label_statement(y, j);
        if prog_tables::func_at(k, m) == prog_tables::func_at(k, r) {
            if prog_tables::scope_at(k, m) == prog_tables::scope_at(k, r) {
                return NONE;
            }
            return parse_lines::key_at(t, n, i, 11);
        }
        return parse_lines::key_at(t, n, i, 11);
    }
    parse_lines::key_at(t, n, i, 11)
}

fn goto_fault(t: &[u32], n: u32, k: &[u32], y: &[u32], r: u32, i: u32, m: Meaning) -> u64
    ensures { result ≡ goto_fault t.now n k.now y.now r i m }
{
    match m {
        Meaning::Let(_) => parse_lines::key_at(t, n, i, 11),
        Meaning::Parameter(_) => parse_lines::key_at(t, n, i, 11),
        Meaning::Label(j) => place_fault(t, n, k, y, r, i, j),
        Meaning::Unknown => parse_lines::key_at(t, n, i, 10),
    }
}

fn is_parameter_taken(t: &[u32], k: &[u32], f: u32, i: u32) -> bool
    ensures { result ≡ parameter_taken (same_number t.now) k.now f i }
{
    res_scope::find_parameter(t, k, f, i) < res_scope::end_token(k, f)
}

fn is_local_taken(t: &[u32], k: &[u32], s: u32, r: u32, i: u32) -> bool
    ensures { result ≡ local_taken (same_number t.now) k.now s r i }
{
    let m = res_scope::find_let_here(t, k, s, r, i);
    if m < r {
        return true;
    }
    if prog_tables::kind_at(k, s) == Kind::FUNCTION {
        return is_parameter_taken(t, k, s, i);
    }
    false
}

fn let_fault(t: &[u32], n: u32, k: &[u32], r: u32, i: u32) -> u64
    ensures { result ≡ let_fault (same_number t.now) t.now n k.now r i }
{
    if is_local_taken(t, k, prog_tables::scope_at(k, r), r, i) {
        return parse_lines::key_at(t, n, i, 12);
    }
    NONE
}

fn parameter_fault(t: &[u32], n: u32, k: &[u32], r: u32, q: u32) -> u64
    ensures { result ≡ parameter_fault (same_number t.now) t.now n k.now r q }
{
    if res_scope::find_parameter(t, k, r, q) < q {
        return parse_lines::key_at(t, n, q, 12);
    }
    NONE
}

fn label_fault(t: &[u32], n: u32, y: &[u32], l: u32, j: u32) -> u64
    ensures { result ≡ label_fault (same_number t.now) t.now n y.now l j }
{
    let i = res_scope::label_token(y, j);
    if res_scope::find_label(t, y, l, i) < j {
        return parse_lines::key_at(t, n, i, 12);
    }
    NONE
}

fn put_use(u: &mut [u32], w: usize, i: u32)
    requires { w < length u.old }
    ensures { u.new ≡ mark_use i w u.old }
{
    if u[w] == 0 {
        u[w] = i;
    }
}

fn mark_use(u: &mut [u32], i: u32, j: u32)
    ensures { u.new ≡ mark_use i j u.old }
{
    let w = j as usize;
    if w < u.len() {
        put_use(u, w, i);
    }
}

fn use_of(u: &mut [u32], i: u32, m: Meaning)
    ensures { u.new ≡ use_of i m u.old }
{
    if let Meaning::Label(j) = m {
        mark_use(u, i, j);
    }
}

fn value_name(
    t: &[u32],
    n: u32,
    k: &[u32],
    y: &[u32],
    l: u32,
    u: &mut [u32],
    r: u32,
    i: u32,
    best: u64,
) -> u64
    ensures { naming result u.new ≡ judged i (value_fault t.now n y.now i (meaning_of (same_number t.now) k.now y.now l r i)) (meaning_of (same_number t.now) k.now y.now l r i) (naming best u.old) }
{
    let m = res_scope::meaning_of(t, k, y, l, r, i);
    use_of(u, i, m);
    base_prelude::least(best, value_fault(t, n, y, i, m))
}

fn value_part(
    t: &[u32],
    n: u32,
    k: &[u32],
    y: &[u32],
    l: u32,
    u: &mut [u32],
    r: u32,
    i: u32,
    best: u64,
) -> u64
    ensures { naming result u.new ≡ value_part (same_number t.now) t.now n k.now y.now l r i (naming best u.old) }
{
    let kind = parse_lines::kind_at(t, i);
    if kind == Token::SYMBOL {
        return value_name(t, n, k, y, l, u, r, i, best);
    }
    if kind == Token::AT_SYMBOL {
        return value_name(t, n, k, y, l, u, r, i, best);
    }
    best
}

fn operands_part(
    t: &[u32],
    n: u32,
    k: &[u32],
    y: &[u32],
    l: u32,
    u: &mut [u32],
    r: u32,
    first: u32,
    next: u32,
    start: u64,
) -> u64
    ensures { naming result u.new ≡ operands_part (next - first) (same_number t.now) t.now n k.now y.now l r first (naming start u.old) }
{
    let mut best = start;
    for i in first..next {
        best = value_part(t, n, k, y, l, u, r, i, best);
    }
    best
}

fn callee_part(
    t: &[u32],
    n: u32,
    k: &[u32],
    y: &[u32],
    l: u32,
    u: &mut [u32],
    r: u32,
    i: u32,
    count: u32,
    best: u64,
) -> u64
    ensures { naming result u.new ≡ callee_part (same_number t.now) t.now n k.now y.now l r i count (naming best u.old) }
{
    if i == 0 {
        return best;
    }
    let m = res_scope::meaning_of(t, k, y, l, r, i);
    use_of(u, i, m);
    base_prelude::least(best, callee_fault(t, n, k, y, i, count, m))
}

fn set_part(
    t: &[u32],
    n: u32,
    k: &[u32],
    y: &[u32],
    l: u32,
    u: &mut [u32],
    r: u32,
    i: u32,
    best: u64,
) -> u64
    ensures { naming result u.new ≡ set_part (same_number t.now) t.now n k.now y.now l r i (naming best u.old) }
{
    let m = res_scope::meaning_of(t, k, y, l, r, i);
    use_of(u, i, m);
    base_prelude::least(best, set_fault(t, n, i, m))
}

fn goto_part(
    t: &[u32],
    n: u32,
    k: &[u32],
    y: &[u32],
    l: u32,
    u: &mut [u32],
    r: u32,
    i: u32,
    best: u64,
) -> u64
    ensures { naming result u.new ≡ goto_part (same_number t.now) t.now n k.now y.now l r i (naming best u.old) }
{
    let m = res_scope::meaning_of(t, k, y, l, r, i);
    use_of(u, i, m);
    base_prelude::least(best, goto_fault(t, n, k, y, r, i, m))
}

fn parameters_fault(t: &[u32], n: u32, k: &[u32], r: u32, first: u32, end: u32, start: u64) -> u64
    ensures { result ≡ parameters_fault (end - first) (same_number t.now) t.now n k.now r first start }
{
    let mut best = start;
    for q in first..end {
        best = base_prelude::least(best, parameter_fault(t, n, k, r, q));
    }
    best
}

fn declared_fault(t: &[u32], n: u32, k: &[u32], r: u32, kind: u32, best: u64) -> u64
    ensures { result ≡ declared_fault (same_number t.now) t.now n k.now r kind best }
{
    let i = res_scope::first_token(k, r) + 1;
    if kind == Kind::FUNCTION {
        return parameters_fault(t, n, k, r, i, res_scope::end_token(k, r), best);
    }
    if kind == Kind::LET {
        return base_prelude::least(best, let_fault(t, n, k, r, i));
    }
    best
}

fn head_part(
    t: &[u32],
    n: u32,
    k: &[u32],
    y: &[u32],
    l: u32,
    u: &mut [u32],
    r: u32,
    kind: u32,
    best: u64,
) -> u64
    ensures { naming result u.new ≡ head_part (same_number t.now) t.now n k.now y.now l r kind (naming best u.old) }
{
    let i = res_scope::first_token(k, r) + 1;
    if kind == Kind::SET {
        return set_part(t, n, k, y, l, u, r, i, best);
    }
    if kind == Kind::SET_AT {
        return value_part(t, n, k, y, l, u, r, i, best);
    }
    if kind == Kind::GOTO {
        return goto_part(t, n, k, y, l, u, r, i, best);
    }
    best
}

fn body_part(
    t: &[u32],
    n: u32,
    k: &[u32],
    y: &[u32],
    l: u32,
    u: &mut [u32],
    r: u32,
    p: Parts,
    next: u32,
    best: u64,
) -> u64
    ensures { naming result u.new ≡ body_part (same_number t.now) t.now n k.now y.now l r p next (naming best u.old) }
{
    let count = next.saturating_sub(p.first);
    let found = callee_part(t, n, k, y, l, u, r, p.callee, count, best);
    operands_part(t, n, k, y, l, u, r, p.first, next, found)
}

fn statement_part(
    t: &[u32],
    n: u32,
    k: &[u32],
    y: &[u32],
    l: u32,
    u: &mut [u32],
    r: u32,
    best: u64,
) -> u64
    ensures { naming result u.new ≡ statement_part (same_number t.now) t.now n k.now y.now l r (naming best u.old) }
{
    let kind = prog_tables::kind_at(k, r);
    let declared = declared_fault(t, n, k, r, kind, best);
    let head = head_part(t, n, k, y, l, u, r, kind, declared);
    let next = res_scope::end_token(k, r);
    let p = res_scope::parts_of(t, kind, res_scope::first_token(k, r), next);
    body_part(t, n, k, y, l, u, r, p, next, head)
}

fn statements_part(
    t: &[u32],
    n: u32,
    k: &[u32],
    y: &[u32],
    l: u32,
    u: &mut [u32],
    c: u32,
    start: u64,
) -> u64
    ensures { naming result u.new ≡ statements_part c (same_number t.now) t.now n k.now y.now l 0 (naming start u.old) }
{
    let mut best = start;
    for r in 0..c {
        best = statement_part(t, n, k, y, l, u, r, best);
    }
    best
}

fn labels_fault(t: &[u32], n: u32, y: &[u32], l: u32) -> u64
    ensures { result ≡ labels_fault l (same_number t.now) t.now n y.now l 0 none }
{
    let mut best = NONE;
    for j in 0..l {
        best = base_prelude::least(best, label_fault(t, n, y, l, j));
    }
    best
}

// The names of c statements and l labels: the least fault, and in u for each label the first token that means it.
pub fn judge_names(t: &[u32], n: u32, k: &[u32], y: &[u32], l: u32, c: u32, u: &mut [u32]) -> u64
    requires { length u.old ≡ limits.labels }
    ensures { naming result u.new ≡ names_of (same_number t.now) t.now n k.now y.now l c }
{
    base_prelude::clear_from(u, 0);
    let labels = labels_fault(t, n, y, l);
    statements_part(t, n, k, y, l, u, c, labels)
}
