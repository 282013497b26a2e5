// Exports: which label each one exports, and the refusals 10, 11 and 17 at its name; those at an import's name.
#![tactic(auto)]

ghost use Rattle.std.specs.Prelude.{◌≡◌, ◌+◌, ◌-◌, ◌≤◌, ◌<◌, min, eqb, length, get_or};
ghost use Rattle.base_limits.specs.Limits as limits;
ghost use Rattle.res_scope.specs.Lines.{label_token};
ghost use Rattle.base_prelude.specs.Fault.{none};
ghost use Rattle.res_scope.specs.Names.{same_number};
ghost use Rattle.res_exports.specs.Fits.{UnitFits};
ghost use Rattle.res_exports.specs.Exports.{is_definition, ends_search, seek_on, seek_step, sought, definition_from, carries_label, carried_by, use_fault, missing_fault, export_fault, label_at_token, import_use, import_fault, exported, world, flagged, judged_by, export_part, export_step, going, exports_from, exports_of};

use lang_kinds::Kind;
use parse_lines::Span;
use std::ops::ControlFlow;

// No fault: above every key.
const NONE: u64 = 1099511627776;

// Between two units: the next token, the least fault so far.
#[derive(Drop)]
pub struct Exports {
    pub at: u32,
    pub best: u64,
}

fn is_definition(k: u32) -> bool
    ensures { result ≡ is_definition k }
{
    matches!(
        k,
        Kind::FUNCTION | Kind::BYTE | Kind::WORD | Kind::STRING | Kind::GROUP
    )
}

fn ends_search(k: u32) -> bool
    ensures { result ≡ ends_search k }
{
    matches!(k, Kind::EDGE | Kind::SECTION_DATA | Kind::SECTION_FUNCTIONS)
}

// A search for a definition goes on at a token, or is over at a unit.
fn seek_on(u: Span, k: u32) -> ControlFlow<Span, u32>
    ensures { sought result ≡ seek_on u k }
{
    if is_definition(k) {
        return ControlFlow::Break(u);
    }
    if ends_search(k) {
        return ControlFlow::Break(Span {
            first: 0,
            word: 0,
            next: 0,
        });
    }
    ControlFlow::Continue(u.next)
}

fn seek_step(t: &[u32], at: u32) -> ControlFlow<Span, u32>
    requires { UnitFits t.now at }
    ensures { sought result ≡ seek_step t.now at }
{
    let u = parse_lines::unit_at(t, at);
    let k = parse_lines::line_kind(t, u.word);
    seek_on(u, k)
}

fn find_definition(t: &[u32], from: u32) -> Span
    requires { UnitFits t.now from }
    ensures { result ≡ definition_from t.now from }
{
    let mut at = from;
    // A loop, not a for: each unit says where the next one begins.
    loop {
        match seek_step(t, at) {
            ControlFlow::Continue(x) => at = x,
            ControlFlow::Break(u) => return u,
        }
    }
}

fn carries_label(t: &[u32], y: &[u32], first: u32, word: u32, i: u32, j: u32) -> bool
    ensures { result ≡ carries_label (same_number t.now) y.now first word i j }
{
    let q = res_scope::label_token(y, j);
    if q < first {
        return false;
    }
    if q < word {
        return res_scope::same_name(t, q, i);
    }
    false
}

fn carried_by(t: &[u32], y: &[u32], l: u32, first: u32, word: u32, i: u32) -> u32
    ensures { result ≡ carried_by (same_number t.now) y.now l first word i }
{
    (0..l)
        .find(|&j| carries_label(t, y, first, word, i, j))
        .unwrap_or(l)
}

fn use_fault(t: &[u32], n: u32, i: u32, q: u32) -> u64
    ensures { result ≡ use_fault t.now n i q }
{
    if q == 0 {
        return NONE;
    }
    if q < i {
        return parse_lines::key_at(t, n, i, 17);
    }
    NONE
}

fn missing_fault(t: &[u32], n: u32, y: &[u32], l: u32, i: u32) -> u64
    ensures { result ≡ missing_fault (same_number t.now) t.now n y.now l i }
{
    if res_scope::find_label(t, y, l, i) < l {
        return parse_lines::key_at(t, n, i, 11);
    }
    parse_lines::key_at(t, n, i, 10)
}

fn export_fault(t: &[u32], n: u32, y: &[u32], l: u32, uses: &[u32], i: u32, j: u32) -> u64
    ensures { result ≡ export_fault (same_number t.now) t.now n y.now l uses.now i j }
{
    if j < l {
        return use_fault(t, n, i, prog_tables::word_at(uses, j as usize));
    }
    missing_fault(t, n, y, l, i)
}

// The label that stands at token i, l for none.
fn label_at(y: &[u32], l: u32, i: u32) -> u32
    ensures { result ≡ label_at_token y.now l i }
{
    (0..l)
        .find(|&j| res_scope::label_token(y, j) == i)
        .unwrap_or(l)
}

fn import_use(t: &[u32], n: u32, l: u32, uses: &[u32], i: u32, j: u32) -> u64
    ensures { result ≡ import_use t.now n l uses.now i j }
{
    let q = prog_tables::word_at(uses, j as usize);
    if j < l {
        return use_fault(t, n, i, q);
    }
    NONE
}

fn import_fault(t: &[u32], n: u32, y: &[u32], l: u32, uses: &[u32], i: u32) -> u64
    ensures { result ≡ import_fault t.now n y.now l uses.now i }
{
    if parse_lines::host_at(t, i) == 0 {
        return parse_lines::key_at(t, n, i, 10);
    }
    import_use(t, n, l, uses, i, label_at(y, l, i))
}

fn flag(flags: &mut [u32], l: u32, j: u32)
    ensures { flags.new ≡ flagged l j flags.old }
{
    if l <= j {
        return;
    }
    let w = j as usize;
    if w < flags.len() {
        flags[w] = 1;
    }
}

fn judge_export(
    t: &[u32],
    n: u32,
    y: &[u32],
    l: u32,
    uses: &[u32],
    flags: &mut [u32],
    i: u32,
    j: u32,
    best: u64,
) -> u64
    ensures { exported result flags.new ≡ judged_by (same_number t.now) t.now n y.now l uses.now i j (exported best flags.old) }
{
    flag(flags, l, j);
    base_prelude::least(best, export_fault(t, n, y, l, uses, i, j))
}

fn export_part(
    t: &[u32],
    n: u32,
    y: &[u32],
    l: u32,
    uses: &[u32],
    flags: &mut [u32],
    u: Span,
    k: u32,
    best: u64,
) -> u64
    requires { (length t.now ≡ limits.token_words) × (u.word ≤ limits.tokens + 1) × (u.next ≤ limits.tokens + 1) }
    ensures { exported result flags.new ≡ export_part (same_number t.now) t.now n y.now l uses.now u k (exported best flags.old) }
{
    if k == Kind::EXPORT {
        let d = find_definition(t, u.next);
        let j = carried_by(t, y, l, d.first, d.word, u.word + 1);
        return judge_export(t, n, y, l, uses, flags, u.word + 1, j, best);
    }
    if k == Kind::IMPORT_LINE {
        return base_prelude::least(best, import_fault(t, n, y, l, uses, u.word + 1));
    }
    best
}

// One unit leads on to the next, or to the least fault of all.
fn export_step(
    t: &[u32],
    n: u32,
    y: &[u32],
    l: u32,
    uses: &[u32],
    flags: &mut [u32],
    s: Exports,
) -> ControlFlow<u64, Exports>
    requires { UnitFits t.now s.at }
    ensures { going result flags.new ≡ export_step (same_number t.now) t.now n y.now l uses.now (world s flags.old) }
{
    let u = parse_lines::unit_at(t, s.at);
    let k = parse_lines::line_kind(t, u.word);
    if k == Kind::EDGE {
        return ControlFlow::Break(s.best);
    }
    let best = export_part(t, n, y, l, uses, flags, u, k, s.best);
    ControlFlow::Continue(Exports { at: u.next, best })
}

fn exports_from(
    t: &[u32],
    n: u32,
    y: &[u32],
    l: u32,
    uses: &[u32],
    flags: &mut [u32],
    start: Exports,
) -> u64
    requires { UnitFits t.now start.at }
    ensures { exported result flags.new ≡ exports_from (same_number t.now) t.now n y.now l uses.now (world start flags.old) }
{
    let mut s = start;
    // A loop, not a for: each unit says where the next one begins.
    loop {
        match export_step(t, n, y, l, uses, flags, s) {
            ControlFlow::Continue(x) => s = x,
            ControlFlow::Break(best) => return best,
        }
    }
}

// The exports and imports of the tokens t of a source of n bytes: the least fault, and in `flags` 1 for each label that is exported.
// A function of its own in the compiled code too: inside that of the check its walks took a quarter more time.
#[inline(never)]
pub fn judge_exports(t: &[u32], n: u32, y: &[u32], l: u32, uses: &[u32], flags: &mut [u32]) -> u64
    requires { (length t.now ≡ limits.token_words) × (length flags.old ≡ limits.labels) }
    ensures { exported result flags.new ≡ exports_of (same_number t.now) t.now n y.now l uses.now }
{
    base_prelude::clear_from(flags, 0);
    exports_from(t, n, y, l, uses, flags, Exports { at: 0, best: NONE })
}
