// Nesting and frames: targets, what a frame needs, the words of lets and blocks, the locals in scope.
#![tactic(auto)]

ghost use Rattle.std.specs.Prelude.{◌≡◌, ◌+◌, ◌*◌, ◌≤◌, ◌<◌, max};
ghost use Rattle.base_limits.specs.Limits.{statements};
ghost use Rattle.prog_tables.specs.Statement.{row_at};
ghost use Rattle.prog_tables.specs.Nesting.{is_arm, is_end_if, next_arm, end_if_of, target_of, encloses};
ghost use Rattle.prog_tables.specs.Frames.{frame_depth, is_in, lets_before, need_of, first_let, block_word, let_word, let_seen, locals_at};

use lang_kinds::Kind;
use prog_tables::Table;

// Whether a row is of a kind and stands in a frame.
pub fn is_in(t: &[u32], k: u32, s: u32, i: u32) -> bool
    ensures { result ≡ is_in (row_at t.now) k s i }
{
    prog_tables::kind_at(t, i) == k && prog_tables::scope_at(t, i) == s
}

// The lets of a frame before a row.
pub fn lets_before(t: &[u32], s: u32, n: u32) -> u32
    ensures { (result ≡ lets_before (row_at t.now) s n) × (result ≤ n) }
{
    let mut lets: u32 = 0;
    for i in 0..n {
        if is_in(t, Kind::LET, s, i) {
            lets += 1;
        }
    }
    lets
}

// The words a frame needs, by recursion with the remaining depth of frames falling.
pub fn need(t: &[u32], c: u32, depth: u32, s: u32) -> u32
    requires { (c ≤ statements) × (depth ≤ frame_depth) }
    ensures { (result ≡ need_of (row_at t.now) c depth s) × (result ≤ depth * 2000) }
{
    if depth == 0 {
        return 0;
    }
    let lets = lets_before(t, s, c);
    let mut most: u32 = 0;
    for i in 0..c {
        if is_in(t, Kind::BLOCK, s, i) {
            let w = need(t, c, depth - 1, i);
            most = most.max(w + 1);
        }
    }
    lets + most
}

// Whether a row changes or ends an if, with u around it.
fn is_arm(t: &[u32], u: u32, i: u32) -> bool
    ensures { result ≡ is_arm (row_at t.now) u i }
{
    prog_tables::up_at(t, i) == u && matches!(prog_tables::kind_at(t, i), Kind::ELSE..=Kind::END_IF)
}

// Whether a row ends an if, with u around it.
fn is_end_if(t: &[u32], u: u32, i: u32) -> bool
    ensures { result ≡ is_end_if (row_at t.now) u i }
{
    prog_tables::up_at(t, i) == u && prog_tables::kind_at(t, i) == Kind::END_IF
}

// The next arm of the if that a row belongs to; c without any.
pub fn next_arm(t: &[u32], c: u32, n: u32) -> u32
    requires { n < c }
    ensures { (result ≡ next_arm (row_at t.now) c n) × (result ≤ c) }
{
    let u = prog_tables::up_at(t, n);
    (n + 1..c).find(|&i| is_arm(t, u, i)).unwrap_or(c)
}

// The `end if` of the if that a row belongs to; c without any.
pub fn end_if_of(t: &[u32], c: u32, n: u32) -> u32
    requires { n < c }
    ensures { (result ≡ end_if_of (row_at t.now) c n) × (result ≤ c) }
{
    let u = prog_tables::up_at(t, n);
    (n + 1..c).find(|&i| is_end_if(t, u, i)).unwrap_or(c)
}

// Where a false test, an else or an else-if jump goes.
pub fn target_of(t: &[u32], c: u32, n: u32) -> u32
    requires { (n < c) × (c ≤ statements) }
    ensures { result ≡ target_of (row_at t.now) c n }
{
    let k = prog_tables::kind_at(t, n);
    if prog_tables::is_test(k) {
        let m = next_arm(t, c, n);
        let j = prog_tables::kind_at(t, m);
        if j == Kind::END_IF {
            return m;
        }
        return m + 1;
    }
    end_if_of(t, c, n)
}

// Whether frame e is frame s or stands around it, by recursion with the remaining frames falling.
pub fn is_around(t: &[u32], fuel: u32, e: u32, s: u32) -> bool
    ensures { result ≡ encloses (row_at t.now) fuel e s }
{
    if fuel == 0 {
        return s == e;
    }
    if s == e {
        return true;
    }
    prog_tables::kind_at(t, s) == Kind::BLOCK
        && is_around(t, fuel - 1, e, prog_tables::scope_at(t, s))
}

// The word of a frame's first let, by recursion with the remaining frames falling.
pub fn first_let(t: &[u32], c: u32, fuel: u32, s: u32) -> u64
    requires { (c ≤ statements) × (fuel ≤ frame_depth) }
    ensures { (result ≡ first_let (row_at t.now) c fuel s) × (result ≤ 4294967300 + fuel * 2000) }
{
    if fuel == 0 {
        return 0;
    }
    let k = prog_tables::kind_at(t, s);
    if k == Kind::BLOCK {
        let e = prog_tables::scope_at(t, s);
        let w = first_let(t, c, fuel - 1, e);
        let lets = lets_before(t, e, c);
        return w + u64::from(lets) + 1;
    }
    let p = prog_tables::parameters_at(t, s);
    3 + u64::from(p)
}

// The word in which a block saves the auto top.
pub fn block_word(t: &[u32], c: u32, s: u32) -> u64
    requires { c ≤ statements }
    ensures { result ≡ block_word (row_at t.now) c s }
{
    let e = prog_tables::scope_at(t, s);
    let w = first_let(t, c, Table::FRAME_DEPTH, e);
    let lets = lets_before(t, e, c);
    w + u64::from(lets)
}

// The word of a let.
pub fn let_word(t: &[u32], c: u32, n: u32) -> u64
    requires { c ≤ statements }
    ensures { result ≡ let_word (row_at t.now) c n }
{
    let e = prog_tables::scope_at(t, n);
    let w = first_let(t, c, Table::FRAME_DEPTH, e);
    let lets = lets_before(t, e, n);
    w + u64::from(lets)
}

// Whether the let at row i is in scope in frame s.
fn is_seen(t: &[u32], s: u32, i: u32) -> bool
    ensures { result ≡ let_seen (row_at t.now) s i }
{
    prog_tables::kind_at(t, i) == Kind::LET
        && is_around(t, Table::FRAME_DEPTH, prog_tables::scope_at(t, i), s)
}

// The locals in scope at a row, parameters included.
pub fn locals_at(t: &[u32], n: u32) -> u64
    ensures { result ≡ locals_at (row_at t.now) n }
{
    let s = prog_tables::scope_at(t, n);
    let p = prog_tables::parameters_at(t, prog_tables::func_at(t, n));
    let mut seen: u32 = 0;
    for i in 0..n {
        if is_seen(t, s, i) {
            seen += 1;
        }
    }
    u64::from(p) + u64::from(seen)
}
