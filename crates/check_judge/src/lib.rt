// Judges a source by every rule but 16, into scratch of the caller's; sees no lent buffer.
#![tactic(auto)]

ghost use Rattle.std.specs.Prelude.{◌≡◌, ◌≤◌, length};
ghost use Rattle.base_limits.specs.Limits as limits;
ghost use Rattle.res_exports.specs.Exports.{exported};
ghost use Rattle.res_scope.specs.Names.{same_number};
ghost use Rattle.res_hosts.specs.Marks.{host_list};
ghost use Rattle.res_skeleton.specs.Skeleton.{skeleton_of};
ghost use Rattle.check_judge.specs.Judge.{names_judged, line_group, judge_of};
ghost use Rattle.check_judge.specs.Judged.{judged};

use base_limits::{Machine, Refusal, Width};
use parse_outline::Outline;
use prog_tables::Table;

// The numbers of tokens, statements, labels and data bytes.
#[derive(Clone, Copy)]
pub struct Counts {
    pub tokens: u32,
    pub statements: u32,
    pub labels: u32,
    pub size: u32,
}

// No fault: above every key.
const NONE: u64 = 1099511627776;

// The least fault of all names; and in `flags` 1 for each label that is exported.
fn names_fault(
    t: &[u32; Machine::TOKEN_WORDS],
    m: u32,
    k: &[u32; Table::STATEMENT_WORDS],
    y: &[u32; Outline::LABEL_WORDS],
    l: u32,
    c: u32,
    flags: &mut [u32; Machine::LABELS],
) -> u64
    ensures { exported result flags.new ≡ names_judged (same_number t.now) t.now m k.now y.now l c }
{
    let mut uses = [0u32; Machine::LABELS];
    let a = res_names::judge_names(t, m, k, y, l, c, &mut uses);
    let e = res_exports::judge_exports(t, m, y, l, &uses, flags);
    base_prelude::least(a, e)
}

fn make_skeleton(x: &[u32; Outline::WORDS], c: u32, k: &mut [u32; Table::STATEMENT_WORDS])
    requires { c ≤ limits.statements }
    ensures { k.new ≡ skeleton_of x.now c }
{
    res_skeleton::make_skeleton(x, c, k);
}

// The groups behind the tokens; m is the number of the source's bytes.
fn judge_tokens(
    w: Width,
    m: u32,
    t: &[u32; Machine::TOKEN_WORDS],
    n: u32,
    k: &mut [u32; Table::STATEMENT_WORDS],
    y: &mut [u32; Outline::LABEL_WORDS],
    flags: &mut [u32; Machine::LABELS],
) -> Result<Counts, Refusal>
    requires { length t.now ≡ limits.token_words }
    ensures { judged result t.now k.new y.new flags.new ≡ line_group w (same_number t.now) m n t.now }
{
    let mut x = [0u32; Outline::WORDS];
    let p = parse_outline::parse(w, m, t, &mut x, y)?;
    make_skeleton(&x, p.statements, k);
    let fault = names_fault(t, m, k, y, p.labels, p.statements, flags);
    if fault < NONE {
        return Err(parse_outline::refusal_of(fault));
    }
    match res_data::measure(w, t, 4098) {
        Ok(size) => Ok(Counts {
            tokens: n,
            statements: p.statements,
            labels: p.labels,
            size,
        }),
        Err(i) => Err(Refusal {
            number: 15,
            place: parse_lines::place_at(t, m, i) as usize,
        }),
    }
}

// Judges a source against the host's list: a source without a fault has its tokens in t, the names of its imports marked, its statements in k,
// its label rows in y, and 1 in `flags` for each label that is exported. After a refusal they hold anything.
pub fn judge(
    w: Width,
    s: &[u8],
    hosts: &[u32],
    host_names: &[u8],
    t: &mut [u32; Machine::TOKEN_WORDS],
    k: &mut [u32; Table::STATEMENT_WORDS],
    y: &mut [u32; Outline::LABEL_WORDS],
    flags: &mut [u32; Machine::LABELS],
) -> Result<Counts, Refusal>
    ensures { judged result t.new k.new y.new flags.new ≡ judge_of w (host_list hosts.now host_names.now) s.now }
{
    let n = lex_source::lex(w, s, t)? as u32;
    res_hosts::mark_hosts(s, n, hosts, host_names, t);
    let m = (s.len() as u64 % Machine::WORD_VALUES) as u32;
    judge_tokens(w, m, t, n, k, y, flags)
}
