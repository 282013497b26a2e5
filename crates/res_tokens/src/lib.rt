// The lent token table: the tokens' rows, and which statement each token begins.
#![tactic(auto)]

ghost use Rattle.std.specs.Prelude.{◌≡◌, ◌*◌, ◌≤◌, ◌<◌, length};
ghost use Rattle.base_limits.specs.Limits as limits;
ghost use Rattle.base_limits.specs.Limits.{token_row};
ghost use Rattle.res_tokens.specs.TokenTable.{copied, statement_marked, statements_marked, unmarked, token_table};

use base_limits::Machine;
use lang_kinds::TokenRow;

fn copy_words(t: &[u32], m: usize, out: &mut [u32])
    requires { (m ≤ length t.now) × (m ≤ length out.old) }
    ensures { out.new ≡ copied t.now m out.old }
{
    out[..m].copy_from_slice(&t[..m]);
}

fn mark_statement(k: &[u32], n: u32, r: u32, out: &mut [u32])
    requires { (n * token_row ≤ length out.old) × (r < limits.greatest_word) }
    ensures { out.new ≡ statement_marked k.now n r out.old }
{
    let i = res_scope::first_token(k, r);
    if i < n {
        out[i as usize * Machine::TOKEN_ROW + TokenRow::STATEMENT] = r + 1;
    }
}

fn mark_statements(k: &[u32], c: u32, n: u32, out: &mut [u32])
    requires { n * token_row ≤ length out.old }
    ensures { out.new ≡ statements_marked c k.now n out.old }
{
    for r in 0..c {
        mark_statement(k, n, r, out);
    }
}

fn clear_marks(n: u32, out: &mut [u32])
    requires { n * token_row ≤ length out.old }
    ensures { out.new ≡ unmarked n out.old }
{
    for i in 0..n {
        out[i as usize * Machine::TOKEN_ROW + TokenRow::STATEMENT] = 0;
    }
}

// The rows of n tokens, and the c statements that they begin.
pub fn write_tokens(t: &[u32], k: &[u32], c: u32, n: u32, out: &mut [u32])
    requires { (n * token_row ≤ length out.old) × (n ≤ limits.tokens) × (length t.now ≡ limits.token_words) }
    ensures { out.new ≡ token_table t.now k.now c n out.old }
{
    copy_words(t, n as usize * Machine::TOKEN_ROW, out);
    clear_marks(n, out);
    mark_statements(k, c, n, out);
}
