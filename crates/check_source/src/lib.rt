// The check: source bytes to tables and a data image, or a refusal with its number and place.
#![tactic(auto)]

ghost use Rattle.std.specs.Prelude.{◌≡◌, length};
ghost use Rattle.res_hosts.specs.Marks.{host_list};
ghost use Rattle.check_fill.specs.Fill.{lent};
ghost use Rattle.check_source.specs.Check.{filled, refuse, has_room, check_of};

use base_limits::{Machine, Refusal, Width};
pub use check_judge::Counts;
use parse_outline::Outline;
use prog_tables::Table;

// Whether the buffers can hold a source with these counts.
fn has_room(
    p: Counts,
    tokens: &[u32],
    statements: &[u32],
    labels: &[u32],
    names: &[u8],
    bytes: &[u8],
) -> bool
    ensures { result ≡ has_room (lent (length tokens.now) (length statements.now) (length labels.now) (length names.now) (length bytes.now)) p.tokens p.statements p.labels p.size }
{
    if tokens.len() < p.tokens as usize * Machine::TOKEN_ROW {
        return false;
    }
    if statements.len() < p.statements as usize * Table::STATEMENT_ROW {
        return false;
    }
    if labels.len() < p.labels as usize * Table::LABEL_ROW {
        return false;
    }
    if names.len() < p.labels as usize * Machine::NAME_BYTES {
        return false;
    }
    if bytes.len() < p.size as usize {
        return false;
    }
    true
}

fn refuse_all(
    refusal: Refusal,
    tokens: &mut [u32],
    statements: &mut [u32],
    labels: &mut [u32],
    names: &mut [u8],
    bytes: &mut [u8],
) -> Result<Counts, Refusal>
    ensures { filled result tokens.new statements.new labels.new names.new bytes.new ≡ refuse refusal.number refusal.place (lent (length tokens.old) (length statements.old) (length labels.old) (length names.old) (length bytes.old)) }
{
    check_fill::zero(tokens, statements, labels, names, bytes);
    Err(refusal)
}

// Checks a source against the host's list, two words and 64 bytes of name an entry, into a token table, a statement table, a label table with
// the names beside it, and a data buffer. All are of any lengths.
pub fn check(
    w: Width,
    s: &[u8],
    hosts: &[u32],
    host_names: &[u8],
    tokens: &mut [u32],
    statements: &mut [u32],
    labels: &mut [u32],
    names: &mut [u8],
    bytes: &mut [u8],
) -> Result<Counts, Refusal>
    ensures { filled result tokens.new statements.new labels.new names.new bytes.new ≡ check_of w (host_list hosts.now host_names.now) s.now (lent (length tokens.old) (length statements.old) (length labels.old) (length names.old) (length bytes.old)) }
{
    let mut t = [0u32; Machine::TOKEN_WORDS];
    let mut k = [0u32; Table::STATEMENT_WORDS];
    let mut y = [0u32; Outline::LABEL_WORDS];
    let mut flags = [0u32; Machine::LABELS];
    match check_judge::judge(w, s, hosts, host_names, &mut t, &mut k, &mut y, &mut flags) {
        Ok(p) => {
            if has_room(p, tokens, statements, labels, names, bytes) {
                check_fill::fill(
                    w, s, p, &t, &k, &y, &flags, tokens, statements, labels, names, bytes,
                );
                return Ok(p);
            }
            let short = Refusal {
                number: 16,
                place: 0,
            };
            refuse_all(short, tokens, statements, labels, names, bytes)
        }
        Err(refusal) => refuse_all(refusal, tokens, statements, labels, names, bytes),
    }
}
