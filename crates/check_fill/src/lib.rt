// Writes the five lent buffers, once: the rows of a judged source over zeros, or zeros alone.
#![tactic(auto)]

ghost use Rattle.std.specs.Prelude.{◌≡◌, ◌*◌, ◌≤◌, length};
ghost use Rattle.prog_tables.specs.Layout.{label_row, statement_row};
ghost use Rattle.base_limits.specs.Limits as limits;
ghost use Rattle.base_prelude.specs.Lists.{zeros};
ghost use Rattle.res_scope.specs.Names.{same_number};
ghost use Rattle.prog_tables.specs.Statement.{row_at};
ghost use Rattle.res_frame_words.specs.Framing.{words_of};
ghost use Rattle.res_labels.specs.Labelling.{label_table, name_table};
ghost use Rattle.res_rows.specs.Rows.{statement_table};
ghost use Rattle.res_tokens.specs.TokenTable.{token_table};
ghost use Rattle.res_data.specs.Image.{image_of};
ghost use Rattle.check_judge.specs.Judged.{known_by};
ghost use Rattle.check_fill.specs.Fits.{Room};
ghost use Rattle.check_fill.specs.Fill.{lent, buffers, zeroed, fill_of};

use base_limits::{Machine, Width};
use check_judge::Counts;
use parse_outline::Outline;
use prog_tables::Table;

// Clears every buffer.
pub fn zero(
    tokens: &mut [u32],
    statements: &mut [u32],
    labels: &mut [u32],
    names: &mut [u8],
    bytes: &mut [u8],
)
    ensures { buffers tokens.new statements.new labels.new names.new bytes.new ≡ zeroed (lent (length tokens.old) (length statements.old) (length labels.old) (length names.old) (length bytes.old)) }
{
    tokens.fill(0);
    statements.fill(0);
    labels.fill(0);
    names.fill(0);
    bytes.fill(0);
}

// The statement rows over a buffer; z is the label table.
fn fill_rows(t: &[u32], k: &[u32], y: &[u32], l: u32, z: &[u32], c: u32, statements: &mut [u32])
    requires { (c ≤ limits.statements) × (c * statement_row ≤ length statements.old) }
    ensures { statements.new ≡ statement_table (same_number t.now) t.now k.now y.now l (words_of (row_at k.now) c) z.now c statements.old }
{
    let mut words = [0u32; Machine::STATEMENTS];
    res_frame_words::make_words(k, c, &mut words);
    res_rows::write_rows(t, k, y, l, &words, z, c, statements);
}

// Writes the rows of a judged source, zeros behind them.
pub fn fill(
    w: Width,
    s: &[u8],
    p: Counts,
    t: &[u32; Machine::TOKEN_WORDS],
    k: &[u32; Table::STATEMENT_WORDS],
    y: &[u32; Outline::LABEL_WORDS],
    flags: &[u32; Machine::LABELS],
    tokens: &mut [u32],
    statements: &mut [u32],
    labels: &mut [u32],
    names: &mut [u8],
    bytes: &mut [u8],
)
    requires { Room (length tokens.old) (length statements.old) (length labels.old) (length names.old) p.tokens p.statements p.labels }
    ensures { buffers tokens.new statements.new labels.new names.new bytes.new ≡ fill_of w s.now (same_number t.now) (known_by p t.now k.now y.now flags.now) (lent (length tokens.old) (length statements.old) (length labels.old) (length names.old) (length bytes.old)) }
{
    zero(tokens, statements, labels, names, bytes);
    res_tokens::write_tokens(t, k, p.statements, p.tokens, tokens);
    res_labels::write_labels(w, s, t, y, flags, p.labels, labels, names);
    fill_rows(t, k, y, p.labels, labels, p.statements, statements);
    res_data::write_image(w, s, t, bytes);
}
