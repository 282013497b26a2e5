// Whether tables are well formed, rule by rule.
#![tactic(auto)]

ghost use Rattle.std.specs.Prelude.{◌≡◌, ◌*◌, ◌≤◌, length};
ghost use Rattle.base_limits.specs.Limits as limits;
ghost use Rattle.prog_tables.specs.Layout.{statement_row, label_row};
ghost use Rattle.prog_tables.specs.Tests.{both, all_below};
ghost use Rattle.prog_tables.specs.Statement.{row_at};
ghost use Rattle.prog_tables.specs.Nesting.{stands, all_closed};
ghost use Rattle.prog_tables.specs.WellFormed.{shallow, row_good, well_formed};
ghost use Rattle.prog_labels.specs.Labels.{tabled};

use base_limits::Machine;

// Whether the rows are nested, no deeper than blocks may be. Nothing else can be told of rows that are not.
fn rows_stand(t: &[u32], c: u32) -> bool
    ensures { result ≡ both (both (all_closed (row_at t.now) c) (all_below (stands (row_at t.now)) c)) (all_below (shallow (row_at t.now)) c) }
{
    prog_rules::is_nested(t, c) && prog_rules::all_shallow(t, c)
}

// Whether every row is good: nesting first, then what needs no frame word, then frames and scope.
fn rows_good(t: &[u32], c: u32, l: &[u32], k: u32, names: &[u8], d: u32) -> bool
    requires { c ≤ limits.statements }
    ensures { result ≡ both (all_closed (row_at t.now) c) (all_below (row_good (tabled t.now c l.now k names.now d)) c) }
{
    if !rows_stand(t, c) {
        return false;
    }
    prog_rules::all_rules(t, c, l, k, d) && prog_scope::frames_good(t, c, l, k, d)
}

// Whether tables within the limits of rows and labels are well formed.
pub fn is_well_formed(t: &[u32], c: u32, l: &[u32], k: u32, names: &[u8], d: u32) -> bool
    requires { (c ≤ limits.statements) × (k ≤ limits.labels) × (c * statement_row ≤ length t.now) × (k * label_row ≤ length l.now) × (k * limits.name_bytes ≤ length names.now) }
    ensures { result ≡ well_formed (tabled t.now c l.now k names.now d) }
{
    if Machine::DATA_BYTES < d as usize {
        return false;
    }
    rows_good(t, c, l, k, names, d) && prog_labels::labels_good(t, c, l, k, names, d)
}
