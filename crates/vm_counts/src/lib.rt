// Counts of rows against the lengths of the lent tables.
#![tactic(auto)]

ghost use Rattle.std.specs.Prelude.{◌≡◌, ◌*◌, ltb, length};
ghost use Rattle.base_limits.specs.Limits.{name_bytes};
ghost use Rattle.prog_tables.specs.Layout.{statement_row, label_row};
ghost use Rattle.prog_tables.specs.Tests.{one_of};
ghost use Rattle.base_limits.specs.declared.Width.TheVariants.{Bits32};
ghost use Rattle.prog_tables.specs.Program.{program_from};
ghost use Rattle.prog_tables.specs.Faults.{count_fault};
ghost use Rattle.vm_definitions.specs.Lent.{tables_of};

use base_limits::Machine;
use prog_tables::Table;

// Whether the count of statements is past its table.
pub fn statements_past(t: &[u32], c: u32) -> bool
    ensures { result ≡ ltb (length t.now) (c * statement_row) }
{
    let rows = c as usize * Table::STATEMENT_ROW;
    t.len() < rows
}

// Whether the count of labels is past its table or past that of their names.
pub fn labels_past(l: &[u32], k: u32, names: &[u8]) -> bool
    ensures { result ≡ one_of (ltb (length l.now) (k * label_row)) (ltb (length names.now) (k * name_bytes)) }
{
    let labels = k as usize * Table::LABEL_ROW;
    if l.len() < labels {
        return true;
    }
    let bytes = k as usize * Machine::NAME_BYTES;
    names.len() < bytes
}

// Whether a count is past its table. The data's length does not matter.
pub fn count_fault(t: &[u32], c: u32, l: &[u32], k: u32, names: &[u8]) -> bool
    ensures { result ≡ count_fault (program_from Bits32 (tables_of t.now c l.now k names.now 0)) }
{
    if statements_past(t, c) {
        return true;
    }
    labels_past(l, k, names)
}
