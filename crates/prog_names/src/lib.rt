// The names of labels: the part of the name table that is a label's name, cut to the table.
#![tactic(auto)]

ghost use Rattle.std.specs.Prelude.{◌≡◌, [], ◌+◌, ◌*◌, min, length};
ghost use Rattle.base_limits.specs.Limits.{name_bytes};
ghost use Rattle.prog_tables.specs.Label.{label_at};

use base_limits::Machine;
use prog_tables::{LabelRow, Table};

// The bytes of a label's name.
pub fn size_at(l: &[u32], i: u32) -> u32
    ensures { result ≡ (label_at l.now [] i).size }
{
    prog_tables::word_at(l, i as usize * Table::LABEL_ROW + LabelRow::SIZE)
}

// Where the name of label i begins.
pub fn name_from(names: &[u8], i: u32) -> usize
    ensures { result ≡ min (i * name_bytes) (length names.now) }
{
    (i as usize * Machine::NAME_BYTES).min(names.len())
}

// The place behind it.
pub fn name_to(l: &[u32], names: &[u8], i: u32) -> usize
    ensures { result ≡ min (i * name_bytes + (label_at l.now [] i).size) (length names.now) }
{
    let size = size_at(l, i);
    (i as usize * Machine::NAME_BYTES + size as usize).min(names.len())
}
