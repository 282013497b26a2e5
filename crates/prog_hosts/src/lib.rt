// The host's list: which entry a name means, and the imported names of tables against it.
#![tactic(auto)]

ghost use Rattle.std.specs.Prelude.{◌≡◌, ◌+◌, ◌*◌, ◌≤◌, ◌<◌, get_or};
ghost use Rattle.prog_tables.specs.Layout.{host_row, host_entries};
ghost use Rattle.prog_tables.specs.Tests.{all_below};
ghost use Rattle.prog_tables.specs.Label.{label_at};
ghost use Rattle.prog_tables.specs.Hosts.{entries_of, entry_named, host_of, label_hosted};
ghost use Rattle.prog_hosts.specs.Lent.{host_list};

use base_limits::Machine;
use prog_tables::{LabelKind, Table};

// The entries that are looked at; half an entry is none.
pub fn entries(hosts: &[u32], names: &[u8]) -> usize
    ensures value { result ≡ entries_of (host_list hosts.now names.now) }
    ensures upper_bound { result ≤ host_entries }
{
    let n = hosts.len() / Table::HOST_ROW;
    n.min(Table::HOST_ENTRIES)
}

// The arguments of entry i.
pub fn arguments_at(hosts: &[u32], i: usize) -> u32
    requires { i < host_entries }
    ensures { result ≡ get_or hosts.now (i * host_row + 1) 0 }
{
    prog_tables::word_at(hosts, i * Table::HOST_ROW + 1)
}

// Whether entry i is left and has that name.
fn is_named(hosts: &[u32], names: &[u8], i: usize, name: &[u8]) -> bool
    requires { i < host_entries }
    ensures { result ≡ entry_named (host_list hosts.now names.now) i name.now }
{
    let size = prog_tables::word_at(hosts, i * Table::HOST_ROW) as usize;
    if size < 1 {
        return false;
    }
    if Machine::NAME_BYTES < size {
        return false;
    }
    let from = i * Machine::NAME_BYTES;
    let to = from + size;
    if names.len() < to {
        return false;
    }
    if Machine::PARAMETERS < arguments_at(hosts, i) {
        return false;
    }
    base_prelude::same(&names[from..to], name)
}

// The number of a name, the count of entries where none has it.
pub fn find_host(hosts: &[u32], names: &[u8], name: &[u8]) -> usize
    ensures { result ≡ host_of (host_list hosts.now names.now) name.now }
{
    let n = entries(hosts, names);
    (0..n)
        .find(|&i| is_named(hosts, names, i, name))
        .unwrap_or(n)
}

// The number of the name of label i in the list.
fn label_host(hosts: &[u32], host_names: &[u8], l: &[u32], names: &[u8], i: u32) -> usize
    ensures { result ≡ host_of (host_list hosts.now host_names.now) (label_at l.now names.now i).name }
{
    let from = prog_names::name_from(names, i);
    let to = prog_names::name_to(l, names, i);
    find_host(hosts, host_names, &names[from..to])
}

// Whether label i, where it is an imported name, has the number and the argument count that the list gives it.
fn is_label_hosted(hosts: &[u32], host_names: &[u8], l: &[u32], names: &[u8], i: u32) -> bool
    ensures { result ≡ label_hosted (host_list hosts.now host_names.now) (label_at l.now names.now i) }
{
    let x = prog_tables::label_kind_at(l, i);
    if x != LabelKind::IMPORT {
        return true;
    }
    let h = label_host(hosts, host_names, l, names, i);
    let n = entries(hosts, host_names);
    if n <= h {
        return false;
    }
    let v = prog_tables::label_number_at(l, i);
    if v as usize != h {
        return false;
    }
    prog_tables::label_arguments_at(l, i) == arguments_at(hosts, h)
}

// Whether each imported name among k labels has the number and the argument count that the list gives it.
pub fn is_hosted(hosts: &[u32], host_names: &[u8], l: &[u32], k: u32, names: &[u8]) -> bool
    ensures { result ≡ all_below (λ n. label_hosted (host_list hosts.now host_names.now) (label_at l.now names.now n)) k }
{
    (0..k).all(|i| is_label_hosted(hosts, host_names, l, names, i))
}
