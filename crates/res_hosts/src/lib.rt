// The host's list: which entry an import's name means, and its mark in the token table.
#![tactic(auto)]

ghost use Rattle.std.specs.Prelude.{◌≡◌, ◌≤◌, ◌<◌, length, take};
ghost use Rattle.base_limits.specs.Limits as limits;
ghost use Rattle.lex_spelling.specs.Text.{name_at};
ghost use Rattle.prog_tables.specs.Layout.{host_entries};
ghost use Rattle.prog_tables.specs.Hosts.{mark_of, host_mark};
ghost use Rattle.res_hosts.specs.Marks.{host_list, is_import, mark_at, name_marked, hosted_tokens};
ghost use Rattle.res_hosts.specs.Lister.{lister_hosts};

use base_limits::Machine;
use lang_kinds::{Token, TokenRow};
use lang_words::Word;

fn mark_of(number: usize, arguments: u32) -> u32
    requires { (number < host_entries) × (arguments ≤ limits.parameters) }
    ensures { result ≡ mark_of number arguments }
{
    number as u32 * 16 + arguments + 1
}

// The mark of a name.
fn mark_name(hosts: &[u32], names: &[u8], name: &[u8]) -> u32
    ensures { result ≡ host_mark (host_list hosts.now names.now) name.now }
{
    let i = prog_hosts::find_host(hosts, names, name);
    if i < prog_hosts::entries(hosts, names) {
        return mark_of(i, prog_hosts::arguments_at(hosts, i));
    }
    0
}

fn mark_front(hosts: &[u32], names: &[u8], name: &[u8], size: usize) -> u32
    requires { size ≤ length name.now }
    ensures { result ≡ host_mark (host_list hosts.now names.now) (take size name.now) }
{
    mark_name(hosts, names, &name[..size])
}

// The mark of the name at a place of the source.
fn mark_at(s: &[u8], at: usize, hosts: &[u32], names: &[u8]) -> u32
    ensures { result ≡ host_mark (host_list hosts.now names.now) (name_at s.now at) }
{
    let spelled = lex_spelling::spell(false, s, at);
    let size = spelled.size;
    if Machine::NAME_BYTES < size {
        return 0;
    }
    let mut name = [0u8; Machine::NAME_BYTES];
    lex_spelling::copy_text(false, s, at, &mut name);
    mark_front(hosts, names, &name, size)
}

// Whether token i is `import` with a symbol directly behind it.
fn is_import(t: &[u32], i: u32) -> bool
    requires { i < limits.greatest_word }
    ensures { result ≡ is_import t.now i }
{
    if parse_lines::kind_at(t, i) != Token::SYMBOL {
        return false;
    }
    // By `if`: so the goal that refuses the edit of this word keeps its name.
    if parse_lines::word_at(t, i) == Word::IMPORT {
        return parse_lines::kind_at(t, i + 1) == Token::SYMBOL;
    }
    false
}

// The mark of the name at token i.
fn mark_name_at(s: &[u8], t: &[u32], i: u32, hosts: &[u32], names: &[u8]) -> u32
    ensures { result ≡ mark_at (host_list hosts.now names.now) s.now t.now i }
{
    let first = parse_lines::token_word(t, i, TokenRow::FIRST);
    mark_at(s, first as usize, hosts, names)
}

fn mark_token(s: &[u8], i: u32, hosts: &[u32], names: &[u8], t: &mut [u32])
    requires { (i < limits.greatest_word) × (length t.old ≡ limits.token_words) }
    ensures { t.new ≡ name_marked (host_list hosts.now names.now) s.now i t.old }
{
    if is_import(t, i) {
        let mark = mark_name_at(s, t, i + 1, hosts, names);
        t[(i + 1) as usize * Machine::TOKEN_ROW + TokenRow::HOST] = mark;
    }
}

fn mark_tokens(s: &[u8], n: u32, hosts: &[u32], names: &[u8], t: &mut [u32])
    requires { length t.old ≡ limits.token_words }
    ensures { t.new ≡ hosted_tokens (host_list hosts.now names.now) s.now n t.old }
{
    for i in 0..n {
        mark_token(s, i, hosts, names, t);
    }
}

// The marks of the imports' names among n tokens.
pub fn mark_hosts(
    s: &[u8],
    n: u32,
    hosts: &[u32],
    names: &[u8],
    t: &mut [u32; Machine::TOKEN_WORDS],
)
    ensures { t.new ≡ hosted_tokens (host_list hosts.now names.now) s.now n t.old }
{
    mark_tokens(s, n, hosts, names, t);
}

// The list that lister and case runner lend: its words.
pub fn lister_words() -> [u32; 4]
    ensures { result ≡ lister_hosts.words }
{
    [4, 1, 5, 2]
}

// Its names.
pub fn lister_names() -> [u8; 128]
    ensures { result ≡ lister_hosts.names }
{
    let mut names = [0u8; 128];
    names[..4].copy_from_slice(b"bath");
    names[64..69].copy_from_slice(b"order");
    names
}
