// The page of a source.
#![tactic(auto)]

ghost use Rattle.std.specs.Prelude.{◌≡◌, ◌≤◌, length};
ghost use Rattle.app_page.specs.Page.{shown, shown_on};
ghost use Rattle.app_listing.specs.Listing.{page_by, list_of};
ghost use Rattle.base_prelude.specs.Lists.{overlay};

use base_limits::{Machine, Refusal, Width};
use check_source::Counts;
use prog_tables::Table;

fn page_of(
    x: Result<Counts, Refusal>,
    s: &[u8],
    table: &[u32],
    names: &[u8],
    rows: &[u32],
    out: &mut [u8],
) -> Option<usize>
    ensures { shown result out.new ≡ shown_on (page_by s.now x table.now names.now rows.now) out.old }
{
    match x {
        Ok(p) => {
            app_page::accepted_page(p.statements, p.labels, p.size, table, names, rows, out)
        }
        Err(r) => {
            app_page::refused_page(
                s,
                r.number,
                (r.place as u64 % Machine::WORD_VALUES) as u32,
                out,
            )
        }
    }
}

// Checks a source against the lister's list and writes its page over the front of a buffer; a buffer that is too short stays as it is, and the
// answer is None.
pub fn list(s: &[u8], out: &mut [u8]) -> Option<usize>
    ensures { shown result out.new ≡ shown_on (list_of s.now) out.old }
{
    let mut tokens = [0u32; Machine::TOKEN_WORDS];
    let mut rows = [0u32; Table::STATEMENT_WORDS];
    let mut table = [0u32; Table::LABEL_WORDS];
    let mut names = [0u8; Table::NAME_TABLE];
    let mut data = [0u8; Machine::DATA_BYTES];
    let hosts = res_hosts::lister_words();
    let host_names = res_hosts::lister_names();
    let x = check_source::check(
        Width::Bits32,
        s,
        &hosts,
        &host_names,
        &mut tokens,
        &mut rows,
        &mut table,
        &mut names,
        &mut data,
    );
    page_of(x, s, &table, &names, &rows, out)
}

// Room for every page.
#[derive(Drop)]
pub struct Room {}

impl Room {
    pub const PAGE: usize = 98304;
}

// Writes the page of a source over the front of a buffer that has room for every page, and gives its bytes.
pub fn list_whole(s: &[u8], out: &mut [u8; Room::PAGE]) -> usize
    ensures value { (result ≡ length (list_of s.now)) × (out.new ≡ overlay (list_of s.now) out.old) }
    ensures upper_bound { result ≤ length out.new }
{
    list(s, out).unwrap_or(0)
}
