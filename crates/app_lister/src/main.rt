// The lister: reads a source from standard input and writes its page, which always fits (`app_listing::list_whole`).
#![tactic(auto)]

use app_listing::Room;

// Room for a source; one that is too long is read so far as to tell.
const SOURCE: usize = 16400;

fn main() {
    let mut input = [0u8; SOURCE];
    let mut out = [0u8; Room::PAGE];
    let n = io::read_full(0, &mut input);
    let size = app_listing::list_whole(&input[..n], &mut out);
    io::write_all(1, &out[..size]);
}
