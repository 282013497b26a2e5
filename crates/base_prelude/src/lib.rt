// What two crates need: a total read of a byte, a table cleared, faults as keys.
#![tactic(auto)]

ghost use Rattle.std.specs.Prelude.{◌≡◌, ◌≤◌, ◌<◌, min, length, eqb};
ghost use Rattle.base_prelude.specs.Bytes.{byte_at};
ghost use Rattle.base_prelude.specs.Lists.{cleared_from, same_list};
ghost use Rattle.base_prelude.specs.Fault.{key};

// A byte as a wider number.
pub fn wide(b: u8) -> u32
    ensures { (result ≡ b) × (result < 256) }
{
    u32::from(b)
}

// The byte at a place, 256 past the end.
pub fn byte_at(s: &[u8], i: usize) -> u32
    ensures { result ≡ byte_at s.now i }
{
    match s.get(i) {
        Some(b) => u32::from(*b),
        None => 256,
    }
}

// Zeros from a place on.
pub fn clear_from(t: &mut [u32], from: usize)
    requires { from ≤ length t.old }
    ensures { t.new ≡ cleared_from t.old from }
{
    t[from..].fill(0);
}

// Whether two lists of bytes are the same, all bytes and the length.
pub fn same(a: &[u8], b: &[u8]) -> bool
    ensures { result ≡ same_list a.now b.now }
{
    a == b
}

// A fault at a place.
pub fn fault(place: usize, number: u32) -> u64
    requires { number < 64 }
    ensures { result ≡ key place number }
{
    (place % 4294967296) as u64 * 64 + u64::from(number)
}

// The lower of two faults.
pub fn least(a: u64, b: u64) -> u64
    ensures { result ≡ min a b }
{
    a.min(b)
}
