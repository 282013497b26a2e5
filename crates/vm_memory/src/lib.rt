// Stores into a lent stack and a lent memory.
#![tactic(auto)]

ghost use Rattle.std.specs.Prelude.{◌≡◌, [], ◌∷◌, ◌+◌, ◌-◌, ◌%◌, ◌≤◌, ◌<◌, length, set, take, replicate};
ghost use Rattle.base_limits.specs.Limits.{word_values};
ghost use Rattle.base_limits.specs.declared.Width.TheVariants.{Bits32};
ghost use Rattle.base_word.specs.Bytes.{word_bytes};
ghost use Rattle.vm_definitions.specs.Access.{store_from};
ghost use Rattle.vm_definitions.specs.Frames.{frame_words};

// A word of the stack; past its end nothing.
pub fn put(st: &mut [u32], i: usize, v: u32)
    ensures { st.new ≡ set st.old i v }
{
    if i < st.len() {
        st[i] = v;
    }
}

// n zeros from a place on.
pub fn put_zeros(st: &mut [u32], at: usize, n: u32)
    requires { at < 1099511627776 }
    ensures { st.new ≡ store_from st.old at (replicate n 0) }
{
    for i in 0..n as usize {
        put(st, at + i, 0);
    }
}

// Words from a place on.
pub fn put_words(st: &mut [u32], at: usize, ws: &[u32])
    requires at_bound { at < 1099511627776 }
    requires ws_len_bound { length ws.now < word_values }
    ensures { st.new ≡ store_from st.old at ws.now }
{
    for (i, w) in ws.iter().enumerate() {
        put(st, at + i, *w);
    }
}

// The words behind the arguments of a new frame.
fn left_over(size: u32, n: u32) -> u32
    ensures { result ≡ size - (3 + n) }
{
    size.saturating_sub(3).saturating_sub(n)
}

// The head of a new frame.
fn put_head(st: &mut [u32], at: u32, call: u32, frame: u32, top: u32)
    ensures { st.new ≡ store_from st.old at (call ∷ frame ∷ top ∷ []) }
{
    let i = at as usize;
    put(st, i, call);
    put(st, i + 1, frame);
    put(st, i + 2, top);
}

// A new frame at a place: return place, caller's frame, auto top, arguments, zeros.
pub fn build_frame(
    st: &mut [u32],
    at: u32,
    call: u32,
    frame: u32,
    top: u32,
    args: &[u32],
    size: u32,
)
    requires { length args.now < word_values }
    ensures { st.new ≡ store_from st.old at (frame_words Bits32 call frame top args.now size) }
{
    put_head(st, at, call, frame, top);
    let from = at as usize + 3;
    put_words(st, from, args);
    let n = args.len();
    put_zeros(st, from + n, left_over(size, n as u32));
}

// A word of memory.
pub fn put_word(m: &mut [u8], a: u32, v: u32)
    requires { a + 4 ≤ length m.old }
    ensures { m.new ≡ store_from m.old a (word_bytes 4 v) }
{
    let i = a as usize;
    m[i] = (v % 256) as u8;
    m[i + 1] = (v / 256 % 256) as u8;
    m[i + 2] = (v / 256 / 256 % 256) as u8;
    m[i + 3] = (v / 256 / 256 / 256 % 256) as u8;
}

// A byte of memory: v modulo 256.
pub fn put_byte(m: &mut [u8], a: u32, v: u32)
    requires { a < length m.old }
    ensures { m.new ≡ store_from m.old a (v % 256 ∷ []) }
{
    m[a as usize] = (v % 256) as u8;
}

// The first n of some bytes, to the start of memory.
pub fn put_bytes(m: &mut [u8], bytes: &[u8], n: u32)
    requires n_in_bounds { n ≤ length m.old }
    requires n_in_bounds_2 { n ≤ length bytes.now }
    ensures { m.new ≡ store_from m.old 0 (take n bytes.now) }
{
    // By index: copy_from_slice would take memmove, and voodoo.h says that nothing but memcpy and memset is called.
    for i in 0..n as usize {
        m[i] = bytes[i];
    }
}
