// Words of 32 bits: each function is the definition of specs/Word at the width 32.
#![tactic(auto)]

ghost use Rattle.std.specs.Prelude.{◌≡◌, ◌<◌, ◌≤◌};
ghost use Rattle.base_word.specs.Word.{add_of, sub_of, mul_of};
ghost use Rattle.base_word.specs.Word.{negative, magnitude, negated, signed_word, differ};
ghost use Rattle.base_word.specs.Word.{quotient, remainder, no_word, div_of, mod_of};
ghost use Rattle.base_word.specs.Word.{shift_answer, shifted, sign_fill, rotate_count};
ghost use Rattle.base_word.specs.Word.{shl_by, bsr_by, asr_by, rol_by, ror_by};
ghost use Rattle.base_word.specs.Word.{shl_of, bsr_of, asr_of, rol_of, ror_of};
ghost use Rattle.base_word.specs.Word.{and_of, or_of, xor_of, not_of};
ghost use Rattle.base_word.specs.Word.{lt_of, gt_of, ge_of, le_of, eq_of, ne_of};

// Why there is no word: a divisor, or the count of a shift.
#[derive(Clone, Copy, Debug, PartialEq, Eq)]
pub enum WordError {
    Division,
    Shift,
}

pub fn add(a: u32, b: u32) -> u32
    ensures { result ≡ add_of 32 a b }
{
    a.wrapping_add(b)
}

pub fn sub(a: u32, b: u32) -> u32
    ensures { result ≡ sub_of 32 a b }
{
    a.wrapping_sub(b)
}

pub fn mul(a: u32, b: u32) -> u32
    ensures { result ≡ mul_of 32 a b }
{
    a.wrapping_mul(b)
}

fn is_negative(a: u32) -> bool
    ensures { result ≡ negative 32 a }
{
    2147483648 <= a
}

fn magnitude_of(a: u32) -> u32
    ensures { result ≡ magnitude 32 a }
{
    if 2147483648 <= a {
        4294967295 - a + 1
    } else {
        a
    }
}

fn negate(n: u32) -> u32
    ensures { result ≡ negated 32 n }
{
    n.wrapping_neg()
}

fn with_sign(s: bool, n: u32) -> u32
    ensures { result ≡ signed_word 32 s n }
{
    if s { negate(n) } else { n }
}

fn differs(s: bool, t: bool) -> bool
    ensures { result ≡ differ s t }
{
    s != t
}

// The quotient of the magnitudes with its sign.
fn divide(a: u32, b: u32) -> u32
    requires { 0 < b }
    ensures { result ≡ quotient 32 a b }
{
    with_sign(
        differs(is_negative(a), is_negative(b)),
        magnitude_of(a) / magnitude_of(b),
    )
}

// The remainder of the magnitudes with the sign of the first.
fn left_over(a: u32, b: u32) -> u32
    requires { 0 < b }
    ensures { result ≡ remainder 32 a b }
{
    with_sign(is_negative(a), magnitude_of(a) % magnitude_of(b))
}

// Whether the quotient is 2^31, which has no word.
fn lacks_word(a: u32, b: u32) -> bool
    ensures { result ≡ no_word 32 a b }
{
    a == 2147483648 && b == 4294967295
}

// The refusals come first.
pub fn div(a: u32, b: u32) -> Result<u32, WordError>
    ensures { result ≡ div_of 32 a b }
{
    if b == 0 {
        return Err(WordError::Division);
    }
    if lacks_word(a, b) {
        return Err(WordError::Division);
    }
    Ok(divide(a, b))
}

pub fn rem(a: u32, b: u32) -> Result<u32, WordError>
    ensures { result ≡ mod_of 32 a b }
{
    if b == 0 {
        return Err(WordError::Division);
    }
    Ok(left_over(a, b))
}

// The word that a shift gives, unless its count is negative.
fn with_count(n: u32, r: u32) -> Result<u32, WordError>
    ensures { result ≡ shift_answer 32 n r }
{
    if n < 2147483648 {
        Ok(r)
    } else {
        Err(WordError::Shift)
    }
}

// `near` for a count below the width, `far` for a longer one; a count below the width is not negative.
fn with_width(n: u32, near: u32, far: u32) -> Result<u32, WordError>
    ensures { result ≡ shifted 32 n near far }
{
    if n < 32 { Ok(near) } else { with_count(n, far) }
}

// How far a rotate moves, and a shift by less than the width.
fn count_modulo(n: u32) -> u32
    ensures { result ≡ rotate_count 32 n }
{
    n % 32
}

fn shl_by(a: u32, n: u32) -> u32
    requires { n < 32 }
    ensures { result ≡ shl_by 32 a n }
{
    a << n
}

fn bsr_by(a: u32, n: u32) -> u32
    requires { n < 32 }
    ensures { result ≡ bsr_by 32 a n }
{
    a >> n
}

fn asr_by(a: u32, n: u32) -> u32
    requires { n < 32 }
    ensures { result ≡ asr_by 32 a n }
{
    if a < 2147483648 {
        return bsr_by(a, n);
    }
    let m = bsr_by(4294967295 - a, n);
    4294967295 - m
}

fn sign_fill(a: u32) -> u32
    ensures { result ≡ sign_fill 32 a }
{
    if 2147483648 <= a { 4294967295 } else { 0 }
}

fn rol_by(a: u32, n: u32) -> u32
    requires { n ≤ 32 }
    ensures { result ≡ rol_by 32 a n }
{
    let x = (a as u64) << (n as u64);
    ((x % 4294967296) as u32) | ((x / 4294967296) as u32)
}

fn ror_by(a: u32, n: u32) -> u32
    requires { n ≤ 32 }
    ensures { result ≡ ror_by 32 a n }
{
    rol_by(a, 32 - n)
}

// The word moved by the count modulo 32 serves counts below 32 alone.
pub fn shl(a: u32, n: u32) -> Result<u32, WordError>
    ensures { result ≡ shl_of 32 a n }
{
    with_width(n, shl_by(a, count_modulo(n)), 0)
}

// Serves `shr` too.
pub fn bsr(a: u32, n: u32) -> Result<u32, WordError>
    ensures { result ≡ bsr_of 32 a n }
{
    with_width(n, bsr_by(a, count_modulo(n)), 0)
}

pub fn asr(a: u32, n: u32) -> Result<u32, WordError>
    ensures { result ≡ asr_of 32 a n }
{
    with_width(n, asr_by(a, count_modulo(n)), sign_fill(a))
}

pub fn rol(a: u32, n: u32) -> Result<u32, WordError>
    ensures { result ≡ rol_of 32 a n }
{
    with_count(n, rol_by(a, count_modulo(n)))
}

pub fn ror(a: u32, n: u32) -> Result<u32, WordError>
    ensures { result ≡ ror_of 32 a n }
{
    with_count(n, ror_by(a, count_modulo(n)))
}

pub fn and(a: u32, b: u32) -> u32
    ensures { result ≡ and_of 32 a b }
{
    a & b
}

pub fn or(a: u32, b: u32) -> u32
    ensures { result ≡ or_of 32 a b }
{
    a | b
}

pub fn xor(a: u32, b: u32) -> u32
    ensures { result ≡ xor_of 32 a b }
{
    a ^ b
}

pub fn not(a: u32) -> u32
    ensures { result ≡ not_of 32 a }
{
    !a
}

pub fn less(a: u32, b: u32) -> bool
    ensures { result ≡ lt_of 32 a b }
{
    let x = a.wrapping_add(2147483648);
    let y = b.wrapping_add(2147483648);
    x < y
}

pub fn greater(a: u32, b: u32) -> bool
    ensures { result ≡ gt_of 32 a b }
{
    less(b, a)
}

pub fn greater_equal(a: u32, b: u32) -> bool
    ensures { result ≡ ge_of 32 a b }
{
    !less(a, b)
}

pub fn less_equal(a: u32, b: u32) -> bool
    ensures { result ≡ le_of 32 a b }
{
    !less(b, a)
}

pub fn equal(a: u32, b: u32) -> bool
    ensures { result ≡ eq_of 32 a b }
{
    a == b
}

pub fn not_equal(a: u32, b: u32) -> bool
    ensures { result ≡ ne_of 32 a b }
{
    a != b
}
