// Memory words, operands and expressions: each function is the definition of vm_definitions/specs at 32 bits.
#![tactic(auto)]

ghost use Rattle.std.specs.Prelude.{◌≡◌, [], ◌∷◌, ◌+◌, ◌≤◌, ◌<◌, length};
ghost use Rattle.base_limits.specs.Limits.{memory_bytes};
ghost use Rattle.base_limits.specs.declared.Width.TheVariants.{Bits32};
ghost use Rattle.vm_definitions.specs.Access.{byte_address, word_address, byte_good, word_good, load_of};
ghost use Rattle.vm_definitions.specs.Operands.{number_in, fetch_of, read_of, valued};
ghost use Rattle.base_word.specs.Word.{error_stop};
ghost use Rattle.lang_words.specs.Words.{least_operands};
ghost use Rattle.vm_definitions.specs.Expressions.{eval_of, test_holds};
ghost use Rattle.vm_definitions.specs.Operators.{reserved, answered, fetched, byte_of, applied};

use base_word::WordError;
use lang_kinds::Kind;
use lang_words::Word as Operator;
use prog_tables::{ExpressionKind, Operand};
use vm_definitions::Value;

// The address of a byte: base and offset.
pub fn byte_address(b: u32, o: u32) -> u32
    ensures { result ≡ byte_address Bits32 b o }
{
    base_word::add(b, o)
}

// The address of a word: base and offset in words.
pub fn word_address(b: u32, o: u32) -> u32
    ensures { result ≡ word_address Bits32 b o }
{
    base_word::add(b, base_word::mul(4, o))
}

// Whether n bytes of memory have the byte at a.
pub fn has_byte(n: usize, a: u32) -> bool
    ensures { result ≡ byte_good n a }
{
    (a as usize) < n
}

// Whether n bytes of memory have the word at a.
pub fn has_word(n: usize, a: u32) -> bool
    ensures { result ≡ word_good Bits32 n a }
{
    a % 4 == 0 && a as usize + 4 <= n
}

fn wide(b: u8) -> u32
    ensures { (result ≡ b) × (result < 256) }
{
    b as u32
}

// The word at a.
pub fn load(m: &[u8], a: u32) -> u32
    requires { a + 4 ≤ length m.now }
    ensures { result ≡ load_of Bits32 m.now a }
{
    let i = a as usize;
    wide(m[i]) + 256 * wide(m[i + 1]) + 65536 * wide(m[i + 2]) + 16777216 * wide(m[i + 3])
}

// The word at a, or stop 32.
pub fn fetch(m: &[u8], a: u32) -> Option<u32>
    ensures { result ≡ fetch_of Bits32 m.now a }
{
    if has_word(m.len(), a) {
        Some(load(m, a))
    } else {
        None
    }
}

// An operand's own number: behind `@` it is an address. s is where the frame starts.
pub fn number_in(st: &[u32], s: u32, o: Operand) -> u32
    ensures { result ≡ number_in Bits32 st.now s o }
{
    match o {
        Operand::Constant(v) => v,
        Operand::Local(x) => prog_tables::word_at(st, s as usize + x as usize),
        Operand::Address(v) => v,
        Operand::AtConstant(v) => v,
        Operand::AtLocal(x) => prog_tables::word_at(st, s as usize + x as usize),
        Operand::AtAddress(v) => v,
        Operand::Unlisted => 0,
    }
}

// An operand's word, or stop 32.
pub fn read_operand(st: &[u32], s: u32, m: &[u8], o: Operand) -> Option<u32>
    ensures { result ≡ read_of Bits32 st.now s m.now o }
{
    match o {
        Operand::Constant(v) => Some(v),
        Operand::Local(x) => Some(prog_tables::word_at(st, s as usize + x as usize)),
        Operand::Address(v) => Some(v),
        Operand::AtConstant(v) => fetch(m, v),
        Operand::AtLocal(x) => fetch(m, prog_tables::word_at(st, s as usize + x as usize)),
        Operand::AtAddress(v) => fetch(m, v),
        Operand::Unlisted => Some(0),
    }
}

// Auto memory: so many bytes behind the auto top, of n bytes of memory.
pub fn reserve(n: usize, top: u32, bytes: u64) -> Result<Value, u32>
    requires { (n ≤ memory_bytes) × (bytes < 17179869184) }
    ensures { result ≡ reserved Bits32 n top bytes }
{
    let at = (top as u64 + 3) / 4 * 4;
    let end = at + bytes;
    if (n as u64) < end {
        return Err(34);
    }
    Ok(Value {
        word: at as u32,
        top: end as u32,
    })
}

// A word, the auto top staying.
fn with_top(word: u32, top: u32) -> Result<Value, u32>
    ensures { result ≡ valued word top }
{
    Ok(Value { word, top })
}

// The stop of an operator's refusal.
fn stop_number(e: WordError) -> u32
    ensures { result ≡ error_stop e }
{
    match e {
        WordError::Division => 30,
        WordError::Shift => 31,
    }
}

// An operator's answer, the auto top staying.
fn from_answer(top: u32, a: Result<u32, WordError>) -> Result<Value, u32>
    ensures { result ≡ answered top a }
{
    match a {
        Ok(v) => with_top(v, top),
        Err(e) => Err(stop_number(e)),
    }
}

// A word read, the auto top staying.
fn from_read(top: u32, f: Option<u32>) -> Result<Value, u32>
    ensures { result ≡ fetched top f }
{
    match f {
        Some(v) => with_top(v, top),
        None => Err(32),
    }
}

// The byte at a, or stop 32.
fn byte_at(m: &[u8], top: u32, a: u32) -> Result<Value, u32>
    ensures { result ≡ byte_of m.now top a }
{
    if has_byte(m.len(), a) {
        let i = a as usize;
        return with_top(wide(m[i]), top);
    }
    Err(32)
}

// Operator e of x, and of y where it takes two.
pub fn apply(e: u32, x: u32, y: u32, m: &[u8], top: u32) -> Result<Value, u32>
    requires { length m.now ≤ memory_bytes }
    ensures { result ≡ applied Bits32 m.now top e x y }
{
    match e {
        Operator::ADD => with_top(base_word::add(x, y), top),
        Operator::AND => with_top(base_word::and(x, y), top),
        Operator::ASR => from_answer(top, base_word::asr(x, y)),
        Operator::AUTO_BYTES => reserve(m.len(), top, x as u64),
        Operator::AUTO_WORDS => reserve(m.len(), top, 4 * x as u64),
        Operator::BSR => from_answer(top, base_word::bsr(x, y)),
        Operator::DIV => from_answer(top, base_word::div(x, y)),
        Operator::GET_BYTE => byte_at(m, top, byte_address(x, y)),
        Operator::GET_WORD => from_read(top, fetch(m, word_address(x, y))),
        Operator::MOD => from_answer(top, base_word::rem(x, y)),
        Operator::MUL => with_top(base_word::mul(x, y), top),
        Operator::NOT => with_top(base_word::not(x), top),
        Operator::OR => with_top(base_word::or(x, y), top),
        Operator::ROL => from_answer(top, base_word::rol(x, y)),
        Operator::ROR => from_answer(top, base_word::ror(x, y)),
        Operator::SHL => from_answer(top, base_word::shl(x, y)),
        Operator::SHR => from_answer(top, base_word::bsr(x, y)),
        Operator::SUB => with_top(base_word::sub(x, y), top),
        Operator::XOR => with_top(base_word::xor(x, y), top),
        _ => with_top(0, top),
    }
}

// The least operand tokens of the word with number e; an operator's are known without a search.
fn least_operands(e: u32) -> u32
    ensures { result ≡ least_operands e }
{
    if prog_tables::is_operator(e) {
        return prog_tables::expression_uses(e, 0);
    }
    lang_words::least_operands(e)
}

// An expression of kind e over operands a and b.
pub fn eval(
    e: u32,
    a: Operand,
    b: Operand,
    st: &[u32],
    s: u32,
    m: &[u8],
    top: u32,
) -> Result<Value, u32>
    requires { length m.now ≤ memory_bytes }
    ensures { result ≡ eval_of Bits32 st.now s m.now top e (a ∷ b ∷ []) }
{
    let f = read_operand(st, s, m, a);
    if e == ExpressionKind::PLAIN {
        return from_read(top, f);
    }
    let Some(x) = f else {
        return Err(32);
    };
    if least_operands(e) == 1 {
        return apply(e, x, 0, m, top);
    }
    let Some(y) = read_operand(st, s, m, b) else {
        return Err(32);
    };
    apply(e, x, y, m, top)
}

// Whether a test holds.
pub fn test(k: u32, x: u32, y: u32) -> bool
    ensures { result ≡ test_holds Bits32 k x y }
{
    match k {
        Kind::IFEQ => base_word::equal(x, y),
        Kind::IFGE => base_word::greater_equal(x, y),
        Kind::IFGT => base_word::greater(x, y),
        Kind::IFLE => base_word::less_equal(x, y),
        Kind::IFLT => base_word::less(x, y),
        _ => base_word::not_equal(x, y),
    }
}
