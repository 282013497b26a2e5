// The reserved words: one constant table with the number and the operand counts of each, and the substitutes.
#![tactic(auto)]

ghost use Rattle.std.specs.Prelude.{◌≡◌, ◌+◌, ◌<◌, ◌≤◌, eqb, get_or};
ghost use Rattle.base_prelude.specs.Bytes.{byte_at};
ghost use Rattle.base_prelude.specs.Lists.{same_list};
ghost use Rattle.lang_words.specs.Words.{number_of, least_operands, most_operands};
ghost use Rattle.lang_words.specs.Table.{rows, letter_at, spelled};
ghost use Rattle.lang_words.specs.Numbers.{numbers};
ghost use Rattle.lang_words.specs.Substitutes.{substitute_of};
ghost use Rattle.lang_words.specs.Sections.{section_of, known_of};

use base_limits::Machine;

// The numbers of the words, as the token table holds them: 0 is none, so that a row of zeros names no word.
#[derive(Drop)]
pub struct Word {}

impl Word {
    pub const SECTION: u32 = 1;

    pub const IMPORT: u32 = 2;

    pub const EXPORT: u32 = 3;

    pub const ALIGN: u32 = 4;

    pub const BYTE: u32 = 5;

    pub const WORD: u32 = 6;

    pub const STRING: u32 = 7;

    pub const GROUP: u32 = 8;

    pub const FUNCTION: u32 = 9;

    pub const BLOCK: u32 = 10;

    pub const END: u32 = 11;

    pub const ELSE: u32 = 12;

    pub const IF: u32 = 13;

    pub const CALL: u32 = 14;

    pub const GOTO: u32 = 15;

    pub const LET: u32 = 16;

    pub const RETURN: u32 = 17;

    pub const SET: u32 = 18;

    pub const SET_BYTE: u32 = 19;

    pub const SET_WORD: u32 = 20;

    pub const TAIL_CALL: u32 = 21;

    pub const SAVE_FRAME: u32 = 22;

    pub const SAVE_LOCALS: u32 = 23;

    pub const SAVE_FRAME_AND_LOCALS: u32 = 24;

    pub const RESTORE_FRAME: u32 = 25;

    pub const RESTORE_LOCALS: u32 = 26;

    pub const IFEQ: u32 = 27;

    pub const IFGE: u32 = 28;

    pub const IFGT: u32 = 29;

    pub const IFLE: u32 = 30;

    pub const IFLT: u32 = 31;

    pub const IFNE: u32 = 32;

    pub const ADD: u32 = 33;

    pub const AND: u32 = 34;

    pub const ASR: u32 = 35;

    pub const AUTO_BYTES: u32 = 36;

    pub const AUTO_WORDS: u32 = 37;

    pub const BSR: u32 = 38;

    pub const DIV: u32 = 39;

    pub const GET_BYTE: u32 = 40;

    pub const GET_WORD: u32 = 41;

    pub const MOD: u32 = 42;

    pub const MUL: u32 = 43;

    pub const NOT: u32 = 44;

    pub const OR: u32 = 45;

    pub const ROL: u32 = 46;

    pub const ROR: u32 = 47;

    pub const SHL: u32 = 48;

    pub const SHR: u32 = 49;

    pub const SUB: u32 = 50;

    pub const XOR: u32 = 51;

    // Identifiers of sections, which are not reserved.
    pub const DATA: u32 = 52;

    pub const FUNCTIONS: u32 = 53;

    pub const CODE: u32 = 54;

    // The numbers of reserved words are below it.
    pub const PAST_WORDS: u32 = Word::DATA;
}

// The numbers of the substitutes, as the token table holds them.
#[derive(Drop)]
pub struct Substitutes {}

impl Substitutes {
    pub const BITS_PER_WORD: u32 = 1;

    pub const BYTES_PER_WORD: u32 = 2;

    pub const SAVED_FRAME_SIZE: u32 = 3;
}

// A row of the table: the place of the word's first letter, its length, its number, the least and the most operand tokens.
#[derive(Clone, Copy)]
struct Row(usize, usize, u32, u32, u32);

// The letters of all words, in the order of the rows.
const LETTERS: [u8; 283] =
    *b"sectionimportexportalignbytewordstringgroupfunctionblockendelseifcallgotoletreturnsetset-byteset-wordtail-callsave-framesave-localssave-frame-and-localsrestore-framerestore-localsifeqifgeifgtifleifltifneaddandasrauto-bytesauto-wordsbsrdivget-byteget-wordmodmulnotorrolrorshlshrsubxor";

// The table. A row's number is the word's own, and not its place.
const ROWS: [Row; 51] = [
    Row(0, 7, Word::SECTION, 1, 1),
    Row(7, 6, Word::IMPORT, 1, 1),
    Row(13, 6, Word::EXPORT, 1, 1),
    Row(19, 5, Word::ALIGN, 0, 1),
    Row(24, 4, Word::BYTE, 1, 1),
    Row(28, 4, Word::WORD, 1, 1),
    Row(32, 6, Word::STRING, 1, 1),
    Row(38, 5, Word::GROUP, 0, 0),
    Row(43, 8, Word::FUNCTION, 0, Machine::PARAMETERS),
    Row(51, 5, Word::BLOCK, 0, 0),
    Row(56, 3, Word::END, 1, 1),
    Row(59, 4, Word::ELSE, 0, 3),
    Row(63, 2, Word::IF, 0, 0),
    Row(65, 4, Word::CALL, 1, Machine::PARAMETERS + 1),
    Row(69, 4, Word::GOTO, 1, 1),
    Row(73, 3, Word::LET, 2, Machine::PARAMETERS + 3),
    Row(76, 6, Word::RETURN, 0, Machine::PARAMETERS + 2),
    Row(82, 3, Word::SET, 2, Machine::PARAMETERS + 3),
    Row(85, 8, Word::SET_BYTE, 3, 3),
    Row(93, 8, Word::SET_WORD, 3, 3),
    Row(101, 9, Word::TAIL_CALL, 1, Machine::PARAMETERS + 1),
    Row(110, 10, Word::SAVE_FRAME, 1, 1),
    Row(120, 11, Word::SAVE_LOCALS, 1, Machine::LOCALS + 1),
    Row(131, 21, Word::SAVE_FRAME_AND_LOCALS, 1, Machine::LOCALS + 1),
    Row(152, 13, Word::RESTORE_FRAME, 1, 1),
    Row(165, 14, Word::RESTORE_LOCALS, 1, Machine::LOCALS + 1),
    Row(179, 4, Word::IFEQ, 2, 2),
    Row(183, 4, Word::IFGE, 2, 2),
    Row(187, 4, Word::IFGT, 2, 2),
    Row(191, 4, Word::IFLE, 2, 2),
    Row(195, 4, Word::IFLT, 2, 2),
    Row(199, 4, Word::IFNE, 2, 2),
    Row(203, 3, Word::ADD, 2, 2),
    Row(206, 3, Word::AND, 2, 2),
    Row(209, 3, Word::ASR, 2, 2),
    Row(212, 10, Word::AUTO_BYTES, 1, 1),
    Row(222, 10, Word::AUTO_WORDS, 1, 1),
    Row(232, 3, Word::BSR, 2, 2),
    Row(235, 3, Word::DIV, 2, 2),
    Row(238, 8, Word::GET_BYTE, 2, 2),
    Row(246, 8, Word::GET_WORD, 2, 2),
    Row(254, 3, Word::MOD, 2, 2),
    Row(257, 3, Word::MUL, 2, 2),
    Row(260, 3, Word::NOT, 1, 1),
    Row(263, 2, Word::OR, 2, 2),
    Row(265, 3, Word::ROL, 2, 2),
    Row(268, 3, Word::ROR, 2, 2),
    Row(271, 3, Word::SHL, 2, 2),
    Row(274, 3, Word::SHR, 2, 2),
    Row(277, 3, Word::SUB, 2, 2),
    Row(280, 3, Word::XOR, 2, 2),
];

// The numbers under their names, in the order of the numbers.
const NUMBERS: [u32; 51] = [
    Word::SECTION,
    Word::IMPORT,
    Word::EXPORT,
    Word::ALIGN,
    Word::BYTE,
    Word::WORD,
    Word::STRING,
    Word::GROUP,
    Word::FUNCTION,
    Word::BLOCK,
    Word::END,
    Word::ELSE,
    Word::IF,
    Word::CALL,
    Word::GOTO,
    Word::LET,
    Word::RETURN,
    Word::SET,
    Word::SET_BYTE,
    Word::SET_WORD,
    Word::TAIL_CALL,
    Word::SAVE_FRAME,
    Word::SAVE_LOCALS,
    Word::SAVE_FRAME_AND_LOCALS,
    Word::RESTORE_FRAME,
    Word::RESTORE_LOCALS,
    Word::IFEQ,
    Word::IFGE,
    Word::IFGT,
    Word::IFLE,
    Word::IFLT,
    Word::IFNE,
    Word::ADD,
    Word::AND,
    Word::ASR,
    Word::AUTO_BYTES,
    Word::AUTO_WORDS,
    Word::BSR,
    Word::DIV,
    Word::GET_BYTE,
    Word::GET_WORD,
    Word::MOD,
    Word::MUL,
    Word::NOT,
    Word::OR,
    Word::ROL,
    Word::ROR,
    Word::SHL,
    Word::SHR,
    Word::SUB,
    Word::XOR,
];

// The k-th number: the constants of Word are the numbers of specs/Numbers.
pub fn word_number(k: usize) -> u32
    requires { k < 51 }
    ensures { result ≡ get_or numbers k 0 }
{
    NUMBERS[k]
}

// The table as a local value: a loop reads its rows.
fn table() -> [Row; 51]
    ensures { result ≡ rows }
{
    ROWS
}

// Whether a name is the word of a row.
fn is_word(name: &[u8], row: Row) -> bool
    requires { row.0 + row.1 ≤ 283 }
    ensures { result ≡ same_list name.now (spelled row.0 row.1) }
{
    name == &LETTERS[row.0..row.0 + row.1]
}

// The number of a word, 0 for any other name.
pub fn lookup(name: &[u8]) -> u32
    ensures { result ≡ number_of name.now }
{
    for row in &table() {
        if is_word(name, *row) {
            return row.2;
        }
    }
    0
}

// The row of the word with a number, all zeros where there is none.
fn row_of(number: u32) -> Row
    ensures { (result.3 ≡ least_operands number) × (result.4 ≡ most_operands number) }
{
    for row in &table() {
        if row.2 == number {
            return *row;
        }
    }
    Row(0, 0, 0, 0, 0)
}

// The least operand tokens that may follow a word.
pub fn least_operands(number: u32) -> u32
    ensures { result ≡ least_operands number }
{
    let row = row_of(number);
    row.3
}

// The most operand tokens that may follow a word.
pub fn most_operands(number: u32) -> u32
    ensures { result ≡ most_operands number }
{
    let row = row_of(number);
    row.4
}

// The number of a substitute, 0 for any other name.
pub fn substitute(name: &[u8]) -> u32
    ensures { result ≡ substitute_of name.now }
{
    if base_prelude::same(name, b"bits-per-word") {
        return Substitutes::BITS_PER_WORD;
    }
    if base_prelude::same(name, b"bytes-per-word") {
        return Substitutes::BYTES_PER_WORD;
    }
    if base_prelude::same(name, b"saved-frame-size") {
        return Substitutes::SAVED_FRAME_SIZE;
    }
    0
}

// The identifier of a section that a name is, 0 for any other.
pub fn section(name: &[u8]) -> u32
    ensures { result ≡ section_of name.now }
{
    if base_prelude::same(name, b"data") {
        return Word::DATA;
    }
    if base_prelude::same(name, b"functions") {
        return Word::FUNCTIONS;
    }
    if base_prelude::same(name, b"code") {
        return Word::CODE;
    }
    0
}

// The reserved word or section identifier that a name is, 0 for any other.
pub fn known(name: &[u8]) -> u32
    ensures { result ≡ known_of name.now }
{
    let k = lookup(name);
    if k == 0 {
        return section(name);
    }
    k
}
