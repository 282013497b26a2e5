// Kinds of lines and statements: where each may stand, what it opens and closes.
#![tactic(auto)]

ghost use Rattle.std.specs.Prelude.{◌≡◌};
ghost use Rattle.lang_kinds.specs.Kinds.{kinds_of};
ghost use Rattle.lang_kinds.specs.Grounds.{grounds_of};
ghost use Rattle.lang_kinds.specs.Tokens.{tokens_of};
ghost use Rattle.lang_kinds.specs.TokenRow.{token_row_of};
ghost use Rattle.lang_kinds.specs.Nesting.{statement_in, refused_in, stands_in, rows_of, enters, leaves, ground_of, is_frame, kind_of_word};

use std::ops::Range;

// The kinds of lines and statements. Numbers: words of lent tables, where any may stand, and which C reads.
#[derive(Drop)]
pub struct Kind {}

impl Kind {
    pub const EDGE: u32 = 0;

    pub const FUNCTION: u32 = 1;

    pub const END_FUNCTION: u32 = 2;

    pub const BLOCK: u32 = 3;

    pub const END_BLOCK: u32 = 4;

    pub const LET: u32 = 5;

    pub const SET: u32 = 6;

    pub const SET_AT: u32 = 7;

    pub const SET_BYTE: u32 = 8;

    pub const SET_WORD: u32 = 9;

    pub const GOTO: u32 = 10;

    pub const CALL: u32 = 11;

    pub const TAIL_CALL: u32 = 12;

    pub const RETURN: u32 = 13;

    pub const IFEQ: u32 = 14;

    pub const IFGE: u32 = 15;

    pub const IFGT: u32 = 16;

    pub const IFLE: u32 = 17;

    pub const IFLT: u32 = 18;

    pub const IFNE: u32 = 19;

    pub const ELSE: u32 = 20;

    pub const ELSE_IF: u32 = 21;

    pub const END_IF: u32 = 22;

    pub const PAST_ROWS: u32 = 23;

    pub const SECTION_DATA: u32 = 25;

    pub const SECTION_FUNCTIONS: u32 = 26;

    pub const EXPORT: u32 = 27;

    pub const ALIGN: u32 = 28;

    pub const BYTE: u32 = 29;

    pub const WORD: u32 = 30;

    pub const STRING: u32 = 31;

    pub const GROUP: u32 = 32;

    pub const END_GROUP: u32 = 33;

    pub const LEFT_OUT: u32 = 34;

    pub const UNKNOWN: u32 = 35;

    pub const IMPORT_LINE: u32 = 36;
}

// Every constant of Kind.
#[derive(Drop)]
pub struct Kinds {
    pub edge: u32,
    pub function: u32,
    pub end_function: u32,
    pub block: u32,
    pub end_block: u32,
    pub let_line: u32,
    pub set: u32,
    pub set_at: u32,
    pub set_byte: u32,
    pub set_word: u32,
    pub goto: u32,
    pub call: u32,
    pub tail_call: u32,
    pub return_line: u32,
    pub ifeq: u32,
    pub ifge: u32,
    pub ifgt: u32,
    pub ifle: u32,
    pub iflt: u32,
    pub ifne: u32,
    pub else_line: u32,
    pub else_if: u32,
    pub end_if: u32,
    pub past_rows: u32,
    pub section_data: u32,
    pub section_functions: u32,
    pub export: u32,
    pub align: u32,
    pub byte: u32,
    pub word: u32,
    pub string: u32,
    pub group: u32,
    pub end_group: u32,
    pub left_out: u32,
    pub unknown: u32,
    pub import_line: u32,
}

// The constants of Kind are the numbers of specs/Kinds.
pub fn all_kinds() -> Kinds
    ensures { result ≡ kinds_of }
{
    Kinds {
        edge: Kind::EDGE,
        function: Kind::FUNCTION,
        end_function: Kind::END_FUNCTION,
        block: Kind::BLOCK,
        end_block: Kind::END_BLOCK,
        let_line: Kind::LET,
        set: Kind::SET,
        set_at: Kind::SET_AT,
        set_byte: Kind::SET_BYTE,
        set_word: Kind::SET_WORD,
        goto: Kind::GOTO,
        call: Kind::CALL,
        tail_call: Kind::TAIL_CALL,
        return_line: Kind::RETURN,
        ifeq: Kind::IFEQ,
        ifge: Kind::IFGE,
        ifgt: Kind::IFGT,
        ifle: Kind::IFLE,
        iflt: Kind::IFLT,
        ifne: Kind::IFNE,
        else_line: Kind::ELSE,
        else_if: Kind::ELSE_IF,
        end_if: Kind::END_IF,
        past_rows: Kind::PAST_ROWS,
        section_data: Kind::SECTION_DATA,
        section_functions: Kind::SECTION_FUNCTIONS,
        export: Kind::EXPORT,
        align: Kind::ALIGN,
        byte: Kind::BYTE,
        word: Kind::WORD,
        string: Kind::STRING,
        group: Kind::GROUP,
        end_group: Kind::END_GROUP,
        left_out: Kind::LEFT_OUT,
        unknown: Kind::UNKNOWN,
        import_line: Kind::IMPORT_LINE,
    }
}

// The grounds. Numbers: a line stands on a range of them, and `stands_on` of specs/Standing is a law of any number.
#[derive(Drop)]
pub struct Ground {}

impl Ground {
    pub const BEFORE_SECTIONS: u32 = 0;

    pub const FUNCTIONS_SECTION: u32 = 1;

    pub const DATA_SECTION: u32 = 2;

    pub const GROUP: u32 = 3;

    pub const IN_FUNCTION: u32 = 4;

    pub const IN_BLOCK: u32 = 5;

    pub const IN_TEST_ARM: u32 = 6;

    pub const IN_ELSE_ARM: u32 = 7;

    pub const PAST_GROUNDS: u32 = 8;
}

// Every constant of Ground.
#[derive(Drop)]
pub struct Grounds {
    pub before_sections: u32,
    pub functions_section: u32,
    pub data_section: u32,
    pub group: u32,
    pub in_function: u32,
    pub in_block: u32,
    pub in_test_arm: u32,
    pub in_else_arm: u32,
    pub past_grounds: u32,
}

// The constants of Ground are the numbers of specs/Grounds.
pub fn all_grounds() -> Grounds
    ensures { result ≡ grounds_of }
{
    Grounds {
        before_sections: Ground::BEFORE_SECTIONS,
        functions_section: Ground::FUNCTIONS_SECTION,
        data_section: Ground::DATA_SECTION,
        group: Ground::GROUP,
        in_function: Ground::IN_FUNCTION,
        in_block: Ground::IN_BLOCK,
        in_test_arm: Ground::IN_TEST_ARM,
        in_else_arm: Ground::IN_ELSE_ARM,
        past_grounds: Ground::PAST_GROUNDS,
    }
}

// The kinds of tokens. Numbers: words of the lent token table.
#[derive(Drop)]
pub struct Token {}

impl Token {
    pub const SOURCE_END: u32 = 0;

    pub const NEWLINE: u32 = 1;

    pub const LABEL: u32 = 2;

    pub const SYMBOL: u32 = 3;

    pub const SUBSTITUTE: u32 = 4;

    pub const AT_SYMBOL: u32 = 5;

    pub const AT_SUBSTITUTE: u32 = 6;

    pub const INTEGER: u32 = 7;

    pub const AT_INTEGER: u32 = 8;

    pub const STRING: u32 = 9;

    pub const PAST_TOKENS: u32 = 16;
}

// Every constant of Token.
#[derive(Drop)]
pub struct Tokens {
    pub source_end: u32,
    pub newline: u32,
    pub label: u32,
    pub symbol: u32,
    pub substitute: u32,
    pub at_symbol: u32,
    pub at_substitute: u32,
    pub integer: u32,
    pub at_integer: u32,
    pub string: u32,
    pub past_tokens: u32,
}

// The constants of Token are the numbers of specs/Tokens.
pub fn all_tokens() -> Tokens
    ensures { result ≡ tokens_of }
{
    Tokens {
        source_end: Token::SOURCE_END,
        newline: Token::NEWLINE,
        label: Token::LABEL,
        symbol: Token::SYMBOL,
        substitute: Token::SUBSTITUTE,
        at_symbol: Token::AT_SYMBOL,
        at_substitute: Token::AT_SUBSTITUTE,
        integer: Token::INTEGER,
        at_integer: Token::AT_INTEGER,
        string: Token::STRING,
        past_tokens: Token::PAST_TOKENS,
    }
}

// The words of a token row.
#[derive(Drop)]
pub struct TokenRow {}

impl TokenRow {
    pub const KIND: usize = 0;

    pub const FIRST: usize = 1;

    pub const NEXT: usize = 2;

    pub const VALUE: usize = 3;

    pub const NAME: usize = 4;

    pub const WORD: usize = 5;

    pub const HASH: usize = 6;

    pub const STATEMENT: usize = 7;

    pub const HOST: usize = 7;
}

// Every constant of TokenRow.
#[derive(Drop)]
pub struct TokenRows {
    pub kind: usize,
    pub first: usize,
    pub next: usize,
    pub value: usize,
    pub name: usize,
    pub word: usize,
    pub hash: usize,
    pub statement: usize,
    pub host: usize,
}

// The constants of TokenRow are the numbers of specs/TokenRow.
pub fn all_token_words() -> TokenRows
    ensures { result ≡ token_row_of }
{
    TokenRows {
        kind: TokenRow::KIND,
        first: TokenRow::FIRST,
        next: TokenRow::NEXT,
        value: TokenRow::VALUE,
        name: TokenRow::NAME,
        word: TokenRow::WORD,
        hash: TokenRow::HASH,
        statement: TokenRow::STATEMENT,
        host: TokenRow::HOST,
    }
}

// Ends, tests and other statements.
#[tactic(auto, using(base_prelude::proofs::Choice::tests), unfolding(crate::specs::Nesting::statement_in))]
fn statement_range(k: u32) -> Range<u32>
    ensures { result ≡ statement_in k }
{
    match k {
        Kind::FUNCTION => Ground::FUNCTIONS_SECTION..Ground::DATA_SECTION,
        Kind::END_FUNCTION => Ground::IN_FUNCTION..Ground::IN_BLOCK,
        Kind::END_BLOCK => Ground::IN_BLOCK..Ground::IN_TEST_ARM,
        Kind::LET => Ground::IN_FUNCTION..Ground::IN_TEST_ARM,
        Kind::EDGE..=Kind::IFNE => Ground::IN_FUNCTION..Ground::PAST_GROUNDS,
        Kind::ELSE | Kind::ELSE_IF => Ground::IN_TEST_ARM..Ground::IN_ELSE_ARM,
        Kind::END_IF => Ground::IN_TEST_ARM..Ground::PAST_GROUNDS,
        _ => Ground::BEFORE_SECTIONS..Ground::BEFORE_SECTIONS,
    }
}

// The grounds on which a kind may stand.
#[tactic(auto, using(base_prelude::proofs::Choice::tests), unfolding(crate::specs::Nesting::stands_in))]
pub fn stands_in(k: u32) -> Range<u32>
    ensures { result ≡ stands_in k }
{
    match k {
        Kind::EDGE => Ground::BEFORE_SECTIONS..Ground::GROUP,
        Kind::FUNCTION..Kind::SECTION_DATA => statement_range(k),
        Kind::SECTION_DATA | Kind::SECTION_FUNCTIONS => Ground::BEFORE_SECTIONS..Ground::GROUP,
        Kind::EXPORT => Ground::FUNCTIONS_SECTION..Ground::GROUP,
        Kind::ALIGN => Ground::FUNCTIONS_SECTION..Ground::IN_FUNCTION,
        Kind::BYTE..=Kind::STRING => Ground::DATA_SECTION..Ground::IN_FUNCTION,
        Kind::GROUP => Ground::DATA_SECTION..Ground::GROUP,
        Kind::END_GROUP => Ground::GROUP..Ground::IN_FUNCTION,
        Kind::IMPORT_LINE => Ground::FUNCTIONS_SECTION..Ground::DATA_SECTION,
        _ => refused_range(k),
    }
}

// Lines that are refused wherever they stand; a number that is no kind stands nowhere.
#[tactic(auto, using(base_prelude::proofs::Choice::tests), unfolding(crate::specs::Nesting::refused_in))]
fn refused_range(k: u32) -> Range<u32>
    ensures { result ≡ refused_in k }
{
    match k {
        Kind::LEFT_OUT | Kind::UNKNOWN => Ground::BEFORE_SECTIONS..Ground::PAST_GROUNDS,
        _ => Ground::BEFORE_SECTIONS..Ground::BEFORE_SECTIONS,
    }
}

// How many rows a line makes.
#[tactic(auto, using(base_prelude::proofs::Choice::tests), unfolding(crate::specs::Nesting::rows_of))]
pub fn rows_of(k: u32) -> u32
    ensures { result ≡ rows_of k }
{
    match k {
        Kind::EDGE => 0,
        Kind::ELSE_IF => 2,
        _ => u32::from(k < Kind::SECTION_DATA),
    }
}

// Whether a row is open behind itself.
#[tactic(auto, using(base_prelude::proofs::Choice::tests), unfolding(crate::specs::Nesting::enters))]
pub fn is_opener(k: u32) -> bool
    ensures { result ≡ enters k }
{
    matches!(k, Kind::FUNCTION | Kind::BLOCK | Kind::IFEQ..=Kind::ELSE)
}

// Whether a row closes what is open before it.
#[tactic(auto, using(base_prelude::proofs::Choice::tests), unfolding(crate::specs::Nesting::leaves))]
pub fn is_closer(k: u32) -> bool
    ensures { result ≡ leaves k }
{
    matches!(
        k,
        Kind::END_FUNCTION | Kind::END_BLOCK | Kind::ELSE..=Kind::END_IF
    )
}

// The ground behind an open row of a kind.
#[tactic(auto, using(base_prelude::proofs::Choice::tests), unfolding(crate::specs::Nesting::ground_of))]
pub fn ground_of(k: u32) -> u32
    ensures { result ≡ ground_of k }
{
    match k {
        Kind::FUNCTION => Ground::IN_FUNCTION,
        Kind::BLOCK => Ground::IN_BLOCK,
        Kind::IFEQ..=Kind::IFNE => Ground::IN_TEST_ARM,
        Kind::ELSE => Ground::IN_ELSE_ARM,
        _ => Ground::BEFORE_SECTIONS,
    }
}

// A function or a block.
#[tactic(auto, using(base_prelude::proofs::Choice::tests), unfolding(crate::specs::Nesting::is_frame))]
pub fn is_frame(k: u32) -> bool
    ensures { result ≡ is_frame k }
{
    matches!(k, Kind::FUNCTION | Kind::BLOCK)
}

const WORD_KINDS: [u32; 33] = [
    Kind::UNKNOWN,
    Kind::UNKNOWN,
    Kind::IMPORT_LINE,
    Kind::EXPORT,
    Kind::ALIGN,
    Kind::BYTE,
    Kind::WORD,
    Kind::STRING,
    Kind::GROUP,
    Kind::FUNCTION,
    Kind::BLOCK,
    Kind::UNKNOWN,
    Kind::ELSE,
    Kind::UNKNOWN,
    Kind::CALL,
    Kind::GOTO,
    Kind::LET,
    Kind::RETURN,
    Kind::SET,
    Kind::SET_BYTE,
    Kind::SET_WORD,
    Kind::TAIL_CALL,
    Kind::LEFT_OUT,
    Kind::LEFT_OUT,
    Kind::LEFT_OUT,
    Kind::LEFT_OUT,
    Kind::LEFT_OUT,
    Kind::IFEQ,
    Kind::IFGE,
    Kind::IFGT,
    Kind::IFLE,
    Kind::IFLT,
    Kind::IFNE,
];

// The kind of a line by its magic word.
pub fn kind_of_word(w: u32) -> u32
    ensures { result ≡ kind_of_word w }
{
    match WORD_KINDS.get(w as usize) {
        Some(kind) => *kind,
        None => Kind::UNKNOWN,
    }
}
