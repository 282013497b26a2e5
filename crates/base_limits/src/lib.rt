// The machine's type: its limits as associated constants, and the run record.
#![tactic(auto)]

ghost use Rattle.std.specs.Prelude.{◌≡◌};
ghost use Rattle.base_limits.specs.Limits.{limits_of};
ghost use Rattle.base_limits.specs.Width.{bits_of, bytes_of, data_limit};
ghost use Rattle.base_limits.specs.Record.{fresh_of, going_on, moved_to, ended, stopped, with_state, of_parts};
ghost use Rattle.base_limits.specs.declared.Width.TheVariants.{Bits32};

// The width of a word.
#[derive(Clone, Copy)]
pub enum Width {
    Bits32,
    Bits16,
}

// A call to an imported function, which the host answers: the imported name's number, the number of arguments and their words, 0 beyond them.
#[derive(Clone, Copy)]
pub struct Pause {
    pub number: u32,
    pub count: u32,
    pub first: u32,
    pub second: u32,
    pub third: u32,
    pub fourth: u32,
    pub fifth: u32,
    pub sixth: u32,
    pub seventh: u32,
    pub eighth: u32,
}

// The state of a run: running, finished with a value, stopped with a number at a statement, or paused at a call to an imported function.
#[derive(Clone, Copy)]
pub enum State {
    Running,
    Finished(u32),
    Stopped { number: u32, statement: u32 },
    Paused(Pause),
}

// A refusal: its number, and the place it speaks of.
#[derive(Clone, Copy)]
pub struct Refusal {
    pub number: u32,
    pub place: usize,
}

// The run record: the state, the next statement, the start of the frame in use, the stack words in use, the auto top.
#[derive(Clone, Copy)]
pub struct Machine {
    pub state: State,
    pub next: u32,
    pub frame: u32,
    pub used: u32,
    pub top: u32,
}

impl Machine {
    pub const WORD_BITS: u32 = 32;

    pub const SOURCE_BYTES: usize = 16384;

    pub const TOKENS: usize = 4096;

    pub const STATEMENTS: usize = 1024;

    pub const LABELS: usize = 256;

    pub const NAME_BYTES: usize = 64;

    pub const PARAMETERS: u32 = 8;

    pub const LOCALS: u32 = 64;

    pub const BLOCK_DEPTH: u32 = 16;

    pub const DATA_BYTES: usize = 32768;

    pub const MEMORY_BYTES: usize = 65536;

    pub const STACK_WORDS: usize = 16384;

    pub const ALIGNMENT: u32 = 4096;

    // How many numbers a word of 32 bits holds.
    pub const WORD_VALUES: u64 = 4294967296;

    pub const TOKEN_ROW: usize = 8;

    pub const TOKEN_WORDS: usize = 32768;

    // No statement, no frame.
    pub const MARK: u32 = 4294967295;

    // The record at a start: the next statement, the size of the first frame, the auto top.
    pub fn fresh(next: u32, size: u32, top: u32) -> Machine
        ensures { result ≡ fresh_of next size top }
    {
        Machine {
            state: State::Running,
            next,
            frame: 0,
            used: size,
            top,
        }
    }

    // Going on at statement n with an auto top.
    pub fn going_on(r: Machine, n: u32, top: u32) -> Machine
        ensures { result ≡ going_on r n top }
    {
        Machine { next: n, top, ..r }
    }

    // In another frame.
    pub fn moved(r: Machine, n: u32, frame: u32, used: u32, top: u32) -> Machine
        ensures { result ≡ moved_to r n frame used top }
    {
        Machine {
            next: n,
            frame,
            used,
            top,
            ..r
        }
    }

    // Finished with a word.
    pub fn ended(v: u32, top: u32) -> Machine
        ensures { result ≡ ended Bits32 v top }
    {
        Machine {
            state: State::Finished(v),
            next: Machine::MARK,
            frame: Machine::MARK,
            used: 0,
            top,
        }
    }

    // Stopped at its statement.
    pub fn stopped(r: Machine, k: u32) -> Machine
        ensures { result ≡ stopped r k }
    {
        Machine {
            state: State::Stopped {
                number: k,
                statement: r.next,
            },
            ..r
        }
    }

    // In another state.
    pub fn with_state(s: State, r: Machine) -> Machine
        ensures { result ≡ with_state s r }
    {
        Machine { state: s, ..r }
    }

    // Read back from its parts.
    pub fn of_parts(s: State, next: u32, frame: u32, used: u32, top: u32) -> Machine
        ensures { result ≡ of_parts s next frame used top }
    {
        Machine {
            state: s,
            next,
            frame,
            used,
            top,
        }
    }
}

// Every constant of the type.
#[derive(Drop)]
pub struct Limits {
    pub word_bits: u32,
    pub source_bytes: usize,
    pub tokens: usize,
    pub statements: usize,
    pub labels: usize,
    pub name_bytes: usize,
    pub parameters: u32,
    pub locals: u32,
    pub block_depth: u32,
    pub data_bytes: usize,
    pub memory_bytes: usize,
    pub stack_words: usize,
    pub alignment: u32,
    pub word_values: u64,
    pub token_row: usize,
    pub token_words: usize,
    pub mark: u32,
}

// The constants of the type are the numbers of specs/Limits.
pub fn all_limits() -> Limits
    ensures { result ≡ limits_of }
{
    Limits {
        word_bits: Machine::WORD_BITS,
        source_bytes: Machine::SOURCE_BYTES,
        tokens: Machine::TOKENS,
        statements: Machine::STATEMENTS,
        labels: Machine::LABELS,
        name_bytes: Machine::NAME_BYTES,
        parameters: Machine::PARAMETERS,
        locals: Machine::LOCALS,
        block_depth: Machine::BLOCK_DEPTH,
        data_bytes: Machine::DATA_BYTES,
        memory_bytes: Machine::MEMORY_BYTES,
        stack_words: Machine::STACK_WORDS,
        alignment: Machine::ALIGNMENT,
        word_values: Machine::WORD_VALUES,
        token_row: Machine::TOKEN_ROW,
        token_words: Machine::TOKEN_WORDS,
        mark: Machine::MARK,
    }
}

// Bits of a word.
pub fn bits_of(w: Width) -> u32
    ensures { result ≡ bits_of w }
{
    match w {
        Width::Bits32 => Machine::WORD_BITS,
        Width::Bits16 => 16,
    }
}

// Bytes of a word.
pub fn bytes_of(w: Width) -> u32
    ensures { result ≡ bytes_of w }
{
    match w {
        Width::Bits32 => 4,
        Width::Bits16 => 2,
    }
}

// The most bytes of data.
pub fn data_limit(w: Width) -> usize
    ensures { result ≡ data_limit w }
{
    match w {
        Width::Bits32 => Machine::DATA_BYTES,
        Width::Bits16 => 16384,
    }
}
