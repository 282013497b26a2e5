// What a call of the tracker reads and writes: the run record in 16 lent words, and the six words of the answer.
#![tactic(auto)]

ghost use Rattle.std.specs.Prelude.{◌≡◌, [], ◌∷◌, ◌≤◌, ◌/◌, ◌%◌, length, get_or};
ghost use Rattle.base_limits.specs.Limits.{word_values};
ghost use Rattle.base_limits.specs.Record.{pause_of, eight_words};
ghost use Rattle.base_prelude.specs.Lists.{overlay};
ghost use Rattle.vm_definitions.specs.Access.{store_from};
ghost use Rattle.c_words.specs.Placed.{three_at};
ghost use Rattle.c_words.specs.Words as word;
ghost use Rattle.c_words.specs.Words.{numbers_of, record_size};
ghost use Rattle.c_words.specs.Record.{is_stop, is_listed, pause_held, state_of, state_in, record_of, state_number, state_value, state_place, state_pause, record_over};
ghost use Rattle.c_words.specs.Reply.{reply, unfit_number, refusal_words, stop_number, stop_place, broken_number, broken_place, state_flag, flagged_word, outcome_number, outcome_words, changes, record_after, outcome_reply, resumed_reply, unsound_place, error_number, error_place, start_number, start_place, start_words, record_begun, opening_reply};

use base_limits::{Machine, Pause, State};
use vm_definitions::{Broken, Opening, Outcome, Resumed, StartError};

// Places of the words of the lent record that are used.
#[derive(Drop)]
pub struct RecordWord {}

impl RecordWord {
    pub const STATE: usize = 0;

    pub const NEXT: usize = 1;

    pub const FRAME: usize = 2;

    pub const USED: usize = 3;

    pub const TOP: usize = 4;

    pub const VALUE: usize = 5;

    pub const AT: usize = 6;

    // The first of a pause's eight words.
    pub const ARGUMENTS: usize = 8;

    // Words of the whole record.
    pub const COUNT: usize = 16;
}

// The numbers of the states, as C reads and writes them.
#[derive(Drop)]
pub struct StateNumber {}

impl StateNumber {
    pub const RUNNING: u32 = 1;

    pub const FINISHED: u32 = 2;

    pub const STOPPED: u32 = 3;

    pub const PAUSED: u32 = 4;
}

// What an answer says of the state, as C reads it.
#[derive(Drop)]
pub struct Flag {}

impl Flag {
    // Running or stopped.
    pub const GOING: u32 = 0;

    pub const FINISHED: u32 = 1;

    pub const PAUSED: u32 = 2;
}

// No place.
#[derive(Drop)]
pub struct Place {}

impl Place {
    pub const NONE: u32 = Machine::MARK;
}

// The numbers of this crate.
#[derive(Drop)]
pub struct Numbers {
    pub state: usize,
    pub next: usize,
    pub frame: usize,
    pub used: usize,
    pub top: usize,
    pub value: usize,
    pub at: usize,
    pub arguments: usize,
    pub words: usize,
    pub running: u32,
    pub finished: u32,
    pub stopped: u32,
    pub paused: u32,
    pub flag_going: u32,
    pub flag_finished: u32,
    pub flag_paused: u32,
    pub nowhere: u32,
}

// The constants are the numbers of specs/Words.
pub fn all_numbers() -> Numbers
    ensures { result ≡ numbers_of }
{
    Numbers {
        state: RecordWord::STATE,
        next: RecordWord::NEXT,
        frame: RecordWord::FRAME,
        used: RecordWord::USED,
        top: RecordWord::TOP,
        value: RecordWord::VALUE,
        at: RecordWord::AT,
        arguments: RecordWord::ARGUMENTS,
        words: RecordWord::COUNT,
        running: StateNumber::RUNNING,
        finished: StateNumber::FINISHED,
        stopped: StateNumber::STOPPED,
        paused: StateNumber::PAUSED,
        flag_going: Flag::GOING,
        flag_finished: Flag::FINISHED,
        flag_paused: Flag::PAUSED,
        nowhere: Place::NONE,
    }
}

// Three words from a place on.
fn put_three(out: &mut [u32], i: usize, a: u32, b: u32, c: u32)
    requires { i ≤ 11 }
    ensures { out.new ≡ three_at out.old i a b c }
{
    vm_memory::put(out, i, a);
    vm_memory::put(out, i + 1, b);
    vm_memory::put(out, i + 2, c);
}

// Six words over the front of a buffer; gives the first.
pub fn put_six(out: &mut [u32], a: u32, b: u32, c: u32, d: u32, e: u32, f: u32) -> u32
    ensures { (result ≡ a) × (out.new ≡ overlay (a ∷ b ∷ c ∷ d ∷ e ∷ f ∷ []) out.old) }
{
    put_three(out, 0, a, b, c);
    put_three(out, 3, d, e, f);
    a
}

// Whether a number is that of a stop.
fn is_stop(k: u32) -> bool
    ensures { result ≡ is_stop k }
{
    if k < 30 {
        return false;
    }
    k <= 34
}

// Whether s is the number of a state, a stopped one having the number k of a stop.
fn is_listed(s: u32, k: u32) -> bool
    ensures { result ≡ is_listed s k }
{
    if s == StateNumber::RUNNING {
        return true;
    }
    if s == StateNumber::FINISHED {
        return true;
    }
    if s == StateNumber::STOPPED {
        return is_stop(k);
    }
    s == StateNumber::PAUSED
}

// A listed state, with the words that it may hold.
fn make_state(s: u32, a: u32, b: u32, q: Pause) -> State
    ensures { result ≡ state_of s a b q }
{
    if s == StateNumber::RUNNING {
        return State::Running;
    }
    if s == StateNumber::FINISHED {
        return State::Finished(a);
    }
    if s == StateNumber::STOPPED {
        return State::Stopped {
            number: a,
            statement: b,
        };
    }
    State::Paused(q)
}

// The pause that the words hold, in any state.
fn read_pause(record: &[u32]) -> Pause
    requires { record_size ≤ length «record».now }
    ensures { result ≡ pause_held «record».now }
{
    Pause {
        number: record[RecordWord::VALUE],
        count: record[RecordWord::AT],
        first: record[RecordWord::ARGUMENTS],
        second: record[RecordWord::ARGUMENTS + 1],
        third: record[RecordWord::ARGUMENTS + 2],
        fourth: record[RecordWord::ARGUMENTS + 3],
        fifth: record[RecordWord::ARGUMENTS + 4],
        sixth: record[RecordWord::ARGUMENTS + 5],
        seventh: record[RecordWord::ARGUMENTS + 6],
        eighth: record[RecordWord::ARGUMENTS + 7],
    }
}

// The state that the words hold, where it is listed.
fn read_state(record: &[u32]) -> State
    requires { record_size ≤ length «record».now }
    ensures { result ≡ state_in «record».now }
{
    make_state(
        record[RecordWord::STATE],
        record[RecordWord::VALUE],
        record[RecordWord::AT],
        read_pause(record),
    )
}

// Whether the words hold a listed state.
fn has_state(record: &[u32]) -> bool
    requires { record_size ≤ length «record».now }
    ensures { result ≡ is_listed (get_or «record».now word.state 0) (get_or «record».now word.value 0) }
{
    is_listed(record[RecordWord::STATE], record[RecordWord::VALUE])
}

// The record that the words hold, where they hold one.
pub fn load_record(record: &[u32]) -> Option<Machine>
    ensures { result ≡ record_of «record».now }
{
    if record.len() < RecordWord::COUNT {
        return None;
    }
    if has_state(record) {
        let state = read_state(record);
        return Some(Machine::of_parts(
            state,
            record[RecordWord::NEXT],
            record[RecordWord::FRAME],
            record[RecordWord::USED],
            record[RecordWord::TOP],
        ));
    }
    None
}

// The pause of a record that is not paused: zeros.
fn no_pause() -> Pause
    ensures { result ≡ pause_of 0 [] }
{
    Pause {
        number: 0,
        count: 0,
        first: 0,
        second: 0,
        third: 0,
        fourth: 0,
        fifth: 0,
        sixth: 0,
        seventh: 0,
        eighth: 0,
    }
}

// The number of a state.
fn state_number(s: State) -> u32
    ensures { result ≡ state_number s }
{
    match s {
        State::Running => StateNumber::RUNNING,
        State::Finished(_) => StateNumber::FINISHED,
        State::Stopped { number, statement } => StateNumber::STOPPED,
        State::Paused(_) => StateNumber::PAUSED,
    }
}

// The word of a finished record, the number of a stopped one, of a paused one the imported name's.
fn state_value(s: State) -> u32
    ensures { result ≡ state_value s }
{
    match s {
        State::Running => 0,
        State::Finished(v) => v,
        State::Stopped { number, statement } => number,
        State::Paused(q) => q.number,
    }
}

// The statement of a stopped record, the number of arguments of a paused one.
fn state_place(s: State) -> u32
    ensures { result ≡ state_place s }
{
    match s {
        State::Running => 0,
        State::Finished(_) => 0,
        State::Stopped { number, statement } => statement,
        State::Paused(q) => q.count,
    }
}

// The pause of a paused record, zeros in every other state.
fn state_pause(s: State) -> Pause
    ensures { result ≡ state_pause s }
{
    match s {
        State::Running => no_pause(),
        State::Finished(_) => no_pause(),
        State::Stopped { number, statement } => no_pause(),
        State::Paused(q) => q,
    }
}

// Writes the eight words of a pause.
fn put_pause(record: &mut [u32], q: Pause)
    ensures { «record».new ≡ store_from «record».old word.arguments (eight_words q) }
{
    put_three(record, RecordWord::ARGUMENTS, q.first, q.second, q.third);
    put_three(
        record,
        RecordWord::ARGUMENTS + 3,
        q.fourth,
        q.fifth,
        q.sixth,
    );
    vm_memory::put(record, RecordWord::ARGUMENTS + 6, q.seventh);
    vm_memory::put(record, RecordWord::ARGUMENTS + 7, q.eighth);
}

// Writes a record into the lent words, all but word 7.
pub fn store_record(record: &mut [u32], r: Machine)
    ensures { «record».new ≡ record_over r «record».old }
{
    let s = r.state;
    put_three(record, 0, state_number(s), r.next, r.frame);
    put_three(record, 3, r.used, r.top, state_value(s));
    vm_memory::put(record, RecordWord::AT, state_place(s));
    put_pause(record, state_pause(s));
}

// The number of a stop, or 0.
fn stop_number(s: State) -> u32
    ensures { result ≡ stop_number s }
{
    match s {
        State::Running => 0,
        State::Finished(_) => 0,
        State::Stopped { number, statement } => number,
        State::Paused(_) => 0,
    }
}

// The statement of a stop.
fn stop_place(s: State) -> u32
    ensures { result ≡ stop_place s }
{
    match s {
        State::Running => Place::NONE,
        State::Finished(_) => Place::NONE,
        State::Stopped { number, statement } => statement,
        State::Paused(_) => Place::NONE,
    }
}

// 35, else the number of a stop, else 0.
fn broken_number(b: Broken, s: State) -> u32
    ensures { result ≡ broken_number b s }
{
    match b {
        Broken::No => stop_number(s),
        Broken::At(_) => 35,
        Broken::Somewhere => 35,
    }
}

// The statement of a 35, else of a stop.
fn broken_place(b: Broken, s: State) -> u32
    ensures { result ≡ broken_place b s }
{
    match b {
        Broken::No => stop_place(s),
        Broken::At(i) => i,
        Broken::Somewhere => Place::NONE,
    }
}

// Whether the record has finished or paused.
fn state_flag(s: State) -> u32
    ensures { result ≡ state_flag s }
{
    match s {
        State::Running => Flag::GOING,
        State::Finished(_) => Flag::FINISHED,
        State::Stopped { number, statement } => Flag::GOING,
        State::Paused(_) => Flag::PAUSED,
    }
}

// The word of a finished record, the imported name's number of a paused one.
fn flagged_word(s: State) -> u32
    ensures { result ≡ flagged_word s }
{
    match s {
        State::Running => 0,
        State::Finished(word) => word,
        State::Stopped { number, statement } => 0,
        State::Paused(pause) => pause.number,
    }
}

// The lower half of a count.
fn low_half(n: u64) -> u32
    ensures { result ≡ n % word_values }
{
    (n % Machine::WORD_VALUES) as u32
}

// The upper half of a count.
fn high_half(n: u64) -> u32
    ensures { result ≡ n / word_values }
{
    (n / Machine::WORD_VALUES) as u32
}

// Writes what a step or a run came to in six words, and gives its number.
fn put_outcome(o: Outcome, res: &mut [u32]) -> u32
    ensures { (result ≡ outcome_number o) × (res.new ≡ overlay (outcome_words o) res.old) }
{
    let b = o.broken;
    let n = o.count;
    let r = o.machine;
    let s = r.state;
    put_six(
        res,
        broken_number(b, s),
        broken_place(b, s),
        low_half(n),
        high_half(n),
        state_flag(s),
        flagged_word(s),
    )
}

// Whether a call changed the record, whose state's number was s.
fn is_changed(s: u32, o: Outcome) -> bool
    ensures { result ≡ changes s o }
{
    let n = o.count;
    if n != 0 {
        return true;
    }
    let r = o.machine;
    let state = r.state;
    state_number(state) != s
}

// Writes the record, if the call changed it.
fn keep_record(o: Outcome, record: &mut [u32])
    ensures { «record».new ≡ record_after o «record».old }
{
    let s = prog_tables::word_at(record, RecordWord::STATE);
    if is_changed(s, o) {
        let r = o.machine;
        store_record(record, r);
    }
}

// The answer of a step or a run.
pub fn reply_outcome(o: Outcome, record: &mut [u32], res: &mut [u32]) -> u32
    ensures { reply result «record».new res.new ≡ outcome_reply o «record».old res.old }
{
    keep_record(o, record);
    put_outcome(o, res)
}

// The number of a run where the lent words hold no record.
pub fn unfit_number(budget: u64) -> u32
    ensures { result ≡ unfit_number budget }
{
    if budget == 0 { 0 } else { 35 }
}

// A number alone as the answer.
pub fn reply_refusal(number: u32, res: &mut [u32]) -> u32
    ensures { (result ≡ number) × (res.new ≡ overlay (refusal_words number) res.old) }
{
    put_six(res, number, Place::NONE, 0, 0, 0, 0)
}

// The answer of going on.
pub fn reply_resumed(o: Resumed, record: &mut [u32], res: &mut [u32]) -> u32
    ensures { reply result «record».new res.new ≡ resumed_reply o «record».old res.old }
{
    if o.unpaused {
        return reply_refusal(37, res);
    }
    let outcome = o.outcome;
    reply_outcome(outcome, record, res)
}

// The statement of a 35 at a start.
fn unsound_place(b: Broken) -> u32
    ensures { result ≡ unsound_place b }
{
    match b {
        Broken::No => Place::NONE,
        Broken::At(i) => i,
        Broken::Somewhere => Place::NONE,
    }
}

// The number of a start that has not begun.
fn error_number(e: StartError) -> u32
    ensures { result ≡ error_number e }
{
    match e {
        StartError::Refused(k) => k,
        StartError::Unsound(_) => 35,
    }
}

// The place of a start that has not begun.
fn error_place(e: StartError) -> u32
    ensures { result ≡ error_place e }
{
    match e {
        StartError::Refused(_) => Place::NONE,
        StartError::Unsound(b) => unsound_place(b),
    }
}

// The number of a start's answer.
fn start_number(a: Result<(), StartError>) -> u32
    ensures { result ≡ start_number a }
{
    match a {
        Ok(()) => 0,
        Err(e) => error_number(e),
    }
}

// The place of a start's answer.
fn start_place(a: Result<(), StartError>) -> u32
    ensures { result ≡ start_place a }
{
    match a {
        Ok(()) => Place::NONE,
        Err(e) => error_place(e),
    }
}

// Writes a start's answer in six words, and gives its number.
fn put_start(a: Result<(), StartError>, res: &mut [u32]) -> u32
    ensures { (result ≡ start_number a) × (res.new ≡ overlay (start_words a) res.old) }
{
    put_six(res, start_number(a), start_place(a), 0, 0, 0, 0)
}

// Writes the record that a start has begun.
fn keep_begun(a: Result<(), StartError>, r: Machine, record: &mut [u32])
    ensures { «record».new ≡ record_begun a r «record».old }
{
    match a {
        Ok(()) => store_record(record, r),
        Err(_) => {}
    }
}

// The answer of a start.
pub fn reply_opening(o: Opening, record: &mut [u32], res: &mut [u32]) -> u32
    ensures { reply result «record».new res.new ≡ opening_reply o «record».old res.old }
{
    let a = o.answer;
    let r = o.machine;
    keep_begun(a, r, record);
    put_start(a, res)
}
