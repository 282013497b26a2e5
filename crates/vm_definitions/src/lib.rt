// The word machine: what a read, an expression, a return, a step and a start may come to.
#![tactic(auto)]

use base_limits::Machine;

// The value of an expression, and the auto top behind it.
#[derive(Clone, Copy, Debug, PartialEq, Eq)]
pub struct Value {
    pub word: u32,
    pub top: u32,
}

// Where a return comes out: the run ends, or it goes on behind a call.
#[derive(Drop)]
pub enum Resumption {
    Ends {
        top: u32,
    },
    Caller {
        call: u32,
        frame: u32,
        used: u32,
        top: u32,
    },
}

// Refusal 35: not given, given at a statement, given with no place.
// Stays an enum: `lower` (specs/Broken) takes the least of three answers; an Option of an Option is no plainer.
#[derive(Clone, Copy)]
pub enum Broken {
    No,
    At(u32),
    Somewhere,
}

// Why a start has not begun: a refusal with its number, or 35.
#[derive(Clone, Copy)]
pub enum StartError {
    Refused(u32),
    Unsound(Broken),
}

// What a step or a run gives back: the record, the steps counted, refusal 35.
#[derive(Clone, Copy)]
pub struct Outcome {
    pub machine: Machine,
    pub count: u64,
    pub broken: Broken,
}

// What going on gives back: as a step, or 37 for a record that is not paused.
// A flag beside the outcome: `resumed` (specs/Lent) says of 37 too that the record stays.
#[derive(Drop)]
pub struct Resumed {
    pub outcome: Outcome,
    pub unpaused: bool,
}

// What a start gives back: the record and the answer.
// The record beside the answer: `opened` (vm_start) says of a refusal that it stays.
#[derive(Drop)]
pub struct Opening {
    pub machine: Machine,
    pub answer: Result<(), StartError>,
}
