use machine::fault::MachineFault;
use reader::place::Place;
use std::alloc::AllocError;

// A machine's fault at a line of a script.
#[derive(Clone, Copy, Debug, PartialEq, Eq)]
pub struct LineFault {
    pub line: usize,
    pub fault: MachineFault,
}

// Why a line of a script is denied: it reads as no call, or the machine denies its call.
#[derive(Clone, Copy, Debug, PartialEq, Eq)]
pub enum ScriptFault {
    Text(Place),
    Call(LineFault),
}

// Why a script is not run at all: it is too long, or there is no memory for what it comes to.
#[derive(Clone, Copy, Debug, PartialEq, Eq)]
pub enum RunError {
    Denied(ScriptFault),
    Memory(AllocError),
}
