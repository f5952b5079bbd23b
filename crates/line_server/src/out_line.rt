//! The lines of the output.
ghost use Rattle.std.specs.Prelude.{◌≡◌, IfOk};

use do_value::{Mem, Text, Value};
use timeline::Failure;

/// Why a line of the input is refused.
#[derive(Debug, Clone, Copy, PartialEq, Eq, Drop)]
pub enum Why {
    /// It has more bytes before its LF than are read.
    Long,
    /// It is no JSON (RFC 8259) in UTF-8, or nests more than 127 deep.
    Json,
    /// It is JSON of no known form.
    Shape,
    /// It is a tick below the last one.
    Tick,
    /// It answers what is no fetch without an answer.
    Fetch,
}

/// What a request waits for at the end of a run.
#[derive(Debug, Drop)]
pub enum WaitLine {
    /// The fetch of this number among all.
    Fetch(u64),
    /// A call of the object of this class and name.
    Call { class: Text, name: Text },
    /// The end of a block.
    Block,
}

impl WaitLine {
    /// The same again, in memory of its own.
    pub fn copy(&self) -> Mem<WaitLine>
        ensures { IfOk result (λ wait. wait ≡ self.now) }
    {
        match self {
            WaitLine::Fetch(k) => Ok(WaitLine::Fetch(*k)),
            WaitLine::Call { class, name } => Ok(WaitLine::Call {
                class: class.copy()?,
                name: name.copy()?,
            }),
            WaitLine::Block => Ok(WaitLine::Block),
        }
    }
}

/// A line of the output. Its `number` is that of a request.
#[derive(Debug)]
pub enum OutLine {
    /// `["reply",n,value]`: what the request was answered.
    Reply {
        number: i64,
        value: Value,
    },
    /// `["error",n,word,..]`: why the request has no value.
    Error {
        number: i64,
        failure: Failure,
    },
    /// `["fetch",k,class,name,value]`: an object fetches, as the fetch of number k among all.
    Fetch {
        k: u64,
        class: Text,
        name: Text,
        value: Value,
    },
    /// `["refused",line,why]`: a line of the input, counted from 1, is refused.
    Refused {
        line: u64,
        why: Why,
    },
    /// `["waiting",n,..]`: what the request waits for at the end.
    Waiting {
        number: i64,
        on: WaitLine,
    },
}

// Written out, so that letting one go is proved once.
impl Drop for OutLine {
    fn drop(self) {
        match self {
            OutLine::Reply { number: _, value } => drop(value),
            OutLine::Error { number: _, failure } => drop(failure),
            OutLine::Fetch {
                k: _,
                class,
                name,
                value,
            } => {
                drop(class);
                drop(name);
                drop(value);
            }
            OutLine::Refused { line: _, why } => drop(why),
            OutLine::Waiting { number: _, on } => drop(on),
        }
    }
}

impl OutLine {
    /// The same line again, in memory of its own.
    pub fn copy(&self) -> Mem<OutLine>
        ensures { IfOk result (λ line. line ≡ self.now) }
    {
        match self {
            OutLine::Reply { number, value } => Ok(OutLine::Reply {
                number: *number,
                value: value.copy()?,
            }),
            OutLine::Error { number, failure } => Ok(OutLine::Error {
                number: *number,
                failure: failure.copy()?,
            }),
            OutLine::Fetch {
                k,
                class,
                name,
                value,
            } => Ok(OutLine::Fetch {
                k: *k,
                class: class.copy()?,
                name: name.copy()?,
                value: value.copy()?,
            }),
            OutLine::Refused { line, why } => Ok(OutLine::Refused {
                line: *line,
                why: *why,
            }),
            OutLine::Waiting { number, on } => Ok(OutLine::Waiting {
                number: *number,
                on: on.copy()?,
            }),
        }
    }
}
