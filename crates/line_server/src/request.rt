//! What a line of the input asks.
use do_value::{Args, Mem, Text, Value};
use storage_map::Identity;

/// A request. Its numbers are whole and from 0 to 2^53 - 1; they may repeat, since a request is its line.
#[derive(Debug)]
pub enum Request {
    /// `["call",n,class,name,method,args]`: a call of an object's method, answered under the number n.
    Call {
        number: i64,
        to: Identity,
        method: Text,
        args: Args,
    },
    /// `["tick",t]`: the time, in milliseconds.
    Tick(i64),
    /// `["fetched",k,value]`: the answer to fetch k.
    Fetched {
        k: u64,
        value: Value,
    },
    /// `["fetch-failed",k]`: fetch k has no answer.
    FetchFailed {
        k: u64,
    },
    /// `["evict",class,name]`: the object's fields are dropped.
    Evict(Identity),
}

// Written out, so that letting one go is proved once.
impl Drop for Request {
    fn drop(self) {
        match self {
            Request::Call {
                number: _,
                to,
                method,
                args,
            } => {
                drop(to);
                drop(method);
                drop(args);
            }
            Request::Fetched { k: _, value } => drop(value),
            Request::Evict(part) => drop(part),
            Request::Tick(_) | Request::FetchFailed { k: _ } => {}
        }
    }
}

impl Request {
    ghost use Rattle.std.specs.Prelude.{◌≡◌, IfOk};

    /// The same request again, in memory of its own.
    pub fn copy(&self) -> Mem<Request>
        ensures { IfOk result (λ request. request ≡ self.now) }
    {
        match self {
            Request::Call {
                number,
                to,
                method,
                args,
            } => Ok(Request::Call {
                number: *number,
                to: to.copy()?,
                method: method.copy()?,
                args: args.copy()?,
            }),
            Request::Tick(time) => Ok(Request::Tick(*time)),
            Request::Fetched { k, value } => Ok(Request::Fetched {
                k: *k,
                value: value.copy()?,
            }),
            Request::FetchFailed { k } => Ok(Request::FetchFailed { k: *k }),
            Request::Evict(to) => Ok(Request::Evict(to.copy()?)),
        }
    }
}
