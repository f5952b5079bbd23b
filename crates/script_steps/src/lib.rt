//! How expressions and statements of scripts unfold: what is to be done next, and what is still to run then. Paths, and what
//! needs the variables, the fields or the storage, is handed on as it stands.
#![tactic(auto)]

mod block;
mod focus;
mod frame;
mod handed;
mod link;
mod lists;
mod node;
mod operators;
mod outcome;
mod path;
mod stmt;
mod strip;
mod value;

pub use block::{begin_body, begin_loop};
pub use focus::{Focus, Move, Outcome};
pub use frame::{Between, Frame, path_frame};
pub use handed::hand;
pub use link::{arg_at, link_at};
pub use node::again;
pub use outcome::hand_on;
pub use path::{Await, Callee, PathFrame, Point, Root, Writing};
pub use stmt::{begin_run, begin_simple};
pub use strip::bare;
pub use value::begin_value;
