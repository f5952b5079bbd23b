//! Calls, once their arguments are evaluated: of the storage, of a transaction's handle, of the environment, of values and of
//! the words of the language.
#![tactic(auto)]

mod ending;
mod handle;
mod keys;
mod object;
mod storage;
mod value;
mod word;

pub use handle::call_handle;
pub use object::call_object;
pub use storage::call_storage;
pub use value::call_value;
pub use word::{call_owner, call_word};
