//! The storage of one object on its disk: its journal, with the index of its keys and a bounded cache of its values. Batches are staged,
//! taken and appended, and asks answered. A value is read where it stands in the journal once an answer needs it.
#![tactic(auto)]

mod answering;
mod fault;
pub mod laws;
mod pairs;
mod reading;
mod storage;
mod value;
mod writing;

pub use answering::answer;
pub use fault::AnswerFault;
pub use storage::Storage;
pub use writing::{append, take};
