//! What the programs of cases share. A case is a line of JSON, a list that begins with the word of what is tried; what comes
//! of it is printed. A line that is no JSON is a heading. Cases name the scripts that they run.
#![tactic(auto)]

mod row;
mod scripts;
mod tell;
mod telling;

pub use row::{count, flag, number, row_of, value, word};
pub use scripts::{
    BLOCKS, CABINET, COMPUTED, COUNTER, LIMITS, OPTIONS, PATHS, PUT_AND_READ, REARMING, RECURSION,
    ROOM, SOFT_READS, STORING, TIMER, TWO_CLASSES, named,
};
pub use tell::{tell_number, tell_record, tell_text, tell_value};
pub use telling::Telling;
