//! Cases of the switch, between lines of the input and objects that are played by hand.
mod given;
mod run;
mod table;
mod tell;

pub(crate) use crate::switches::run::answer;
