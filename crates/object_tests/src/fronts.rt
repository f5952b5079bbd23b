//! Fronts driven by hand, turn by turn.
mod drive;
mod given;
mod tell;

pub(crate) use crate::fronts::drive::answer;
