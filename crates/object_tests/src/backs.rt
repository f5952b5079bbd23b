//! Backs driven by hand, over disks in memory.
mod drive;
mod given;
mod tell;

pub(crate) use crate::backs::drive::answer;
