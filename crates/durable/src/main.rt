//! The program: the top call over real files and the standard streams.
#![tactic(auto)]

use do_disk::{FolderDepot, FreeGate, StdSink, StdSource};
use do_host::{Report, run};
use std::process::ExitCode;
use std::{env, io};

/// The status for want of memory.
const NO_MEMORY: u8 = 4;

fn main(rt: HostRuntime) -> ExitCode {
    let alloc = rt.alloc();
    let Some(words) = words(&rt) else {
        return ExitCode::from(NO_MEMORY);
    };
    let input = StdSource::new(rt.stdin());
    let out = StdSink::new(rt.stdout());
    let mut depot = FolderDepot::new(&rt);
    let mut report = Report::new(alloc);
    let ran = run(
        &rt,
        alloc,
        &words,
        &mut depot,
        input,
        out,
        &FreeGate,
        &mut report,
    );
    ExitCode::from(ran.status)
}

// The words without the program's name. There are none where one isn't UTF-8, so these are refused as any others that
// aren't taken. `None` is want of memory.
fn words(rt: &HostRuntime) -> Option<Vec<String>> {
    let mut words = Vec::new(rt.alloc());
    match env::args(rt) {
        Ok(all) => {
            for word in all.skip(1) {
                words.push(word).ok()?;
            }
            Some(words)
        }
        Err(error) if error.kind() == io::ErrorKind::OutOfMemory => None,
        Err(_) => Some(words),
    }
}
