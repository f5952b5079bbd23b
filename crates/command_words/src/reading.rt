//! The command that the words are.
ghost use Rattle.std.specs.Prelude.{◌≡◌, ◌≢◌, IfOk, map, string_bytes};
ghost use Rattle.clap.specs.Words.{kind_of};
ghost use Rattle.command_words.specs.Asked.{asked, usage};
ghost use Rattle.command_words.specs.Seen.{asked_of, IsInRanges};

use crate::command::Command;
use crate::described::described;
use crate::matched::matched;
use clap::Error;
use clap::error::ErrorKind;
use do_value::{Mem, NoMemory};
use std::alloc::Global;

/// The command that the words are: `serve SCRIPT FOLDER [--slots N] [--workers N] [--journal-bytes N]`, `check SCRIPT`,
/// `dump FOLDER [--slots N]` or `gen SEED COUNT FOLDER`, and [`Command::Usage`] where they are none of these.
///
/// Options stand before, between or after the positional words, each at most once, and `--` ends them. The value of an option
/// is the next word, or follows `=` in the same word. A number is decimal digits, without a zero before others. There is no
/// help: `help` and `--help` are no command.
pub fn command_of(alloc: Global, words: &[String]) -> Mem<Command>
    ensures asked { IfOk result (λ command. asked_of command ≡ asked (map string_bytes words.now)) }
    ensures ranges { IfOk result IsInRanges }
{
    let program = match described(alloc) {
        Ok(program) => program,
        Err(_) => return Err(NoMemory),
    };
    match program.try_get_matches_from(words) {
        Ok(matches) => matched(alloc, &matches),
        Err(error) => refused(error),
    }
}

// Words that aren't taken are no command, and want of memory says nothing of them.
fn refused(error: Error) -> Mem<Command>
    ensures usage { IfOk result (λ command. asked_of command ≡ usage) }
    ensures ranges { IfOk result IsInRanges }
    ensures kind { IfOk result (λ _. kind_of error ≢ ErrorKind.OutOfMemory) }
{
    match error.kind() {
        ErrorKind::OutOfMemory => Err(NoMemory),
        _ => Ok(Command::Usage),
    }
}
