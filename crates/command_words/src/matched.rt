//! The command that a parse's matches are.
ghost use Rattle.std.specs.Prelude.{◌≡◌, IfOk, string_bytes};
ghost use Rattle.clap.specs.Words.{rows_of, found_of, first_of, subcommand_rows_of};
ghost use Rattle.command_words.specs.Asked.{asked_by, serve_by, check_by, dump_by, gen_by};
ghost use Rattle.command_words.specs.Matched.{asked_at};
ghost use Rattle.command_words.specs.Numbers.{text_of};
ghost use Rattle.command_words.specs.Seen.{asked_of, IsInRanges};

use crate::command::{Command, ServeWords};
use crate::number::{Range, number_in, number_or};
use clap::ArgMatches;
use do_disk::MOST_SLOTS;
use do_value::{Mem, NoMemory};
use std::alloc::Global;

const SLOTS: Range = Range {
    least: 1,
    most: MOST_SLOTS as u64,
    otherwise: 16,
};

const WORKERS: Range = Range {
    least: 1,
    most: 16,
    otherwise: 4,
};

const JOURNAL: Range = Range {
    least: 4_096,
    most: 1_099_511_627_776,
    otherwise: 1_073_741_824,
};

// The most lines that `gen` makes.
const MOST_MADE: u64 = 1_000_000;

// The command of these matches.
pub(crate) fn matched(alloc: Global, matches: &ArgMatches<'_>) -> Mem<Command>
    ensures asked { IfOk result (λ command. asked_of command ≡ asked_at (subcommand_rows_of matches.now)) }
    ensures ranges { IfOk result IsInRanges }
{
    match matches.subcommand() {
        Some((name, inner)) => commanded(alloc, name, inner),
        None => Ok(Command::Usage),
    }
}

fn commanded(alloc: Global, name: &str, inner: &ArgMatches<'_>) -> Mem<Command>
    ensures asked { IfOk result (λ command. asked_of command ≡ asked_by name.now (λ id. first_of id (rows_of (found_of inner.now)))) }
    ensures ranges { IfOk result IsInRanges }
{
    if name == "serve" {
        serve_of(alloc, inner)
    } else if name == "check" {
        check_of(alloc, inner)
    } else if name == "dump" {
        dump_of(alloc, inner)
    } else if name == "gen" {
        gen_of(alloc, inner)
    } else {
        Ok(Command::Usage)
    }
}

fn serve_of(alloc: Global, inner: &ArgMatches<'_>) -> Mem<Command>
    ensures asked { IfOk result (λ command. asked_of command ≡ serve_by (λ id. first_of id (rows_of (found_of inner.now)))) }
    ensures ranges { IfOk result IsInRanges }
{
    let Some(script) = word_of(inner, "script") else {
        return Ok(Command::Usage);
    };
    let Some(folder) = word_of(inner, "folder") else {
        return Ok(Command::Usage);
    };
    let Some(slots) = number_or(word_of(inner, "slots"), SLOTS) else {
        return Ok(Command::Usage);
    };
    let Some(workers) = number_or(word_of(inner, "workers"), WORKERS) else {
        return Ok(Command::Usage);
    };
    let Some(journal) = number_or(word_of(inner, "journal-bytes"), JOURNAL) else {
        return Ok(Command::Usage);
    };
    Ok(Command::Serve(ServeWords {
        script: owned(alloc, script)?,
        folder: owned(alloc, folder)?,
        slots: slots as u32,
        workers: workers as u32,
        journal,
    }))
}

fn check_of(alloc: Global, inner: &ArgMatches<'_>) -> Mem<Command>
    ensures asked { IfOk result (λ command. asked_of command ≡ check_by (λ id. first_of id (rows_of (found_of inner.now)))) }
    ensures ranges { IfOk result IsInRanges }
{
    match word_of(inner, "script") {
        Some(script) => Ok(Command::Check {
            script: owned(alloc, script)?,
        }),
        None => Ok(Command::Usage),
    }
}

fn dump_of(alloc: Global, inner: &ArgMatches<'_>) -> Mem<Command>
    ensures asked { IfOk result (λ command. asked_of command ≡ dump_by (λ id. first_of id (rows_of (found_of inner.now)))) }
    ensures ranges { IfOk result IsInRanges }
{
    let Some(folder) = word_of(inner, "folder") else {
        return Ok(Command::Usage);
    };
    let Some(slots) = number_or(word_of(inner, "slots"), SLOTS) else {
        return Ok(Command::Usage);
    };
    Ok(Command::Dump {
        folder: owned(alloc, folder)?,
        slots: slots as u32,
    })
}

fn gen_of(alloc: Global, inner: &ArgMatches<'_>) -> Mem<Command>
    ensures asked { IfOk result (λ command. asked_of command ≡ gen_by (λ id. first_of id (rows_of (found_of inner.now)))) }
    ensures ranges { IfOk result IsInRanges }
{
    let Some(seed) = number_in(word_of(inner, "seed"), u64::MAX) else {
        return Ok(Command::Usage);
    };
    let Some(count) = number_in(word_of(inner, "count"), MOST_MADE) else {
        return Ok(Command::Usage);
    };
    let Some(folder) = word_of(inner, "folder") else {
        return Ok(Command::Usage);
    };
    Ok(Command::Gen {
        seed,
        count,
        folder: owned(alloc, folder)?,
    })
}

// The word that was matched under this id.
fn word_of<'a>(inner: &ArgMatches<'a>, id: &str) -> Option<&'a str>
    ensures { text_of result ≡ first_of id.now (rows_of (found_of inner.now)) }
{
    inner.get_str(id)
}

fn owned(alloc: Global, text: &str) -> Mem<String>
    ensures { IfOk result (λ s. string_bytes s ≡ text.now) }
{
    match String::from_str(alloc, text) {
        Ok(text) => Ok(text),
        Err(_) => Err(NoMemory),
    }
}
