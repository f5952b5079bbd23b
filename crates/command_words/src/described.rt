//! The program's commands, described for `clap`.
ghost use Rattle.std.specs.Prelude.{◌≡◌, false, IfOk};
ghost use Rattle.clap.specs.Words.{app_of, rule_of};
ghost use Rattle.clap.specs.declared.builder.command.Command.TheViews.{out-Command as fields_of};
ghost use Rattle.command_words.specs.Described.{described, serve_described, check_described, dump_described, gen_described, option_described, bare};

use clap::{Arg, Command};
use std::alloc::{AllocError, Global};

// Everything that the words may be.
pub(crate) fn described<'a>(alloc: Global) -> Result<Command<'a>, AllocError>
    ensures { IfOk result (λ r. app_of r ≡ described) }
{
    let program = bare(alloc)
        .subcommand(serve_described(alloc)?)?
        .subcommand(check_described(alloc)?)?
        .subcommand(dump_described(alloc)?)?
        .subcommand(gen_described(alloc)?)?;
    Ok(program)
}

// The program alone: no name of its own among the words, and no help.
fn bare<'a>(alloc: Global) -> Command<'a>
    ensures app { app_of result ≡ bare }
    ensures local { (fields_of result).has_globals ≡ false }
{
    Command::new(alloc, "durable")
        .no_binary_name(true)
        .disable_help_flag(true)
        .disable_help_subcommand(true)
}

fn serve_described<'a>(alloc: Global) -> Result<Command<'a>, AllocError>
    ensures app { IfOk result (λ r. app_of r ≡ serve_described) }
    ensures local { IfOk result (λ r. (fields_of r).has_globals ≡ false) }
{
    let command = Command::new(alloc, "serve")
        .arg(option_described(alloc, "slots"))?
        .arg(option_described(alloc, "workers"))?
        .arg(option_described(alloc, "journal-bytes"))?
        .arg(Arg::new(alloc, "script"))?
        .arg(Arg::new(alloc, "folder"))?;
    Ok(command)
}

fn check_described<'a>(alloc: Global) -> Result<Command<'a>, AllocError>
    ensures app { IfOk result (λ r. app_of r ≡ check_described) }
    ensures local { IfOk result (λ r. (fields_of r).has_globals ≡ false) }
{
    let command = Command::new(alloc, "check").arg(Arg::new(alloc, "script"))?;
    Ok(command)
}

fn dump_described<'a>(alloc: Global) -> Result<Command<'a>, AllocError>
    ensures app { IfOk result (λ r. app_of r ≡ dump_described) }
    ensures local { IfOk result (λ r. (fields_of r).has_globals ≡ false) }
{
    let command = Command::new(alloc, "dump")
        .arg(option_described(alloc, "slots"))?
        .arg(Arg::new(alloc, "folder"))?;
    Ok(command)
}

fn gen_described<'a>(alloc: Global) -> Result<Command<'a>, AllocError>
    ensures app { IfOk result (λ r. app_of r ≡ gen_described) }
    ensures local { IfOk result (λ r. (fields_of r).has_globals ≡ false) }
{
    let command = Command::new(alloc, "gen")
        .arg(Arg::new(alloc, "seed"))?
        .arg(Arg::new(alloc, "count"))?
        .arg(Arg::new(alloc, "folder"))?;
    Ok(command)
}

// An option that is read back under its own name.
fn option_described<'a>(alloc: Global, name: &'a str) -> Arg<'a>
    ensures rule { rule_of result ≡ option_described name.entry.now }
    ensures local { result.global ≡ false }
{
    Arg::new(alloc, name).long(name)
}
