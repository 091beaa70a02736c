//! Options besides the object's file.

ghost use Rattle.std.specs.Prelude.{◌≡◌, false, IfOk};
ghost use Rattle.clap.specs.Built.{IsPlainArg};
ghost use Rattle.clap.specs.Simple.{app_of, with_rule};
ghost use Rattle.clap.specs.Walk.{rule_of};
ghost use Rattle.command_line.specs.Commands.{TakesObject};
ghost use Rattle.command_line.specs.Options.{flag, repeated, valued, IsOption};

use clap::{Arg, ArgAction, Command};
use std::alloc::{AllocError, Global};

/// An option with a value.
pub(crate) fn value<'a>(alloc: Global, id: &'a str, name: &'a str, help: &'a str) -> Arg<'a>
    ensures plain { IsPlainArg result }
    ensures local { result.global ≡ false }
    ensures id { result.id ≡ id.entry }
    ensures rule { rule_of result ≡ valued id.entry.now }
{
    Arg::new(alloc, id)
        .long(id)
        .value_name(name)
        .help(help)
        .action(ArgAction::Set)
}

/// An option with a value that may be given several times.
pub(crate) fn values<'a>(alloc: Global, id: &'a str, name: &'a str, help: &'a str) -> Arg<'a>
    ensures plain { IsPlainArg result }
    ensures local { result.global ≡ false }
    ensures id { result.id ≡ id.entry }
    ensures rule { rule_of result ≡ repeated id.entry.now }
{
    value(alloc, id, name, help).action(ArgAction::Append)
}

/// An option without a value.
pub(crate) fn flag<'a>(alloc: Global, id: &'a str, help: &'a str) -> Arg<'a>
    ensures plain { IsPlainArg result }
    ensures local { result.global ≡ false }
    ensures id { result.id ≡ id.entry }
    ensures rule { rule_of result ≡ flag id.entry.now }
{
    Arg::new(alloc, id)
        .long(id)
        .help(help)
        .action(ArgAction::SetTrue)
}

/// The command with one more option.
pub(crate) fn with_option<'a>(
    command: Command<'a>,
    option: Arg<'a>,
) -> Result<Command<'a>, AllocError>
    requires object { TakesObject command }
    requires option { IsOption option }
    ensures object { IfOk result TakesObject }
    ensures shape { IfOk result (λ r.
        app_of r ≡ with_rule (app_of command.entry) (rule_of option.entry)) }
{
    let command = command.arg(option)?;
    Ok(command)
}
