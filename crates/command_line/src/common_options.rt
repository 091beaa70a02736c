//! What the command lines of both programs have in common.

ghost use Rattle.std.specs.Prelude.{◌≡◌, codes, false, IfOk, Some};
ghost use Rattle.std.specs.Str.{bytes_eq};
ghost use Rattle.clap.specs.Simple.{app_of};
ghost use Rattle.command_line.specs.Commands.{object_app, HasKernelFiles, TakesObject};

use crate::options::{value, values, with_option};
use clap::{Arg, ArgAction, Command};
use std::alloc::{AllocError, Global};

/// What `--version` prints after a program's name. bin/package writes into its copy of a proved
/// program, in the place of the text in brackets, that it is proved, and the checksum of its sources.
const VERSION: &str =
    "0.1.0 (unpackaged build: bin/package writes here that it is proved, and of what sources)";

/// What a program's help says about the program.
#[derive(Clone, Copy)]
pub(crate) struct ProgramTexts<'a> {
    pub(crate) name: &'a str,
    pub(crate) about: &'a str,
    pub(crate) after_help: &'a str,
}

/// What a program's help says about the files of kernels.
#[derive(Clone, Copy)]
pub(crate) struct KernelFileTexts<'a> {
    pub(crate) types: &'a str,
    pub(crate) types_order: &'a str,
    pub(crate) symbols: &'a str,
}

/// The command that takes only the object's file.
pub(crate) fn with_object<'a>(
    alloc: Global,
    texts: ProgramTexts<'a>,
) -> Result<Command<'a>, AllocError>
    ensures object { IfOk result TakesObject }
    ensures shape { IfOk result (λ r. app_of r ≡ object_app texts.entry.name.now) }
{
    let object = Arg::new(alloc, "OBJECT")
        .required(true)
        .help("An eBPF object file (ELF64)")
        .action(ArgAction::Set);
    let command = Command::new(alloc, texts.name)
        .version(VERSION)
        .about(texts.about)
        .after_help(texts.after_help)
        .arg(object)?;
    Ok(command)
}

/// The command with the options that name files of kernels.
pub(crate) fn with_kernel_files<'a>(
    alloc: Global,
    command: Command<'a>,
    texts: KernelFileTexts<'a>,
) -> Result<Command<'a>, AllocError>
    requires { TakesObject command }
    ensures object { IfOk result TakesObject }
    ensures shape { IfOk result (λ r. HasKernelFiles (app_of command.entry) (app_of r)) }
{
    let types = values(alloc, "types", "FILE", texts.types);
    let command = with_option(command, types)?;
    let order = value(alloc, "types-order", "ORDER", texts.types_order)
        .value_parser(["little", "big"].as_slice())
        .default_value("little");
    let command = with_option(command, order)?;
    let symbols = value(alloc, "symbols", "FILE", texts.symbols);
    let command = with_option(command, symbols)?;
    Ok(command)
}
