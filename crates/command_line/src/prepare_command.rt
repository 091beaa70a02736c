//! The command line of `bpf_prepare`.

ghost use Rattle.std.specs.Prelude.{◌≡◌, codes, false, IfOk, Some};
ghost use Rattle.std.specs.Str.{bytes_eq};
ghost use Rattle.clap.specs.Simple.{app_of};
ghost use Rattle.command_line.specs.Commands.{TakesObject};
ghost use Rattle.command_line.specs.PrepareCommand.{HasLacks, HasSettings, IsPrepareCommand};

use crate::common_options::{KernelFileTexts, ProgramTexts, with_kernel_files, with_object};
use crate::options::{flag, value, values, with_option};
use clap::Command;
use run_settings::feature_names;
use std::alloc::{AllocError, Global};

const PROGRAM: ProgramTexts<'static> = ProgramTexts {
    name: "bpf_prepare",
    about: "Prints the load plan of an eBPF object file for one kernel, or says why the kernel's loader would have to refuse the object. No kernel is asked.",
    after_help: "\
Settings (TOML): [maps] NAME = NUMBER; [globals.NAME] value = \"HEX\", required = true|false;
[features] NAME = true|false; probe = true|false. A word on the line beats the file.

Status: 0 the plan is on standard output; 1 the object is refused; 2 the line is otherwise, a file
can't be read, settings or kernel types can't be parsed, or the plan can't be written.

A running kernel's types are in /sys/kernel/btf/vmlinux, its symbols in /proc/kallsyms.
An example that works in the repository:
    bin/bpf_prepare examples/trace_unlink.o",
};

const KERNEL_FILES: KernelFileTexts<'static> = KernelFileTexts {
    types: "A file with types of the kernel (BTF, or an ELF file with a section .BTF); type relocations are looked up in all of them, in order",
    types_order: "The byte order of the kernel's types, but for ELF files, which have their own",
    symbols: "A text of the kernel's symbols; without it the text is empty",
};

/// The command with the options that say what the kernel lacks.
fn with_lacks<'a>(alloc: Global, command: Command<'a>) -> Result<Command<'a>, AllocError>
    requires { TakesObject command }
    ensures object { IfOk result TakesObject }
    ensures shape { IfOk result (λ r. HasLacks (app_of command.entry) (app_of r)) }
{
    let denied = values(
        alloc,
        "deny",
        "FEATURE",
        "A feature of types that the kernel doesn't take",
    )
    .value_parser(feature_names());
    let command = with_option(command, denied)?;
    let older = flag(
        alloc,
        "older-helpers",
        "The kernel lacks the newer helpers that read memory",
    );
    let command = with_option(command, older)?;
    Ok(command)
}

/// The command with the options that set something for the object.
fn with_settings<'a>(alloc: Global, command: Command<'a>) -> Result<Command<'a>, AllocError>
    requires { TakesObject command }
    ensures object { IfOk result TakesObject }
    ensures shape { IfOk result (λ r. HasSettings (app_of command.entry) (app_of r)) }
{
    let settings = value(alloc, "settings", "FILE", "A file of settings (TOML)");
    let command = with_option(command, settings)?;
    let maps = values(
        alloc,
        "map",
        "NAME=NUMBER",
        "The number of a map, below 2^31, as a loader's file descriptor",
    );
    let command = with_option(command, maps)?;
    let globals = values(
        alloc,
        "global",
        "NAME=HEX",
        "The bytes of a global variable, which the object must have",
    );
    let command = with_option(command, globals)?;
    let rewrite_first = flag(
        alloc,
        "rewrite-first",
        "Rewrite the object's types before type relocations are looked up in them",
    );
    let command = with_option(command, rewrite_first)?;
    let notes = flag(
        alloc,
        "notes",
        "Say on standard error what may surprise in the object or its plan, as is done on a terminal",
    );
    let command = with_option(command, notes)?;
    let number_maps = flag(
        alloc,
        "number-maps",
        "Give each map without a number the least one that no map has, in order of name",
    );
    let command = with_option(command, number_maps)?;
    Ok(command)
}

/// The program's command line.
pub(crate) fn prepare_command<'a>(alloc: Global) -> Result<Command<'a>, AllocError>
    ensures object { IfOk result TakesObject }
    ensures program { IfOk result (λ r. IsPrepareCommand (app_of r)) }
{
    let command = with_object(alloc, PROGRAM)?;
    let command = with_kernel_files(alloc, command, KERNEL_FILES)?;
    let command = with_lacks(alloc, command)?;
    let command = with_settings(alloc, command)?;
    Ok(command)
}
