//! The command line of `inspect_object`.

ghost use Rattle.std.specs.Prelude.{◌≡◌, codes, false, IfOk, Some};
ghost use Rattle.std.specs.Str.{bytes_eq};
ghost use Rattle.clap.specs.Simple.{app_of};
ghost use Rattle.command_line.specs.Commands.{TakesObject};
ghost use Rattle.command_line.specs.InspectCommand.{HasReports, IsInspectCommand, check_rules, listing_rules, object_rules};
ghost use Rattle.command_line.specs.Options.{with_rules};

use crate::common_options::{KernelFileTexts, ProgramTexts, with_kernel_files, with_object};
use crate::options::{flag, value, values, with_option};
use clap::Command;
use std::alloc::{AllocError, Global};

const PROGRAM: ProgramTexts<'static> = ProgramTexts {
    name: "inspect_object",
    about: "Prints what an eBPF object file holds, a line an item; with --types, what becomes of it on kernels. No kernel is asked.",
    after_help: "\
Each file of --types is a kernel of its own: types as in /sys/kernel/btf/vmlinux, or an ELF file with a
section .BTF, as vmlinux. Several may follow one --types, as a shell writes them for DIR/*.btf, up to the
next word that begins with a dash; then the object stands first, after -- or last. A folder stands for the
files with types of kernels in it. For each kernel, lines say whether the object gets a plan there, whether
the kernel has what its programs, maps and types need, what each of its type relocations comes to, and
whether each of its externs is there. Every map counts as numbered, the variables have the values of the
file, and the kernel takes all kinds of records of types that its own types don't lack. What a kernel has,
its helpers too, is told by its types. Without --symbols an extern without a type is unknown, and none is
refused for it.

With --check several objects may stand before --types, and folders of them. Each line then begins with the
object's name, and the last one counts the answers. Programs and maps of an object are its own. A file that
isn't an object, such as a program that loads some, stands for the objects in it: FILE#1, FILE#2 and so on.

Status: 0 the answer is on standard output; 1 the object can't be parsed; 2 the line is otherwise,
a file can't be read, one of several objects or kernel types can't be parsed, or the text can't be written;
3, with --check alone, a kernel doesn't take an object, be there files that can't be read or not.

A running kernel's types are in /sys/kernel/btf/vmlinux, its symbols in /proc/kallsyms.
Examples that work in the repository:
    bin/inspect_object examples/trace_unlink.o
    bin/inspect_object tests/objects/task_reads.little.o --check \\
        --types tests/objects/kernel_structs.little.btf tests/objects/kernel_later.little.btf",
};

const KERNEL_FILES: KernelFileTexts<'static> = KernelFileTexts {
    types: "Files with types of kernels (BTF, or ELF files with a section .BTF), and folders of them; each file is a kernel of its own",
    types_order: "The byte order of the kernels' types, but for ELF files, which have their own",
    symbols: "A text of symbols, for all kernels, or a folder of such texts, each for the kernel whose file has the same name but for the suffix, as NAME.symbols for NAME.btf; without it externs without a type are unknown",
};

/// The command with the options for the form of the reports.
fn with_reports<'a>(alloc: Global, command: Command<'a>) -> Result<Command<'a>, AllocError>
    requires { TakesObject command }
    ensures object { IfOk result TakesObject }
    ensures shape { IfOk result (λ r. HasReports (app_of command.entry) (app_of r)) }
{
    let summary = flag(
        alloc,
        "summary",
        "The same as --format table: a column a kernel; a star marks what differs between kernels",
    );
    let command = with_option(command, summary)?;
    let check = flag(
        alloc,
        "check",
        "Whether the kernels take the object, or why not, a line a cause; status 3 where one doesn't",
    );
    let command = with_option(command, check)?;
    let format = value(alloc, "format", "FORMAT", "The form of the reports").value_parser([
        "lines", "table", "json",
    ].as_slice());
    let command = with_option(command, format)?;
    Ok(command)
}

/// The command with the options for what a check counts.
fn with_checks<'a>(alloc: Global, command: Command<'a>) -> Result<Command<'a>, AllocError>
    requires { TakesObject command }
    ensures object { IfOk result TakesObject }
    ensures shape { IfOk result (λ r. app_of r ≡ with_rules (app_of command.entry) check_rules) }
{
    let optional = values(
        alloc,
        "optional",
        "PROGRAM",
        "A program without which the object counts as taken",
    );
    let command = with_option(command, optional)?;
    let strict = flag(
        alloc,
        "strict",
        "What isn't known of a kernel counts as what it lacks",
    );
    let command = with_option(command, strict)?;
    Ok(command)
}

/// The command with the options for several objects.
fn with_objects<'a>(alloc: Global, command: Command<'a>) -> Result<Command<'a>, AllocError>
    requires { TakesObject command }
    ensures object { IfOk result TakesObject }
    ensures shape { IfOk result (λ r. app_of r ≡ with_rules (app_of command.entry) object_rules) }
{
    let object = values(
        alloc,
        "object",
        "FILE",
        "One more object for --check or --extract, or a folder of objects; also as a word of its own after the first",
    );
    let command = with_option(command, object)?;
    let failures = flag(
        alloc,
        "failures",
        "With --check: the kernels that don't take an object alone, each by name",
    );
    let command = with_option(command, failures)?;
    let extract = value(
        alloc,
        "extract",
        "FOLDER",
        "The objects that programs hold become files of this folder, none of which may be there",
    );
    let command = with_option(command, extract)?;
    Ok(command)
}

/// The program's command line.
pub(crate) fn inspect_command<'a>(alloc: Global) -> Result<Command<'a>, AllocError>
    ensures object { IfOk result TakesObject }
    ensures program { IfOk result (λ r. IsInspectCommand (app_of r)) }
{
    let command = with_object(alloc, PROGRAM)?;
    let command = with_kernel_files(alloc, command, KERNEL_FILES)?;
    let command = with_reports(alloc, command)?;
    let command = with_checks(alloc, command)?;
    let command = with_objects(alloc, command)?;
    let command = with_listing(alloc, command)?;
    Ok(command)
}

/// The command with the options for code.
fn with_listing<'a>(alloc: Global, command: Command<'a>) -> Result<Command<'a>, AllocError>
    requires { TakesObject command }
    ensures object { IfOk result TakesObject }
    ensures shape { IfOk result (λ r. app_of r ≡ with_rules (app_of command.entry) listing_rules) }
{
    let code = flag(
        alloc,
        "code",
        "The programs as code, as a loader hands them to the kernel",
    );
    let command = with_option(command, code)?;
    let program = value(
        alloc,
        "program",
        "NAME",
        "The only program whose code is printed",
    );
    let command = with_option(command, program)?;
    let plan = flag(
        alloc,
        "plan",
        "OBJECT is a plan that bpf_prepare wrote: its maps and the code of its programs",
    );
    let command = with_option(command, plan)?;
    Ok(command)
}
