//! What the arguments of `inspect_object` ask for.

ghost use Rattle.std.specs.Prelude.{◌≢◌, map, IfErr, IfOk};
ghost use Rattle.std.specs.String.{string_bytes};
ghost use Rattle.clap.specs.Values.{kind_of};
ghost use Rattle.clap.specs.declared.error.kind.ErrorKind.TheVariants.{OutOfMemory};
ghost use Rattle.command_line.specs.InspectLine.{IsInspectLine, IsInspectMatch, IsRefusedInspectLine};

use crate::format::{Format, format_of};
use crate::found::{matches_in, object_of, order_of, values_of};
use crate::inspect_command::inspect_command;
use btf_records::Endianness;
use clap::{ArgMatches, Error};
use std::alloc::Global;

/// What the arguments of a command line ask for. File names are as they are given.
#[derive(Debug, Drop)]
pub struct InspectArguments<'w> {
    /// The object's file.
    pub object: &'w str,
    /// The files of more objects, for a check or to take objects out of them.
    pub more_objects: Vec<&'w str>,
    /// Files with types, each of a kernel, and folders of such files.
    pub types: Vec<&'w str>,
    /// The byte order of all of them.
    pub types_order: Endianness,
    /// The file with the symbols of all kernels, or a folder of such files.
    pub symbols: Option<&'w str>,
    /// The format that is asked for, if any.
    pub format: Option<Format>,
    /// Whether the status says if the kernels take the object.
    pub check: bool,
    /// The programs without which the object counts as taken.
    pub optional: Vec<&'w str>,
    /// Whether what isn't known of a kernel counts as what it lacks.
    pub strict: bool,
    /// Whether a check says only which kernels don't take an object.
    pub failures: bool,
    /// The folder for the objects that files hold which are none.
    pub extract: Option<&'w str>,
    /// Whether the programs are printed as code.
    pub code: bool,
    /// The one program whose code is printed.
    pub program: Option<&'w str>,
    /// Whether the object's file is a stored plan.
    pub plan: bool,
}

/// What clap finds in the arguments, for the program's command line.
fn matches_of<'w>(alloc: Global, words: &'w [String]) -> Result<ArgMatches<'w>, Error>
    ensures found { IfOk result (IsInspectMatch (map string_bytes words.now)) }
    ensures refused { IfErr result (λ error.
        kind_of error ≢ OutOfMemory → IsRefusedInspectLine (map string_bytes words.now)) }
{
    let command = inspect_command(alloc)?;
    let matches = matches_in(command, words)?;
    Ok(matches)
}

/// What the arguments of a command line ask for. The first argument is the program's name. Where
/// several files may follow one `--types`, [`spread_words`](crate::spread_words) comes before.
///
/// # Errors
///
/// Clap's error where the arguments are invalid, where they ask for the help or the version, and
/// where memory runs out. [`line_message`](crate::line_message) makes of it what a user is told.
pub fn inspect_arguments<'w>(
    alloc: Global,
    words: &'w [String],
) -> Result<InspectArguments<'w>, Error>
    ensures line { IfOk result (IsInspectLine (map string_bytes words.now)) }
    ensures refused { IfErr result (λ error.
        kind_of error ≢ OutOfMemory → IsRefusedInspectLine (map string_bytes words.now)) }
{
    let matches = matches_of(alloc, words)?;
    Ok(InspectArguments {
        object: object_of(&matches),
        types: values_of(alloc, &matches, "types")?,
        types_order: order_of(matches.get_str("types-order")),
        symbols: matches.get_str("symbols"),
        format: format_of(matches.get_flag("summary"), matches.get_str("format")),
        check: matches.get_flag("check"),
        optional: values_of(alloc, &matches, "optional")?,
        strict: matches.get_flag("strict"),
        more_objects: values_of(alloc, &matches, "object")?,
        failures: matches.get_flag("failures"),
        extract: matches.get_str("extract"),
        code: matches.get_flag("code"),
        program: matches.get_str("program"),
        plan: matches.get_flag("plan"),
    })
}
