//! What is found in the arguments.

ghost use Rattle.std.specs.Prelude.{◌≡◌, ◌≢◌, codes, map, Some, IfErr, IfOk, is_some, false, true};
ghost use Rattle.std.specs.Option.{option_map};
ghost use Rattle.std.specs.String.{string_bytes};
ghost use Rattle.clap.specs.Matches.{first_value, found_of};
ghost use Rattle.clap.specs.Simple.{app_of};
ghost use Rattle.clap.specs.Takes.{takes};
ghost use Rattle.clap.specs.Values.{kind_of};
ghost use Rattle.clap.specs.declared.error.kind.ErrorKind.TheVariants.{OutOfMemory};
ghost use Rattle.command_line.specs.Found.{order_named, values_found, IsFoundBy};

use btf_records::Endianness;
use clap::{ArgMatches, Command, Error};
use std::alloc::{AllocError, Global};

/// What clap finds in the arguments, for a command.
pub(crate) fn matches_in<'w>(
    command: Command<'w>,
    words: &'w [String],
) -> Result<ArgMatches<'w>, Error>
    ensures found { IfOk result (IsFoundBy command.entry (map string_bytes words.now)) }
    ensures refused { IfErr result (λ error.
        kind_of error ≢ OutOfMemory
        → takes (app_of command.entry) (map string_bytes words.now) ≡ false) }
{
    let matches = command.try_get_matches_from(words)?;
    Ok(matches)
}

/// The values of an option that may be given several times.
pub(crate) fn values_of<'w>(
    alloc: Global,
    matches: &ArgMatches<'w>,
    id: &str,
) -> Result<Vec<&'w str>, AllocError>
    ensures { IfOk result (λ values.
        map (λ value. value.now) values.items ≡ values_found matches.now id.now) }
{
    match matches.get_strs(id) {
        Some(values) => Vec::from_slice(alloc, values),
        None => Ok(Vec::new(alloc)),
    }
}

/// The byte order with a name.
pub(crate) fn order_of(name: Option<&str>) -> Endianness
    ensures { result ≡ order_named (option_map (λ name. name.now) name.entry) }
{
    match name {
        Some("big") => Endianness::Big,
        _ => Endianness::Little,
    }
}

/// The object's file, which the arguments must name.
pub(crate) fn object_of<'w>(matches: &ArgMatches<'w>) -> &'w str
    requires { is_some (first_value (found_of matches.now) (codes "OBJECT")) ≡ true }
    ensures { first_value (found_of matches.now) (codes "OBJECT") ≡ Some result.now }
{
    matches.get_str("OBJECT").unwrap()
}
