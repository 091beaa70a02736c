//! The reading of a command line of `bpf_prepare`.

ghost use Rattle.std.specs.Prelude.{◌≡◌, ◌≢◌, is_some, map, true, IfErr, IfOk, Some};
ghost use Rattle.std.specs.List.{All};
ghost use Rattle.std.specs.String.{string_bytes};
ghost use Rattle.run_settings.specs.Features.{feature_named};
ghost use Rattle.clap.specs.Values.{kind_of};
ghost use Rattle.clap.specs.declared.error.kind.ErrorKind.TheVariants.{OutOfMemory};
ghost use Rattle.command_line.specs.PrepareLine.{IsPrepareLine, IsPrepareMatch, IsRefusedPrepareLine};

use crate::found::{matches_in, object_of, order_of, values_of};
use crate::prepare_command::prepare_command;
use crate::prepare_line::Arguments;
use btf_records::BtfFeature;
use clap::{ArgMatches, Error};
use run_settings::feature_named;
use std::alloc::{AllocError, Global};

/// What clap finds in the arguments, for the program's command line.
fn matches_of<'w>(alloc: Global, words: &'w [String]) -> Result<ArgMatches<'w>, Error>
    ensures found { IfOk result (IsPrepareMatch (map string_bytes words.now)) }
    ensures refused { IfErr result (λ error.
        kind_of error ≢ OutOfMemory → IsRefusedPrepareLine (map string_bytes words.now)) }
{
    let command = prepare_command(alloc)?;
    let matches = matches_in(command, words)?;
    Ok(matches)
}

/// The features with these names.
fn features_of(alloc: Global, names: &[&str]) -> Result<Vec<BtfFeature>, AllocError>
    requires { All (λ name. is_some (feature_named name.now) ≡ true) names.now }
    ensures { IfOk result (λ features.
        map Some features.items ≡ map (λ name. feature_named name.now) names.now) }
{
    let mut features = Vec::new(alloc);
    for name in names {
        features.push(feature_named(name).unwrap())?;
    }
    Ok(features)
}

/// What the arguments of a command line ask for. The first argument is the program's name.
///
/// # Errors
///
/// Clap's error where the arguments are invalid, where they ask for the help or the version, and
/// where memory runs out. [`line_message`](crate::line_message) makes of it what a user is told.
pub fn arguments<'w>(alloc: Global, words: &'w [String]) -> Result<Arguments<'w>, Error>
    ensures line { IfOk result (IsPrepareLine (map string_bytes words.now)) }
    ensures refused { IfErr result (λ error.
        kind_of error ≢ OutOfMemory → IsRefusedPrepareLine (map string_bytes words.now)) }
{
    let matches = matches_of(alloc, words)?;
    let denied = values_of(alloc, &matches, "deny")?;
    Ok(Arguments {
        object: object_of(&matches),
        types: values_of(alloc, &matches, "types")?,
        types_order: order_of(matches.get_str("types-order")),
        symbols: matches.get_str("symbols"),
        settings: matches.get_str("settings"),
        rewrite_first: matches.get_flag("rewrite-first"),
        notes: matches.get_flag("notes"),
        number_maps: matches.get_flag("number-maps"),
        has_older_helpers: matches.get_flag("older-helpers"),
        maps: values_of(alloc, &matches, "map")?,
        globals: values_of(alloc, &matches, "global")?,
        denied: features_of(alloc, &denied)?,
    })
}
