//! Maps without a number.

use crate::kernel_files::KernelFiles;
use ebpf_object::Object;
use object_maps::Maps;
use quoting::{FirstNames, ShortName};
use settings::Settings;
use std::alloc::{AllocError, Global};

/// How maps get numbers.
const HOW: &str =
    ": --map NAME=NUMBER or --number-maps gives one, or [maps] in the file of --settings";

/// The names of the maps that have no number.
fn without_number<'a>(
    alloc: Global,
    maps: &Maps<'a>,
    settings: &Settings,
) -> Result<FirstNames<'a>, AllocError> {
    let mut names = FirstNames::new(alloc);
    for (name, _map) in maps.iter() {
        if settings.map_number(name).is_none() {
            names.push(*name)?;
        }
    }
    Ok(names)
}

/// The names of the maps of an object that have no number, where the object can be parsed.
fn names_of<'o>(alloc: Global, object: &'o [u8], settings: &Settings) -> Option<FirstNames<'o>> {
    let object = Object::parse(alloc, object).ok()?;
    without_number(alloc, object.maps(), settings).ok()
}

/// The message where the map with a name has no number: which maps have none, and how maps get
/// them.
pub(crate) fn missing_numbers_text(
    alloc: Global,
    object: &[u8],
    name: &str,
    settings: &Settings,
    files: &KernelFiles<'_>,
) -> Result<String, AllocError> {
    let how = files.option(HOW);
    match names_of(alloc, object, settings) {
        Some(names) if names.are_several() => {
            format!(in alloc; "maps {names} have no number{how}")
        }
        _ => {
            let name = ShortName { name };
            format!(in alloc; "map {name} has no number{how}")
        }
    }
}
