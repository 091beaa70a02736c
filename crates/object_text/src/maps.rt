//! Maps.

use crate::names::{kind_name, pinning_name};
use ebpf_object::{Map, Object};
use quoting::{Hex, Number, Text};
use std::io;
use std::io::Write;

/// Writes the words that every map has.
fn write_words<W: Write>(map: &Map, out: &mut W) -> io::Result<()> {
    write!(
        out,
        "type {} key-size {} value-size {} max-entries {} flags {} pinning {}",
        map.map_type(),
        map.key_size(),
        map.value_size(),
        map.max_entries(),
        map.map_flags(),
        pinning_name(map.pinning())
    )
}

/// Writes the words that maps of one definition have.
fn write_own_words<W: Write>(map: &Map, out: &mut W) -> io::Result<()> {
    match map {
        Map::Legacy(map) => write!(out, " id {}", map.def.id),
        Map::Btf(typed) => write!(
            out,
            " extra {} key-type {} value-type {}",
            map.map_extra(),
            typed.def.btf_key_type_id,
            typed.def.btf_value_type_id
        ),
    }
}

fn write_place<W: Write>(map: &Map, out: &mut W) -> io::Result<()> {
    writeln!(
        out,
        " section {} {} symbol {} contents {}",
        map.section_index(),
        kind_name(map.section_kind()),
        Number::of_index(map.symbol_index()),
        Hex(map.data())
    )
}

/// Writes the line of a map's inner maps.
fn write_inner<W: Write>(name: &str, map: &Map, out: &mut W) -> io::Result<()> {
    let Some(inner) = map.inner() else {
        return Ok(());
    };
    write!(out, "inner-map {} ", Text::of(name))?;
    write_words(&inner, out)?;
    write_own_words(&inner, out)?;
    writeln!(out, "")
}

fn write_map<W: Write>(name: &str, map: &Map, out: &mut W) -> io::Result<()> {
    write!(out, "map {} ", Text::of(name))?;
    write_words(map, out)?;
    write_own_words(map, out)?;
    write_place(map, out)?;
    write_inner(name, map, out)
}

/// Writes the maps, by name.
pub(crate) fn write_maps<W: Write>(object: &Object<'_>, out: &mut W) -> io::Result<()> {
    for (name, map) in object.maps().iter() {
        write_map(name, map, out)?;
    }
    Ok(())
}
