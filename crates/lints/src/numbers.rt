//! Notes on the numbers of maps.

ghost use Rattle.std.specs.Prelude.{◌≡◌, [], ◌∷◌, map, IfOk, OnOk};
ghost use Rattle.std.specs.BTreeMap.{is_at};
ghost use Rattle.std.specs.Map.{lookup};
ghost use Rattle.std.specs.Ordering.{nat_cmp};
ghost use Rattle.lints.specs.Firsts.{AreNoted};
ghost use Rattle.lints.specs.Notes.{note_content, number_notes, set_numbers};

use crate::note::Note;
use object_maps::Maps;
use settings::Settings;
use std::alloc::{AllocError, Global};
use std::collections::BTreeMap;

/// The name of the first map with a number.
fn first_of<'a>(firsts: &BTreeMap<u32, &'a str>, number: u32) -> Option<&'a str>
    ensures { result ≡ lookup (is_at (nat_cmp number)) firsts.now.entries }
{
    firsts.get(&number).copied()
}

/// Adds the note on a map whose number an earlier map has; where none has it, keeps the map's name
/// under that number.
fn add_number_note<'a>(
    number: u32,
    name: &'a str,
    firsts: &mut BTreeMap<u32, &'a str>,
    notes: &mut Vec<Note<'a>>,
) -> Result<(), AllocError>
    ensures { OnOk result
        (AreNoted ((number, name.now) ∷ []) firsts.old.entries firsts.new.entries
        (map note_content notes.old.items) (map note_content notes.new.items)) }
{
    match first_of(firsts, number) {
        Some(first) => {
            notes.push(Note::SharedNumber {
                number,
                first,
                second: name,
            })?;
            Ok(())
        }
        None => {
            firsts.insert(number, name)?;
            Ok(())
        }
    }
}

/// Adds the note on a map if its number is set and an earlier map has it.
fn add_map_note<'a>(
    settings: &Settings,
    name: &'a str,
    firsts: &mut BTreeMap<u32, &'a str>,
    notes: &mut Vec<Note<'a>>,
) -> Result<(), AllocError>
    ensures { OnOk result
        (AreNoted (set_numbers settings.now name.now) firsts.old.entries firsts.new.entries
        (map note_content notes.old.items) (map note_content notes.new.items)) }
{
    match settings.map_number(name) {
        Some(number) => add_number_note(number, name, firsts, notes),
        None => Ok(()),
    }
}

/// The notes on maps whose numbers are set: one on each map, in order, whose number an earlier map
/// has, with the first map of that number.
pub fn number_notes<'a>(
    alloc: Global,
    maps: &Maps<'a>,
    settings: &Settings,
) -> Result<Vec<Note<'a>>, AllocError>
    ensures { IfOk result (λ notes.
        map note_content notes.items ≡ number_notes settings.now maps.now) }
{
    let mut firsts: BTreeMap<u32, &'a str> = BTreeMap::new(alloc);
    let mut notes = Vec::new(alloc);
    for (name, _map) in maps.iter() {
        add_map_note(settings, name, &mut firsts, &mut notes)?;
    }
    Ok(notes)
}
