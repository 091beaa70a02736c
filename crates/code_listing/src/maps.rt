//! What a plan holds besides its programs.

use crate::plan_names::PlanNames;
use crate::printable::Printable;
use plan_text::{MapWords, PinningType, Plan, PlanMap};
use quoting::{Hex, Text};
use std::alloc::{AllocError, Global};

fn pinning_word(pinning: PinningType) -> &'static str {
    match pinning {
        PinningType::None => "None",
        PinningType::ByName => "ByName",
    }
}

/// Appends the words that define a map.
fn push_words(text: &mut String, words: MapWords) -> Result<(), AllocError> {
    write!(
        text,
        "type {} key-size {} value-size {} max-entries {} flags {} pinning {} id {} extra {} key-type {} value-type {}",
        words.map_type,
        words.key_size,
        words.value_size,
        words.max_entries,
        words.map_flags,
        pinning_word(words.pinning),
        words.id,
        words.map_extra,
        words.btf_key_type_id,
        words.btf_value_type_id
    )
}

/// Appends the lines of a map.
fn push_map(text: &mut String, map: &PlanMap<'_>) -> Result<(), AllocError> {
    let name = Printable(map.name());
    write!(text, "map {name} number {} ", map.number())?;
    push_words(text, map.words())?;
    writeln!(text, " contents {}", Hex(map.contents()))?;
    if let Some(inner) = map.inner() {
        write!(text, "inner-map {name} ")?;
        push_words(text, inner)?;
        text.push('\n')?;
    }
    Ok(())
}

/// Appends the line on a plan's types.
fn push_types(text: &mut String, plan: &Plan<'_>, names: &PlanNames<'_>) -> Result<(), AllocError> {
    let Some(bytes) = plan.type_bytes() else {
        return writeln!(text, "types none");
    };
    let len = bytes.len();
    if names.has_types() {
        writeln!(text, "types {len} bytes")
    } else {
        writeln!(text, "types {len} bytes that can't be parsed")
    }
}

/// Appends what holds for a plan as a whole.
fn push_head(text: &mut String, plan: &Plan<'_>, names: &PlanNames<'_>) -> Result<(), AllocError> {
    writeln!(text, "license {}", Text(Some(plan.license())))?;
    match plan.version() {
        Some(version) => writeln!(text, "version {version}")?,
        None => writeln!(text, "version any")?,
    }
    for (feature, is_granted) in plan.features() {
        let word = if *is_granted { "yes" } else { "no" };
        writeln!(text, "feature {feature:?} {word}")?;
    }
    push_types(text, plan, names)
}

/// What a plan holds besides its programs, as text: its license, its kernel version, the features
/// that were asked about, its types, and its maps.
///
/// # Errors
///
/// `AllocError` where memory runs out.
pub fn plan_head(
    alloc: Global,
    plan: &Plan<'_>,
    names: &PlanNames<'_>,
) -> Result<String, AllocError> {
    let mut text = String::new(alloc);
    push_head(&mut text, plan, names)?;
    for map in plan.maps() {
        push_map(&mut text, map)?;
    }
    Ok(text)
}
