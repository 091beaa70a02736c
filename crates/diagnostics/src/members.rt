//! Members of the structs that define maps.

use btf_records::{BtfArray, BtfKind};
use btf_tables::Btf;

/// A member whose type isn't the one that its name needs.
#[derive(Clone, Copy)]
pub(crate) struct FaultyMember<'t> {
    pub(crate) name: &'t str,
    /// What is wrong with it.
    pub(crate) fault: &'static str,
}

/// The type that a pointer leads to.
fn target_of(table: &Btf<'_>, type_id: u32) -> Option<u32> {
    let t = table.type_by_id(type_id).ok()?;
    match t.kind() {
        BtfKind::Ptr => t.btf_type(),
        _ => None,
    }
}

fn array_at(table: &Btf<'_>, type_id: u32) -> Option<BtfArray> {
    let t = table.type_by_id(type_id).ok()?;
    t.array()
}

fn is_struct(table: &Btf<'_>, type_id: u32) -> bool {
    table
        .type_by_id(type_id)
        .is_ok_and(|t| t.kind() == BtfKind::Struct)
}

/// Whether a type gives a number: it is a pointer to an array, whose number of elements is the
/// number.
fn is_number(table: &Btf<'_>, type_id: u32) -> bool {
    target_of(table, type_id).is_some_and(|target| array_at(table, target).is_some())
}

/// Whether a type gives keys or values: it is a pointer to their type.
fn is_sized(table: &Btf<'_>, type_id: u32) -> bool {
    target_of(table, type_id).is_some_and(|target| table.type_size_u32(target).is_ok())
}

/// The struct of the maps that an array of pointers leads to.
fn inner_struct(table: &Btf<'_>, type_id: u32) -> Option<u32> {
    let array = array_at(table, type_id)?;
    if array.len != 0 {
        return None;
    }
    let element = table.resolve_type(array.element_type).ok()?;
    let target = target_of(table, element)?;
    let end = table.resolve_type(target).ok()?;
    is_struct(table, end).then_some(end)
}

/// What is wrong with a member of any map.
fn fault_of(table: &Btf<'_>, name: &str, type_id: u32) -> Option<&'static str> {
    match name {
        "type"
        | "key_size"
        | "value_size"
        | "max_entries"
        | "map_flags"
        | "map_extra"
        | "pinning" => (!is_number(table, type_id)).then_some(
            "isn't a pointer to an array, as __uint declares it",
        ),
        "key" | "value" => (!is_sized(table, type_id)).then_some(
            "isn't a pointer to a type of a known size, as __type declares it",
        ),
        _ => None,
    }
}

/// Whether each member of the struct of the inner maps has the type that its name needs.
fn are_members_sound(table: &Btf<'_>, struct_id: u32) -> bool {
    let Ok(t) = table.type_by_id(struct_id) else {
        return false;
    };
    for index in 0..t.count() {
        let Some(member) = t.member(index) else {
            return true;
        };
        let Ok(name) = table.string_at(member.name_offset) else {
            return false;
        };
        if fault_of(table, name, member.btf_type).is_some() {
            return false;
        }
    }
    true
}

/// What is wrong with the member that gives the inner maps.
fn fault_of_values(table: &Btf<'_>, type_id: u32) -> Option<&'static str> {
    match inner_struct(table, type_id) {
        Some(inner) if are_members_sound(table, inner) => None,
        Some(_) => Some("gives maps that aren't well defined"),
        None => Some("isn't an array of pointers to maps, as __array declares it"),
    }
}

/// The first member of a map's struct whose type isn't the one that its name needs.
pub(crate) fn faulty_member<'t>(table: &'t Btf<'_>, struct_id: u32) -> Option<FaultyMember<'t>> {
    let t = table.type_by_id(struct_id).ok()?;
    for index in 0..t.count() {
        let member = t.member(index)?;
        let name = table.string_at(member.name_offset).ok()?;
        let found = match name {
            "values" => fault_of_values(table, member.btf_type),
            name => fault_of(table, name, member.btf_type),
        };
        if let Some(fault) = found {
            return Some(FaultyMember { name, fault });
        }
    }
    None
}
