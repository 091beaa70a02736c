//! The meaning of a member of a map's struct.

ghost use Rattle.std.specs.Prelude.{◌≡◌};
ghost use Rattle.ebpf_items.specs.Maps.{btf_words};
ghost use Rattle.object_maps.specs.Members.{member_said, member_said_inside, role_at, role_of, said_by, said_inside, with_said};

use crate::lookup::{DefinitionError, SizedType, name_at, number_of, sized_target, values_struct};
use btf_records::BtfMember;
use btf_tables::Btf;
use ebpf_items::{BtfMapDef, MapWord};

/// The purpose of a member of a map's struct, by its name.
#[derive(Clone, Copy)]
pub(crate) enum Role {
    /// It sets a word to a number.
    Number(MapWord),
    /// It gives the type of keys.
    Key,
    /// It gives the type of values.
    Value,
    /// It gives the maps that are the values.
    Values,
    /// It has no meaning.
    Other,
}

/// The meaning of a member of a map's struct.
#[derive(Clone, Copy)]
pub(crate) enum Said {
    Number(MapWord, u32),
    Key(SizedType),
    Value(SizedType),
    /// The values are maps that are defined by the struct of this id.
    Inner(u32),
    Nothing,
}

fn role_of(name: &str) -> Role
    ensures { result ≡ role_of name.now }
{
    match name {
        "type" => Role::Number(MapWord::MapType),
        "key" => Role::Key,
        "key_size" => Role::Number(MapWord::KeySize),
        "value" => Role::Value,
        "value_size" => Role::Number(MapWord::ValueSize),
        "values" => Role::Values,
        "max_entries" => Role::Number(MapWord::MaxEntries),
        "map_flags" => Role::Number(MapWord::MapFlags),
        "map_extra" => Role::Number(MapWord::MapExtra),
        "pinning" => Role::Number(MapWord::Pinning),
        _ => Role::Other,
    }
}

fn role_at(table: &Btf<'_>, member: BtfMember) -> Result<Role, DefinitionError>
    ensures { result ≡ role_at table.now member }
{
    let name = name_at(table, member.name_offset)?;
    Ok(role_of(name))
}

fn said_by(table: &Btf<'_>, role: Role, type_id: u32) -> Result<Said, DefinitionError>
    ensures { result ≡ said_by table.now role type_id }
{
    match role {
        Role::Number(word) => {
            let value = number_of(table, type_id)?;
            Ok(Said::Number(word, value))
        }
        Role::Key => {
            let target = sized_target(table, type_id)?;
            Ok(Said::Key(target))
        }
        Role::Value => {
            let target = sized_target(table, type_id)?;
            Ok(Said::Value(target))
        }
        Role::Values => {
            let id = values_struct(table, type_id)?;
            Ok(Said::Inner(id))
        }
        Role::Other => Ok(Said::Nothing),
    }
}

fn said_inside(table: &Btf<'_>, role: Role, type_id: u32) -> Result<Said, DefinitionError>
    ensures { result ≡ said_inside table.now role type_id }
{
    match role {
        Role::Number(MapWord::Pinning) => Err(DefinitionError::PinnedInnerMap),
        Role::Values => Err(DefinitionError::MapsInInnerMap),
        _ => said_by(table, role, type_id),
    }
}

/// The meaning of a member of a map's struct.
pub(crate) fn member_said(table: &Btf<'_>, member: BtfMember) -> Result<Said, DefinitionError>
    ensures { result ≡ member_said table.now member }
{
    let role = role_at(table, member)?;
    said_by(table, role, member.btf_type)
}

/// The meaning of a member of an inner map's struct.
pub(crate) fn member_said_inside(
    table: &Btf<'_>,
    member: BtfMember,
) -> Result<Said, DefinitionError>
    ensures { result ≡ member_said_inside table.now member }
{
    let role = role_at(table, member)?;
    said_inside(table, role, member.btf_type)
}

/// The size in bytes of the file descriptor of an inner map, which is the value.
const DESCRIPTOR_SIZE: u32 = 4;

/// Applies the meaning of a member to a definition.
pub(crate) fn enter_said(def: &mut BtfMapDef, said: Said)
    ensures { btf_words def.new ≡ with_said (btf_words def.old) said }
{
    match said {
        Said::Number(word, value) => def.set_word(word, value),
        Said::Key(target) => {
            def.set_word(MapWord::KeySize, target.size);
            def.btf_key_type_id = target.type_id;
        }
        Said::Value(target) => {
            def.set_word(MapWord::ValueSize, target.size);
            def.btf_value_type_id = target.type_id;
        }
        Said::Inner(_) => def.set_word(MapWord::ValueSize, DESCRIPTOR_SIZE),
        Said::Nothing => (),
    }
}
