//! The placeholder variable that replaces functions in the section.

ghost use Rattle.std.specs.Prelude.{◌≡◌, ◌≢◌, ◌+◌, length, IfErr, IfOk, OnErr, OnOk};
ghost use Rattle.btf_records.specs.declared.error.BtfError.TheVariants.{InvalidTypeInfo, OutOfMemory};
ghost use Rattle.btf_storage.specs.Ints.{int4_from, is_int4};
ghost use Rattle.btf_tables.specs.GrownTables.{TextsStay, TypesStay};
ghost use Rattle.object_externs.specs.Faults.{IsOverfull};
ghost use Rattle.object_externs.specs.Placeholder.{int_id, placeholder_id, with_int, with_placeholder, with_variable};

use btf_encoding::TypeRef;
use btf_records::{BtfError, BtfType, Int, IntEncoding, Var, VarLinkage};
use btf_tables::Btf;

/// Whether a record is an integer of 4 bytes.
fn is_int4(t: &TypeRef<'_>) -> bool
    ensures { result ≡ is_int4 t.now }
{
    match t.int() {
        Some(int) => int.size == 4,
        None => false,
    }
}

/// The least id of an integer of 4 bytes.
fn int4_id(table: &Btf<'_>) -> Option<u32>
    ensures { result ≡ int4_from 1 table.now.types }
{
    let mut id: usize = 0;
    for t in table.types() {
        if is_int4(&t) {
            return Some(id as u32);
        }
        id += 1;
    }
    None
}

/// The id of a table's integer of 4 bytes: the least one, or that of a signed integer that is
/// added.
fn int_of(table: &mut Btf<'_>) -> Result<u32, BtfError>
    ensures table { OnOk result (table.new ≡ with_int table.old) }
    ensures id { IfOk result (λ id. id ≡ int_id table.old) }
    ensures texts { OnOk result (TextsStay table.old table.new) }
    ensures types { OnOk result (TypesStay table.old table.new) }
    ensures refused { IfErr result (λ e.
        e ≢ OutOfMemory → (e ≡ InvalidTypeInfo) × IsOverfull (with_int table.old)) }
{
    if let Some(id) = int4_id(table) {
        return Ok(id);
    }
    let name_offset = table.add_string("int")?;
    table.add_type(BtfType::Int(Int::new(name_offset, 4, IntEncoding::Signed, 0)))
}

/// Adds a variable of the type `int`, and returns its id.
fn add_variable(table: &mut Btf<'_>, int: u32) -> Result<u32, BtfError>
    ensures table { OnOk result (table.new ≡ with_variable int table.old) }
    ensures id { IfOk result (λ id. id ≡ length table.old.types + 1) }
    ensures texts { OnOk result (TextsStay table.old table.new) }
    ensures types { OnOk result (TypesStay table.old table.new) }
    ensures refused { IfErr result (λ e.
        e ≢ OutOfMemory → (e ≡ InvalidTypeInfo) × IsOverfull (with_variable int table.old)) }
    ensures accepted { OnOk result (IsOverfull (with_variable int table.old) → ⊥) }
{
    let name_offset = table.add_string("ksym_func_placeholder")?;
    table.add_type(BtfType::Var(Var::new(name_offset, int, VarLinkage::Global)))
}

/// Adds the placeholder, and its integer type where the table has none, and returns the
/// placeholder's id.
///
/// `InvalidTypeInfo` where the size of the table overflows 32 bits.
pub(crate) fn add_placeholder<'a>(table: &mut Btf<'a>) -> Result<u32, BtfError>
    ensures table { OnOk result (table.new ≡ with_placeholder table.old) }
    ensures id { IfOk result (λ id. id ≡ placeholder_id table.old) }
    ensures texts { OnOk result (TextsStay table.old table.new) }
    ensures types { OnOk result (TypesStay table.old table.new) }
    ensures refused { IfErr result (λ e.
        e ≢ OutOfMemory → (e ≡ InvalidTypeInfo) × IsOverfull (with_placeholder table.old)) }
    ensures accepted { OnOk result (IsOverfull (with_placeholder table.old) → ⊥) }
    ensures err { OnErr result (table.new ≡ table.old) }
{
    let mut grown = table.try_clone()?;
    let int = int_of(&mut grown)?;
    let id = add_variable(&mut grown, int)?;
    *table = grown;
    Ok(id)
}
