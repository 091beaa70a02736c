//! Members of the kernel's structs.

ghost use Rattle.std.specs.Prelude.{◌≡◌, is_some, option_and_then};
ghost use Rattle.btf_tables.specs.Tables.{type_by_id};
ghost use Rattle.report_needs.specs.Members.{is_member, member_named};

use btf_encoding::TypeRef;
use btf_records::BtfMember;
use btf_tables::Btf;

/// Whether a member has the name.
fn is_member(kernel: &Btf<'_>, name: &str, member: BtfMember) -> bool
    ensures { result ≡ is_member kernel.now name.now member }
{
    match kernel.string_at(member.name_offset) {
        Ok(text) => text == name,
        Err(_error) => false,
    }
}

/// The first member of a record that has the name.
#[tactic(auto, using(crate::proofs::Variants::found_here, crate::proofs::Variants::found_later))]
fn member_named(kernel: &Btf<'_>, name: &str, t: &TypeRef<'_>) -> Option<BtfMember>
    ensures { result ≡ member_named kernel.now name.now t.now }
{
    for index in 0..t.count() {
        let member = t.member(index)?;
        if is_member(kernel, name, member) {
            return Some(member);
        }
    }
    None
}

/// Whether the record with an id has a member of the name.
pub(crate) fn has_member_at(kernel: &Btf<'_>, name: &str, id: u32) -> bool
    ensures { result
        ≡ is_some (option_and_then (member_named kernel.now name.now) (type_by_id kernel.now id)) }
{
    match kernel.type_by_id(id) {
        Ok(t) => member_named(kernel, name, &t).is_some(),
        Err(_error) => false,
    }
}
