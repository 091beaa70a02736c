//! The members of a struct in order.

ghost use Rattle.std.specs.Prelude.{◌≡◌};
ghost use Rattle.std.specs.Iterator.{YieldsFirst, item_count};
ghost use Rattle.object_maps.specs.Lookups.{members_at};

use btf_encoding::TypeRef;
use btf_records::BtfMember;
use btf_tables::Btf;
use std::marker::Model;

/// The members of a struct in order.
#[derive(Drop)]
pub(crate) struct Members<'t> {
    t: TypeRef<'t>,
    next: usize,
}

impl<'t> Model for Members<'t> {
    ghost use Rattle.std.specs.Prelude.{List, drop};
    ghost use Rattle.btf_records.specs.Fields.{members_of};
    ghost use Rattle.btf_records.specs.declared.item.BtfMember.{BtfMember};

    ghost Value = { List BtfMember };

    ghost view = { λ m. drop m.next (members_of m.t) };
}

impl<'t> Members<'t> {
    /// The members of the struct with this id.
    pub(crate) fn new(table: &'t Btf<'_>, id: u32) -> Members<'t>
        ensures { result ≡ members_at table.now id }
    {
        let t = match table.type_by_id(id) {
            Ok(t) => t,
            Err(_error) => TypeRef::void(),
        };
        Members { t, next: 0 }
    }
}

impl<'t> Iterator for Members<'t> {
    type Item = BtfMember;

    ghost next_gives = { YieldsFirst (λ s. s) };

    ghost remaining = { item_count (λ s. s) };

    #[tactic(auto, using(crate::proofs::DefinitionLeft::left_some))]
    fn next(&mut self) -> Option<BtfMember> {
        if self.next >= self.t.count() {
            return None;
        }
        let member = self.t.member(self.next)?;
        self.next += 1;
        Some(member)
    }
}
