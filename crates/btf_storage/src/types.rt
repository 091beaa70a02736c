//! The types of a table in order.

ghost use Rattle.std.specs.Prelude.{◌≡◌, ◌≤◌, ◌^◌, ◌∷◌, length};
ghost use Rattle.std.specs.Iterator.{YieldsFirst, item_count};

use crate::records::TypeRecords;
use btf_encoding::TypeRef;
use btf_records::BtfType;
use std::marker::Model;

/// The records of a table in order of id.
#[derive(Debug, Drop)]
pub struct Types<'a> {
    records: &'a TypeRecords<'a>,
    /// The id of the next record.
    next: usize,
    /// The id after the last.
    end: usize,
}

impl<'a> Model for Types<'a> {
    ghost use Rattle.std.specs.Prelude.{List, ◌∷◌, ◌≡◌, ◌≤◌, ◌^◌, drop, length};
    ghost use Rattle.btf_records.specs.declared.types.BtfType.{BtfType};
    ghost use Rattle.btf_records.specs.declared.types.BtfType.TheVariants.{Unknown};

    ghost Value = { List BtfType };

    ghost view = { λ t. drop t.next (Unknown ∷ t.records.now.types) };

    ghost invariant = { λ t. (t.end ≡ length (Unknown ∷ t.records.now.types)) × (t.next ≤ t.end) × (t.end ≤ 2 ^ 32) };
}

impl<'a> Iterator for Types<'a> {
    type Item = TypeRef<'a>;

    ghost next_gives = { YieldsFirst (λ s. s) };

    ghost remaining = { item_count (λ s. s) };

    #[tactic(auto, using(crate::proofs::Left::left_some, crate::proofs::Left::left_none))]
    fn next(&mut self) -> Option<TypeRef<'a>> {
        match self.records.by_id(self.next) {
            Some(t) => {
                self.next += 1;
                Some(t)
            }
            None => None,
        }
    }
}

impl<'a> Types<'a> {
    pub fn new(records: &'a TypeRecords<'a>) -> Types<'a>
        ensures value { result ≡ BtfType.Unknown ∷ records.now.types }
        ensures countable { length result ≤ 2 ^ 32 }
    {
        Types {
            records,
            next: 0,
            end: records.len() + 1,
        }
    }
}
