//! The entries of a `BTF_KIND_DATASEC` in order.

ghost use Rattle.std.specs.Prelude.{◌≡◌};
ghost use Rattle.std.specs.Iterator.{YieldsFirst, item_count};
ghost use Rattle.btf_records.specs.Fields.{entries_of};

use btf_encoding::TypeRef;
use btf_records::DataSecEntry;
use std::marker::Model;

/// The entries of a `BTF_KIND_DATASEC` in order.
#[derive(Drop)]
pub(crate) struct Entries<'s, 't> {
    section: &'s TypeRef<'t>,
    next: usize,
}

impl<'s, 't> Model for Entries<'s, 't> {
    ghost use Rattle.std.specs.Prelude.{List, drop};
    ghost use Rattle.btf_records.specs.Fields.{entries_of};
    ghost use Rattle.btf_records.specs.declared.item.DataSecEntry.{DataSecEntry};

    ghost Value = { List DataSecEntry };

    ghost view = { λ e. drop e.next (entries_of e.section.now) };
}

impl<'s, 't> Entries<'s, 't> {
    pub(crate) fn new(section: &'s TypeRef<'t>) -> Entries<'s, 't>
        ensures { result ≡ entries_of section.now }
    {
        Entries { section, next: 0 }
    }
}

impl<'s, 't> Iterator for Entries<'s, 't> {
    type Item = DataSecEntry;

    ghost next_gives = { YieldsFirst (λ s. s) };

    ghost remaining = { item_count (λ s. s) };

    #[tactic(auto, using(crate::proofs::Left::left_some))]
    fn next(&mut self) -> Option<DataSecEntry> {
        if self.next >= self.section.count() {
            return None;
        }
        let entry = self.section.entry(self.next)?;
        self.next += 1;
        Some(entry)
    }
}
