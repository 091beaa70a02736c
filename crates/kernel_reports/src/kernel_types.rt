//! The types of a kernel.

ghost use Rattle.std.specs.Prelude.{◌≡◌, slice_get, IfOk};
ghost use Rattle.std.specs.Option.{option_copied};

use load_plan::Btf;
use report_needs::SearchedKernel;
use std::alloc::{AllocError, Global};
use std::marker::Model;

/// The types of a kernel, in some tables. The first of them, if there is one, is searched for what
/// objects need.
#[derive(Debug)]
pub struct KernelTypes<'k, 'n> {
    tables: &'k [Btf<'k>],
    first: Option<SearchedKernel<'k, 'n>>,
}

impl<'k, 'n> Drop for KernelTypes<'k, 'n> {
    // One call wherever it is dropped, in place of one for each part.
    fn drop(self) {
        let KernelTypes {
            tables: _,
            first: _first,
        } = self;
    }
}

impl<'k, 'n> Model for KernelTypes<'k, 'n> {
    ghost use Rattle.std.specs.Prelude.{◌≡◌, List, slice_get};
    ghost use Rattle.btf_tables.specs.Tables.{Table};

    ghost Value = { List Table };

    ghost view = { λ k. k.tables.now };

    ghost invariant = { λ k. k.first ≡ slice_get k.tables.now 0 };
}

/// The first of some tables, searched.
fn searched_first<'k, 'n>(
    alloc: Global,
    tables: &'k [Btf<'k>],
    records: &'n [String],
) -> Result<Option<SearchedKernel<'k, 'n>>, AllocError>
    ensures { IfOk result (λ first. first ≡ slice_get tables.now 0) }
{
    let Some(kernel) = tables.first() else {
        return Ok(None);
    };
    let searched = SearchedKernel::new(alloc, kernel, records)?;
    Ok(Some(searched))
}

impl<'k, 'n> KernelTypes<'k, 'n> {
    /// The types in these tables. Records of these names are looked for at once; no answer depends
    /// on them.
    ///
    /// # Errors
    ///
    /// `AllocError` where memory runs out.
    pub fn new(
        alloc: Global,
        tables: &'k [Btf<'k>],
        records: &'n [String],
    ) -> Result<KernelTypes<'k, 'n>, AllocError>
        ensures { IfOk result (λ kernel. kernel ≡ tables.now) }
    {
        let first = searched_first(alloc, tables, records)?;
        Ok(KernelTypes { tables, first })
    }

    /// The tables.
    pub fn tables(&self) -> &'k [Btf<'k>]
        ensures { result.now ≡ self.now }
    {
        self.tables
    }

    /// The first table.
    pub fn first(&self) -> Option<&SearchedKernel<'k, 'n>>
        ensures { option_copied result ≡ slice_get self.now 0 }
    {
        self.first.as_ref()
    }
}
