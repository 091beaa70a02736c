//! Copies of objects.

ghost use Rattle.std.specs.Prelude.{◌≡◌, [], IfOk, OnOk};

use crate::object::{Object, put, unread};
use btf_ext::BtfExt;
use btf_tables::Btf;
use std::alloc::AllocError;

/// A copy of a table, if there is one.
fn table_again<'a>(table: &Option<Btf<'a>>) -> Result<Option<Btf<'a>>, AllocError>
    ensures { IfOk result (λ again. again ≡ table.now) }
{
    match table {
        Some(table) => Ok(Some(table.try_clone()?)),
        None => Ok(None),
    }
}

/// A copy of the records of `.BTF.ext`, if there are any.
fn extension_again<'a>(extension: &Option<BtfExt<'a>>) -> Result<Option<BtfExt<'a>>, AllocError>
    ensures { IfOk result (λ again. again ≡ extension.now) }
{
    match extension {
        Some(extension) => Ok(Some(extension.try_clone()?)),
        None => Ok(None),
    }
}

impl<'a> Object<'a> {
    /// Copies everything of another object but its file. The object has no programs before.
    /// Functions are copied before programs, so that each program has its function where memory
    /// runs out.
    fn copy(&mut self, other: &Object<'a>) -> Result<(), AllocError>
        requires { self.old.programs ≡ [] }
        ensures { OnOk result (self.new ≡ record other.now { file = self.old.file }) }
    {
        put(&mut self.btf, table_again(&other.btf)?);
        put(&mut self.btf_ext, extension_again(&other.btf_ext)?);
        put(&mut self.maps, other.maps.try_clone()?);
        put(&mut self.functions, other.functions.try_clone()?);
        put(&mut self.programs, other.programs.try_clone()?);
        put(&mut self.externs, other.externs.try_clone()?);
        Ok(())
    }

    /// A copy of the object.
    pub fn try_clone(&self) -> Result<Object<'a>, AllocError>
        ensures { IfOk result (λ object. object ≡ self.now) }
    {
        let file = self.file.try_clone()?;
        let mut object = unread(self.alloc, file);
        object.copy(self)?;
        Ok(object)
    }
}
