//! Bytes that are borrowed until some are added.

ghost use Rattle.std.specs.Prelude.{◌≡◌, ◌∷◌, ◌++◌, [], IfOk, OnErr, OnOk, length, take};
ghost use Rattle.btf_encoding.specs.Records.{ReadsBack, record_bytes};
ghost use Rattle.btf_storage.specs.NewRecords.{record_of};

use crate::new_record::NewRecord;
use btf_records::Endianness;
use std::alloc::{AllocError, Global};
use std::marker::Model;

#[derive(Debug, Drop)]
enum Body<'a> {
    Borrowed(&'a [u8]),
    Own(Vec<u8>),
}

/// Bytes borrowed from a section until some are added, and from then on a list of the table's own.
#[derive(Debug)]
pub struct ByteList<'a> {
    body: Body<'a>,
}

impl<'a> Drop for ByteList<'a> {
    // A single call where a value is dropped, instead of one call per field.
    fn drop(self) {
        let ByteList { body: _body } = self;
    }
}

impl<'a> Model for ByteList<'a> {
    ghost use Rattle.std.specs.Prelude.{ℕ, List};
    ghost use Rattle.btf_storage.specs.ByteLists.{body_bytes};

    ghost Value = { List ℕ };

    ghost view = { λ b. body_bytes b.body };
}

/// Appends a text and a NUL.
fn push_text(bytes: &mut Vec<u8>, text: &str) -> Result<(), AllocError>
    ensures ok { OnOk result (bytes.new.items ≡ bytes.old.items ++ text.now ++ 0 ∷ []) }
    ensures err { OnErr result (bytes.new.items ≡ bytes.old.items) }
{
    let len = bytes.len();
    bytes.extend_from_slice(text.as_bytes())?;
    match bytes.push(0) {
        Ok(()) => Ok(()),
        Err(error) => {
            bytes.truncate(len);
            Err(AllocError::from(error))
        }
    }
}

impl<'a> ByteList<'a> {
    pub fn borrowed(bytes: &'a [u8]) -> ByteList<'a>
        ensures { result ≡ bytes.now }
    {
        ByteList {
            body: Body::Borrowed(bytes),
        }
    }

    pub fn owned(bytes: Vec<u8>) -> ByteList<'a>
        ensures { result ≡ bytes.items }
    {
        ByteList {
            body: Body::Own(bytes),
        }
    }

    pub fn as_slice(&self) -> &[u8]
        ensures { result.now ≡ self.now }
    {
        match &self.body {
            Body::Borrowed(bytes) => bytes,
            Body::Own(bytes) => bytes.as_slice(),
        }
    }

    pub fn len(&self) -> usize
        ensures { result ≡ length self.now }
    {
        self.as_slice().len()
    }

    /// Keeps the first `len` bytes.
    pub fn truncate(&mut self, len: usize)
        ensures { self.new ≡ take len self.old }
    {
        match &mut self.body {
            Body::Borrowed(bytes) => {
                if len < bytes.len() {
                    self.body = Body::Borrowed(&bytes[..len]);
                }
            }
            Body::Own(bytes) => bytes.truncate(len),
        }
    }

    /// Appends a record's bytes.
    pub fn push_record(
        &mut self,
        alloc: Global,
        order: Endianness,
        t: &NewRecord<'_>,
    ) -> Result<(), AllocError>
        ensures ok { OnOk result (self.new ≡ self.old ++ record_bytes order (record_of t.now)) }
        ensures read_back { OnOk result (ReadsBack order (record_of t.now)) }
        ensures err { OnErr result (self.new ≡ self.old) }
    {
        match &mut self.body {
            Body::Borrowed(bytes) => {
                let mut own = Vec::from_slice(alloc, bytes)?;
                t.push_to(&mut own, order)?;
                self.body = Body::Own(own);
                Ok(())
            }
            Body::Own(bytes) => t.push_to(bytes, order),
        }
    }

    /// Appends a text and a NUL.
    pub fn push_text(&mut self, alloc: Global, text: &str) -> Result<(), AllocError>
        ensures ok { OnOk result (self.new ≡ self.old ++ text.now ++ 0 ∷ []) }
        ensures err { OnErr result (self.new ≡ self.old) }
    {
        match &mut self.body {
            Body::Borrowed(bytes) => {
                let mut own = Vec::from_slice(alloc, bytes)?;
                push_text(&mut own, text)?;
                self.body = Body::Own(own);
                Ok(())
            }
            Body::Own(bytes) => push_text(bytes, text),
        }
    }

    /// A copy; borrowed bytes stay borrowed.
    pub fn try_clone(&self) -> Result<ByteList<'a>, AllocError>
        ensures { IfOk result (λ b. b ≡ self.now) }
    {
        match &self.body {
            Body::Borrowed(bytes) => Ok(ByteList::borrowed(bytes)),
            Body::Own(bytes) => Ok(ByteList::owned(bytes.clone()?)),
        }
    }
}
