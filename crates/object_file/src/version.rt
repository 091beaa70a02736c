//! The kernel version that an object was made for.

ghost use Rattle.std.specs.Prelude.{◌≡◌, ◌≢◌, length, IfOk, IfErr, OnOk};
ghost use Rattle.ebpf_items.specs.declared.error.ParseError.TheVariants.{OutOfMemory};
ghost use Rattle.object_file.specs.Version.{version_in, IsKnownVersion, IsVersionFault};

use btf_records::{Endianness, word};
use ebpf_items::ParseError;
use std::alloc::Global;

/// The number that means any version.
const ANY_VERSION: u32 = 0xffff_fffe;

/// The version in a section's bytes, or `None` for any version.
pub(crate) fn parse_version(
    alloc: Global,
    order: Endianness,
    bytes: &[u8],
) -> Result<Option<u32>, ParseError>
    ensures value { IfOk result (λ version. version ≡ version_in order bytes.now) }
    ensures known { IfOk result IsKnownVersion }
    ensures accepted { OnOk result (length bytes.now ≡ 4) }
    ensures refused { IfErr result (λ e. e ≢ OutOfMemory → IsVersionFault bytes.now e) }
{
    if bytes.len() != 4 {
        return Err(ParseError::InvalidKernelVersion {
            bytes: Vec::from_slice(alloc, bytes)?,
        });
    }
    let version = word(order, bytes, 0);
    if version == ANY_VERSION {
        return Ok(None);
    }
    Ok(Some(version))
}
