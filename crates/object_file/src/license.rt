//! The license of an object.

ghost use Rattle.std.specs.Prelude.{◌≡◌, ◌≢◌, ◌<◌, true, Some, None, IfOk, IfErr, OnOk, codes, IsSomeAnd, ◌==◌};
ghost use Rattle.std.specs.List.{list_any};
ghost use Rattle.elf64.specs.Sections.{section_named};
ghost use Rattle.ebpf_items.specs.declared.error.ParseError.TheVariants.{OutOfMemory};
ghost use Rattle.object_file.specs.License.{IsLicense, IsLicenseFault, HasNoNul, without_last};

use ebpf_items::ParseError;
use std::alloc::Global;

/// The license of an object without a section `license`.
pub(crate) const DEFAULT_LICENSE: &[u8] = b"GPL";

/// The license in a section's bytes: all bytes except the NUL at the end.
pub(crate) fn parse_license<'a>(alloc: Global, bytes: &'a [u8]) -> Result<&'a [u8], ParseError>
    ensures value { IfOk result (λ license. license.now ≡ without_last bytes.now) }
    ensures text { IfOk result (λ license. HasNoNul license.now) }
    ensures accepted { OnOk result (IsLicense bytes.now) }
    ensures refused { IfErr result (λ e. e ≢ OutOfMemory → IsLicenseFault bytes.now e) }
{
    let [license @ .., last] = bytes else {
        return Err(ParseError::InvalidLicense {
            bytes: Vec::from_slice(alloc, bytes)?,
        });
    };
    if license.is_empty() || license.contains(&0) {
        return Err(ParseError::InvalidLicense {
            bytes: Vec::from_slice(alloc, bytes)?,
        });
    }
    if *last != 0 {
        return Err(ParseError::MissingLicenseNullTerminator {
            bytes: Vec::from_slice(alloc, bytes)?,
        });
    }
    Ok(license)
}
