//! Messages for objects that get no plan.

use crate::kernel_files::KernelFiles;
use crate::kernel_texts::{ksyms_text, required_types_text, type_relocation_text};
use crate::numbers::missing_numbers_text;
use crate::parsing::parse_text;
use crate::relocation_texts::relocation_text;
use crate::unmapped::unmapped_text;
use btf_records::BtfError;
use ebpf_items::ParseError;
use plan_errors::PrepareError;
use settings::Settings;
use std::alloc::{AllocError, Global};

/// The section of variables of the kernel's configuration, which libbpf sets.
const CONFIGURATION: &str = ".kconfig";

/// The message for types that can't be rewritten.
fn types_text(alloc: Global, error: &BtfError) -> Result<String, AllocError> {
    match error {
        BtfError::UnknownSectionSize { section_name } if section_name.as_str() == CONFIGURATION => {
            format!(in alloc; "{error}: externs of the kernel's configuration aren't taken")
        }
        error => format!(in alloc; "{error}"),
    }
}

/// The message for an object that gets no plan with these settings, for the kernel of these files.
pub fn prepare_text(
    alloc: Global,
    object: &[u8],
    settings: &Settings,
    files: &KernelFiles<'_>,
    error: &PrepareError,
) -> Result<String, AllocError> {
    match error {
        PrepareError::Parse(ParseError::MapNotFound { index }) => {
            unmapped_text(alloc, object, *index, settings)
        }
        PrepareError::Parse(error) => parse_text(alloc, object, error),
        PrepareError::MapNumberMissing { name } => {
            missing_numbers_text(alloc, object, name, settings, files)
        }
        PrepareError::KernelTypesRequired => required_types_text(alloc, files),
        PrepareError::Ksyms(error) => ksyms_text(alloc, object, error, files),
        PrepareError::BtfRelocation(error) => type_relocation_text(alloc, error, files),
        PrepareError::Relocation(error) => relocation_text(alloc, object, error),
        PrepareError::Types(error) => types_text(alloc, error),
        error => format!(in alloc; "{error}"),
    }
}
