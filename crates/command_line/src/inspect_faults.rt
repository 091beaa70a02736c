//! Options of `inspect_object` that don't go together.

use crate::inspect_line::InspectArguments;

impl<'w> InspectArguments<'w> {
    /// The fault of a line whose options for code don't go together.
    pub fn code_fault(&self) -> Option<&'static str> {
        let is_listing = self.code || self.plan;
        if self.program.is_some() && !is_listing {
            return Some("--program goes with --code or --plan");
        }
        if is_listing && (self.check || self.format.is_some()) {
            return Some("--summary, --format and --check don't go with --code and --plan");
        }
        if is_listing && !self.more_objects.is_empty() {
            return Some("several objects don't go with --code and --plan");
        }
        if self.plan && self.symbols.is_some() {
            return Some("--symbols doesn't go with --plan");
        }
        if self.plan && self.types.len() > 1 {
            return Some("--plan goes with one --types");
        }
        None
    }

    /// The fault of a line whose options for several objects don't go together.
    pub fn check_fault(&self) -> Option<&'static str> {
        if self.more_objects.is_empty() && !self.failures {
            return None;
        }
        if !self.check {
            return Some("several objects and --failures go with --check");
        }
        if self.format.is_some() {
            return Some("several objects and --failures don't go with --summary and --format");
        }
        None
    }

    /// The fault of a line that asks for more than the objects that programs hold.
    pub fn extraction_fault(&self) -> Option<&'static str> {
        let has_reports = !self.types.is_empty()
            || self.symbols.is_some()
            || self.format.is_some()
            || self.check
            || self.strict
            || self.failures
            || !self.optional.is_empty();
        if has_reports || self.code || self.plan || self.program.is_some() {
            Some("--extract goes with no other option but --object")
        } else {
            None
        }
    }
}
