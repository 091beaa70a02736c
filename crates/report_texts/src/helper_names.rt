//! Names of helpers.

ghost use Rattle.std.specs.Prelude.{◌≡◌, [], ◌∷◌, IfOk, OnOk};
ghost use Rattle.std.specs.Option.{option_map};
ghost use Rattle.std.specs.String.{string_bytes};
ghost use Rattle.report_texts.specs.Helpers.{AreAdded, are_all_named, are_named_in, is_named, name_for, name_of, numbers_in, numbers_of, without_front};

use kernel_reports::{HelperNeed, PlanReport, Presence, ProgramReport, SearchedKernel};
use std::alloc::{AllocError, Global};
use std::collections::BTreeMap;

/// Names of helpers by their numbers, as kernels' types have them.
#[derive(Debug, Drop)]
pub struct HelperNames {
    by_number: BTreeMap<i32, String>,
}

/// The name of a variant of `enum bpf_func_id` without `BPF_FUNC_`, if it begins with that.
fn without_front(variant: &str) -> &str
    ensures { result.now ≡ without_front variant.now }
{
    match variant.strip_prefix("BPF_FUNC_") {
        Some(name) => name,
        None => variant,
    }
}

/// The name of a helper, given that of its variant: `bpf_` in place of `BPF_FUNC_`.
fn name_for(alloc: Global, variant: &str) -> Result<String, AllocError>
    ensures { IfOk result (λ name. string_bytes name ≡ name_for variant.now) }
{
    let mut name = String::from_str(alloc, "bpf_")?;
    name.push_str(without_front(variant))?;
    Ok(name)
}

impl HelperNames {
    /// No names.
    pub fn new(alloc: Global) -> HelperNames
        ensures { result.by_number.entries ≡ [] }
    {
        HelperNames {
            by_number: BTreeMap::new(alloc),
        }
    }

    /// The name of a helper, like `bpf_map_lookup_elem`, if it has one.
    pub fn get(&self, number: i32) -> Option<&str>
        ensures { option_map (λ name. name.now) result ≡ name_of self.now number }
    {
        match self.by_number.get(&number) {
            Some(name) => Some(name.as_str()),
            None => None,
        }
    }

    /// Whether a helper has a name, if the kernel has the helper.
    fn is_named(&self, need: &HelperNeed) -> bool
        ensures { result ≡ is_named self.now need.now }
    {
        match need.presence {
            Presence::Found => self.by_number.contains_key(&need.number),
            Presence::Missing | Presence::Unknown => true,
        }
    }

    /// Whether the helpers that a program calls and that the kernel has all have names.
    fn name_program(&self, report: &ProgramReport) -> bool
        ensures { result ≡ are_named_in self.now report.now }
    {
        report.needs.helpers.iter().all(|need| self.is_named(need))
    }

    /// Whether the helpers that a plan's programs call and that the kernel has all have names.
    pub fn name_all(&self, report: &PlanReport) -> bool
        ensures { result ≡ are_all_named self.now report.now }
    {
        report
            .programs
            .iter()
            .all(|program| self.name_program(program))
    }

    /// Adds the name that a kernel has for a helper, if it has one.
    fn add_one(
        &mut self,
        alloc: Global,
        kernel: &SearchedKernel<'_, '_>,
        number: i32,
    ) -> Result<(), AllocError>
        ensures { OnOk result (AreAdded kernel.now (number ∷ []) self.old self.new) }
    {
        let Some(variant) = kernel.helper_name(number) else {
            return Ok(());
        };
        let name = name_for(alloc, variant)?;
        self.by_number.insert(number, name)?;
        Ok(())
    }

    /// Adds the names that a kernel has for the helpers that a program calls.
    fn add_program(
        &mut self,
        alloc: Global,
        kernel: &SearchedKernel<'_, '_>,
        report: &ProgramReport,
    ) -> Result<(), AllocError>
        ensures { OnOk result (AreAdded kernel.now (numbers_in report.now) self.old self.new) }
    {
        for need in &report.needs.helpers {
            self.add_one(alloc, kernel, need.number)?;
        }
        Ok(())
    }

    /// Adds the names that a kernel has for the helpers that a plan's programs call. A helper that
    /// the kernel has no name for keeps the name that is stored, as does a helper that isn't
    /// called.
    ///
    /// # Errors
    ///
    /// `AllocError` where memory runs out.
    pub fn add(
        &mut self,
        alloc: Global,
        kernel: &SearchedKernel<'_, '_>,
        report: &PlanReport,
    ) -> Result<(), AllocError>
        ensures { OnOk result (AreAdded kernel.now (numbers_of report.now) self.old self.new) }
    {
        for program in &report.programs {
            self.add_program(alloc, kernel, program)?;
        }
        Ok(())
    }
}
