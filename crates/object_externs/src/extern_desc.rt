//! An extern.

use std::marker::Model;

/// A function or a variable of the kernel that a program uses, declared in the table of types.
#[derive(Clone, Debug, Drop)]
pub struct ExternDesc<'a> {
    /// Its name, with its flavour.
    pub name: &'a str,
    /// The id of the `BTF_KIND_FUNC` or `BTF_KIND_VAR` that declares it.
    pub btf_id: u32,
    /// Whether it may be missing from the kernel.
    pub is_weak: bool,
    /// Whether it was found in the kernel.
    pub is_resolved: bool,
    /// The id of the kernel's type, if it was found by its type.
    pub kernel_btf_id: Option<u32>,
    /// Its address in the kernel, if it was found by its name alone.
    pub ksym_addr: Option<u64>,
    /// The id of its type after modifiers; a variable of void has none.
    pub type_id: Option<u32>,
    /// Its name without its flavour, as the kernel has it.
    pub essential_name: &'a str,
}

impl<'a> Model for ExternDesc<'a> {
    ghost use Rattle.object_externs.specs.Externs.{ExternContent};

    ghost Value = { ExternContent };

    ghost view = { λ e.
        record {
          name = e.name.now;
          btf_id = e.btf_id;
          is_weak = e.is_weak;
          is_resolved = e.is_resolved;
          kernel_btf_id = e.kernel_btf_id;
          ksym_addr = e.ksym_addr;
          type_id = e.type_id;
          essential_name = e.essential_name.now;
        } };
}
