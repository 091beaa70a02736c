//! A kernel's types, searched for what programs and maps need.

ghost use Rattle.std.specs.Prelude.{◌≡◌, ◌∷◌, [], IfOk};
ghost use Rattle.std.specs.Option.{option_copied};
ghost use Rattle.report_needs.specs.Enums.{func_ids, helper_name, helper_presence, linkage_presence, map_presence};
ghost use Rattle.report_needs.specs.Flags.{flags_need};
ghost use Rattle.report_needs.specs.Kinds.{kind_presence};
ghost use Rattle.report_needs.specs.Members.{has_member};
ghost use Rattle.report_needs.specs.Records.{first_named};
ghost use Rattle.report_needs.specs.Needs.{absent_need, attach_presence, record_need, target_need, type_presence};

use crate::enums::{ENUM_NAMES, EnumIds, Presence, helper_name, presence_at};
use crate::flags::{between, flag_helpers};
use crate::kinds::{RecordKinds, has_kind};
use crate::members::has_member_at;
use crate::needs::TargetNeed;
use crate::numbers::{known_presence, numbers_at};
use crate::records::first_named;
use crate::targets::{AttachTarget, attach_target, is_attached_by_name};
use btf_records::BtfKind;
use btf_search::NamedTypes;
use btf_tables::{Btf, essential_name};
use program_kinds::{ProgramSection, load_attributes};
use std::alloc::{AllocError, Global};
use std::collections::BTreeSet;
use std::marker::Model;
use std::slice;

/// `bpf_jiffies64`, of Linux 5.6, which brought functions of global linkage.
const JIFFIES: i32 = 118;

/// A kernel's types, searched for what programs and maps need: helpers by `bpf_func_id`, types of
/// programs by `bpf_prog_type`, attach types by `bpf_attach_type`, types of maps by `bpf_map_type`,
/// kinds of records in types by the `BTF_KIND_` numbers, members of structs, and the records that
/// programs are attached to.
///
/// Each enum is the first `BTF_KIND_ENUM` with its name and with variants, or where there is none
/// the first such `BTF_KIND_ENUM64`. Values are compared as numbers of 64 bits, signed ones as
/// their bits. Two kinds of variants don't count: one whose name begins with `__`, like
/// `__BPF_FUNC_MAX_ID`, marks the end of its enum, and one whose name ends in `_unspec` or
/// `_UNSPEC`, like `BPF_MAP_TYPE_UNSPEC`, stands for none. A record whose name can't be read is
/// never found.
#[derive(Debug)]
pub struct SearchedKernel<'k, 'n> {
    kernel: &'k Btf<'k>,
    types: NamedTypes<'k, 'n>,
    enums: EnumIds,
    helpers: BTreeSet<u64>,
    record_kinds: RecordKinds<'k>,
}

impl<'k, 'n> Drop for SearchedKernel<'k, 'n> {
    // One call wherever it is dropped, in place of one for each part.
    fn drop(self) {
        let SearchedKernel {
            kernel: _,
            types: _types,
            enums: _,
            helpers: _helpers,
            record_kinds: _record_kinds,
        } = self;
    }
}

impl<'k, 'n> Model for SearchedKernel<'k, 'n> {
    ghost use Rattle.std.specs.Prelude.{◌≡◌, ◌∷◌, []};
    ghost use Rattle.btf_tables.specs.Tables.{Table};
    ghost use Rattle.report_needs.specs.Enums.{AreEnums, func_ids};
    ghost use Rattle.report_needs.specs.Kinds.{record_kinds_of};
    ghost use Rattle.report_needs.specs.Numbers.{AreNumbers};

    ghost Value = { Table };

    ghost view = { λ n. n.kernel.now };

    ghost invariant = { λ n.
        (n.types ≡ n.kernel.now ∷ [])
        × (AreEnums n.kernel.now n.enums
        × (AreNumbers n.kernel.now (func_ids n.kernel.now) n.helpers
        × (n.record_kinds ≡ record_kinds_of n.kernel.now))) };
}

/// The struct of which `has_member` is asked.
const FUNCTION_RECORD: &str = "bpf_func_info_aux";

/// The kinds of the records that are searched for: enums, structs, functions if there are names of
/// records, and typedefs if one of these names begins with `btf_trace_`.
fn searched_kinds(records: &[String]) -> &'static [BtfKind] {
    if records.is_empty() {
        return &[BtfKind::Enum, BtfKind::Enum64, BtfKind::Struct];
    }
    if records.iter().any(|name| name.starts_with("btf_trace_")) {
        &[
            BtfKind::Enum,
            BtfKind::Enum64,
            BtfKind::Struct,
            BtfKind::Func,
            BtfKind::Typedef,
        ]
    } else {
        &[
            BtfKind::Enum,
            BtfKind::Enum64,
            BtfKind::Struct,
            BtfKind::Func,
        ]
    }
}

/// The names that are searched for, without flavours: those of the enums and of the struct, and those
/// of these records.
fn searched_names<'n>(alloc: Global, records: &'n [String]) -> Result<Vec<&'n str>, AllocError> {
    let mut names = Vec::new(alloc);
    names.extend_from_slice(&ENUM_NAMES)?;
    names.push(FUNCTION_RECORD)?;
    for name in records {
        names.push(essential_name(name.as_str()))?;
    }
    Ok(names)
}

impl<'k, 'n> SearchedKernel<'k, 'n> {
    /// A kernel, given its types. They are searched once, for the enums, for `bpf_func_info_aux`, and
    /// for records of these names. The enums of 32 bits without a name are read up to the one of the
    /// kinds' numbers. A record of another name is found too, by one more search whenever it is asked
    /// for.
    ///
    /// # Errors
    ///
    /// `AllocError` where memory runs out.
    pub fn new(
        alloc: Global,
        kernel: &'k Btf<'k>,
        records: &'n [String],
    ) -> Result<SearchedKernel<'k, 'n>, AllocError>
        ensures { IfOk result (λ searched. searched ≡ kernel.now) }
    {
        let names = searched_names(alloc, records)?;
        let tables = slice::from_ref(kernel);
        let types = NamedTypes::find(alloc, searched_kinds(records), names.as_slice(), tables)?;
        let enums = EnumIds::find(alloc, kernel, &types)?;
        let helpers = numbers_at(alloc, kernel, enums.helpers)?;
        let record_kinds = RecordKinds::find(alloc, kernel)?;
        Ok(SearchedKernel {
            kernel,
            types,
            enums,
            helpers,
            record_kinds,
        })
    }

    /// The kernel's types.
    pub fn kernel(&self) -> &'k Btf<'k>
        ensures { result.now ≡ self.now }
    {
        self.kernel
    }

    /// Whether the kernel has a helper. `helper` is the immediate of its calls.
    pub fn helper(&self, helper: i32) -> Presence
        ensures { result ≡ helper_presence self.now (func_ids self.now) helper }
    {
        let wanted = i64::from(helper).cast_unsigned();
        known_presence(self.enums.helpers.is_some(), &self.helpers, wanted)
    }

    /// The kernel's name of a helper, like `BPF_FUNC_map_lookup_elem`: that of the first variant of
    /// `enum bpf_func_id` with this number, if there is one and its name can be read.
    pub fn helper_name(&self, helper: i32) -> Option<&'k str>
        ensures { option_copied result ≡ helper_name self.now (func_ids self.now) helper }
    {
        helper_name(self.kernel, self.enums.helpers, helper)
    }

    /// Whether the kernel has the type of programs of a kind.
    pub fn program_type(&self, kind: &ProgramSection) -> Presence
        ensures { result ≡ type_presence self.now kind.now }
    {
        let number = load_attributes(kind).prog_type.number();
        presence_at(self.kernel, self.enums.program_types, u64::from(number))
    }

    /// Whether the kernel has the expected attach type of programs of a kind, if they have one.
    pub fn attach_type(&self, kind: &ProgramSection) -> Option<Presence>
        ensures { result ≡ attach_presence self.now kind.now }
    {
        let number = load_attributes(kind).expected_attach_type?;
        Some(presence_at(self.kernel, self.enums.attach_types, u64::from(number)))
    }

    /// Whether the kernel takes the flags with which programs of a kind are loaded, if they have
    /// some. Helpers tell it.
    pub fn flags(&self, kind: &ProgramSection) -> Option<Presence>
        ensures { result ≡ flags_need self.now kind.now }
    {
        let (first, since) = flag_helpers(kind)?;
        Some(between(self.helper(first), self.helper(since)))
    }

    /// Whether the kernel has the linkages of functions (`enum btf_func_linkage`, of Linux 5.6). A
    /// kernel without helper 118 (`bpf_jiffies64`, of the same version) lacks them.
    pub fn function_linkages(&self) -> Presence
        ensures { result ≡ linkage_presence self.now }
    {
        if self.enums.linkages.is_some() {
            return Presence::Found;
        }
        self.helper(JIFFIES).missing_or_unknown()
    }

    /// Whether the kernel has maps of a type. `map_type` is a number of `enum bpf_map_type`.
    pub fn map_type(&self, map_type: u32) -> Presence
        ensures { result ≡ map_presence self.now map_type }
    {
        presence_at(self.kernel, self.enums.map_types, u64::from(map_type))
    }

    /// Whether the kernel has records of a kind in its types, by its own numbers `BTF_KIND_INT` and
    /// so on: an enum without a name, of kernels since Linux 5.16. It has those of a kind where the
    /// first enum of 32 bits without a name whose first variant is `BTF_KIND_UNKN` has a variant
    /// with the kind's number whose name begins with `BTF_KIND_`. Where there is no such enum, the
    /// functions that check records tell the kinds that came after Linux 5.12.
    pub fn record_kind(&self, kind: BtfKind) -> Presence
        ensures { result ≡ kind_presence self.now kind }
    {
        self.record_kinds.presence(self.kernel, kind)
    }

    /// The id of the kernel's first record of a kind and a name. The types are searched again only for
    /// a name that they weren't searched for in advance.
    ///
    /// # Errors
    ///
    /// `AllocError` where memory runs out.
    pub fn record_id(
        &self,
        alloc: Global,
        kind: BtfKind,
        name: &str,
    ) -> Result<Option<u32>, AllocError>
        ensures { IfOk result (λ id. id ≡ first_named self.now kind name.now) }
    {
        first_named(alloc, self.kernel, &self.types, kind, name)
    }

    /// Whether the first struct of a name has a member of a name. Where the kernel has no such
    /// struct, it has no such member.
    ///
    /// # Errors
    ///
    /// `AllocError` where memory runs out.
    pub fn has_member(
        &self,
        alloc: Global,
        struct_name: &str,
        name: &str,
    ) -> Result<bool, AllocError>
        ensures { IfOk result (λ found. found ≡ has_member self.now struct_name.now name.now) }
    {
        let found = self.record_id(alloc, BtfKind::Struct, struct_name)?;
        match found {
            Some(id) => Ok(has_member_at(self.kernel, name, id)),
            None => Ok(false),
        }
    }

    /// What is known of the record of a target that isn't there.
    fn absent(&self, target: &AttachTarget<'_>) -> TargetNeed
        ensures { result ≡ absent_need self.now target.now }
    {
        if target.is_built_in() && has_kind(self.kernel, target.kind()) {
            TargetNeed::Missing
        } else {
            TargetNeed::Unknown
        }
    }

    /// Whether the kernel has the record of a target.
    fn record(&self, alloc: Global, target: &AttachTarget<'_>) -> Result<TargetNeed, AllocError>
        ensures { IfOk result (λ need. need ≡ record_need self.now target.now) }
    {
        let name = target.record_name(alloc)?;
        let found = self.record_id(alloc, target.kind(), &name)?;
        match found {
            Some(id) => Ok(TargetNeed::Found(id)),
            None => Ok(self.absent(target)),
        }
    }

    /// Whether the kernel has what a program of a kind is attached to by the name of its section.
    /// Only the kernel's own records are searched. A function or a tracepoint that isn't among them
    /// is unknown, since a module may have it. A hook of LSM or an iterator is missing, unless the
    /// types have no record of its kind at all.
    ///
    /// # Errors
    ///
    /// `AllocError` where memory runs out.
    pub fn target(
        &self,
        alloc: Global,
        kind: &ProgramSection,
        section: &str,
    ) -> Result<TargetNeed, AllocError>
        ensures { IfOk result (λ need. need ≡ target_need self.now kind.now section.now) }
    {
        if !is_attached_by_name(kind) {
            return Ok(TargetNeed::NotNamed);
        }
        match attach_target(kind, section) {
            Some(target) => self.record(alloc, &target),
            None => Ok(TargetNeed::Unknown),
        }
    }
}
