//! Type tables of the BPF Type Format (BTF): the items of the crates that they are made of, and the
//! calls that rewrite a table.
#![tactic(auto)]

pub use btf_compatibility::{fields_are_compatible, types_are_compatible};
pub use btf_encoding::TypeRef;
pub use btf_ext::{
    BtfExt, FuncInfo, FuncSecInfo, LineSecInfo, SecInfo, SecInfoIter, bpf_core_relo, bpf_func_info,
    bpf_line_info,
};
pub use btf_records::{
    Array, BtfArray, BtfEnum, BtfEnum64, BtfError, BtfFeature, BtfKind, BtfMember, BtfParam,
    BtfType, Const, DataSec, DataSecEntry, DeclTag, Endianness, Enum, Enum64, Enum64Fallback,
    Float, Func, FuncLinkage, FuncProto, Fwd, InfoBits, Int, IntEncoding, Items, Ptr, Restrict,
    Struct, TypeTag, Typedef, Union, Var, VarLinkage, Volatile,
};
pub use btf_rewrite::{Answers, KsymsIds, RewriteBtf, fixup_and_sanitize, fixup_ksyms_datasec};
pub use btf_storage::TypeRecords;
pub use btf_tables::{Btf, Strings, Types, essential_name};
