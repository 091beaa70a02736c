//! Features of BTF that a kernel may lack.

/// A part of BTF that some kernels don't support.
#[derive(Clone, Copy, Debug, Default, PartialEq, Eq)]
pub enum BtfFeature {
    /// `BTF_KIND_FUNC` and `BTF_KIND_FUNC_PROTO`.
    #[default]
    Func,
    /// Functions of global linkage.
    FuncGlobal,
    /// `BTF_KIND_VAR` and `BTF_KIND_DATASEC`.
    DataSec,
    /// Sections without variables.
    DataSecZero,
    /// `BTF_KIND_FLOAT`.
    Float,
    /// `BTF_KIND_DECL_TAG`.
    DeclTag,
    /// `BTF_KIND_TYPE_TAG`.
    TypeTag,
    /// `BTF_KIND_ENUM64`, and signed `BTF_KIND_ENUM`.
    Enum64,
}
