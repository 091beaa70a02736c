//! Which features of types a kernel grants.

ghost use Rattle.std.specs.Prelude.{◌≡◌, map};
ghost use Rattle.run_settings.specs.Features.{all_granted, feature_named, feature_names, grants, with_answer};

use btf_records::BtfFeature;

/// Whether a kernel grants each feature of types.
#[derive(Clone, Copy, Debug, PartialEq, Eq)]
pub struct GrantedFeatures {
    pub func: bool,
    pub func_global: bool,
    pub data_sec: bool,
    pub data_sec_zero: bool,
    pub float: bool,
    pub decl_tag: bool,
    pub type_tag: bool,
    pub enum64: bool,
}

impl GrantedFeatures {
    /// All features are granted.
    pub fn all() -> GrantedFeatures
        ensures { result ≡ all_granted }
    {
        GrantedFeatures {
            func: true,
            func_global: true,
            data_sec: true,
            data_sec_zero: true,
            float: true,
            decl_tag: true,
            type_tag: true,
            enum64: true,
        }
    }

    /// Whether a feature is granted.
    pub fn grants(&self, feature: BtfFeature) -> bool
        ensures { result ≡ grants self.now feature }
    {
        match feature {
            BtfFeature::Func => self.func,
            BtfFeature::FuncGlobal => self.func_global,
            BtfFeature::DataSec => self.data_sec,
            BtfFeature::DataSecZero => self.data_sec_zero,
            BtfFeature::Float => self.float,
            BtfFeature::DeclTag => self.decl_tag,
            BtfFeature::TypeTag => self.type_tag,
            BtfFeature::Enum64 => self.enum64,
        }
    }

    /// The same features, with another answer for one.
    pub fn with_answer(self, feature: BtfFeature, answer: bool) -> GrantedFeatures
        ensures { result ≡ with_answer self feature answer }
    {
        match feature {
            BtfFeature::Func => GrantedFeatures {
                func: answer,
                ..self
            },
            BtfFeature::FuncGlobal => GrantedFeatures {
                func_global: answer,
                ..self
            },
            BtfFeature::DataSec => GrantedFeatures {
                data_sec: answer,
                ..self
            },
            BtfFeature::DataSecZero => GrantedFeatures {
                data_sec_zero: answer,
                ..self
            },
            BtfFeature::Float => GrantedFeatures {
                float: answer,
                ..self
            },
            BtfFeature::DeclTag => GrantedFeatures {
                decl_tag: answer,
                ..self
            },
            BtfFeature::TypeTag => GrantedFeatures {
                type_tag: answer,
                ..self
            },
            BtfFeature::Enum64 => GrantedFeatures {
                enum64: answer,
                ..self
            },
        }
    }
}

static NAMES: [&str; 8] = [
    "Func",
    "FuncGlobal",
    "DataSec",
    "DataSecZero",
    "Float",
    "DeclTag",
    "TypeTag",
    "Enum64",
];

/// The names of the features.
pub fn feature_names() -> &'static [&'static str]
    ensures { map (λ name. name.now) result.now ≡ feature_names }
{
    NAMES.as_slice()
}

/// The feature with a name, one of [`feature_names`].
pub fn feature_named(name: &str) -> Option<BtfFeature>
    ensures { result ≡ feature_named name.now }
{
    if name == "Func" {
        return Some(BtfFeature::Func);
    }
    if name == "FuncGlobal" {
        return Some(BtfFeature::FuncGlobal);
    }
    if name == "DataSec" {
        return Some(BtfFeature::DataSec);
    }
    if name == "DataSecZero" {
        return Some(BtfFeature::DataSecZero);
    }
    if name == "Float" {
        return Some(BtfFeature::Float);
    }
    if name == "DeclTag" {
        return Some(BtfFeature::DeclTag);
    }
    if name == "TypeTag" {
        return Some(BtfFeature::TypeTag);
    }
    if name == "Enum64" {
        return Some(BtfFeature::Enum64);
    }
    None
}
