//! Kernels without function types.

ghost use Rattle.std.specs.Prelude.{◌≡◌};
ghost use Rattle.load_plan.specs.RewrittenFunctions.{is_denied};

use btf_records::BtfFeature;
use btf_sanitize::Answers;

/// Whether the kernel was asked about `BTF_KIND_FUNC` and denied it.
pub fn is_denied(answers: &Answers) -> bool
    ensures { result ≡ is_denied answers.now.items }
{
    for answer in answers.as_slice() {
        if matches!(answer.0, BtfFeature::Func) {
            return !answer.1;
        }
    }
    false
}
