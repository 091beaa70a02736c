//! Whether a kernel takes a plan, as far as the kernel's own types say, and where it doesn't.
#![tactic(auto)]

mod arguments;
mod attachments;
mod calls;
mod causes;
mod codes;
mod probes;
mod reported_calls;
mod reports;
mod sources;

pub use attachments::{Attachment, attached_record};
pub use calls::{CallCause, MISSING_FUNCTION, POISON, call_cause};
pub use causes::{ProgramCause, checks_attach_type};
pub use codes::PlanCode;
pub use probes::attachments_of;
pub use reported_calls::HarmfulCall;
pub use reports::{PlanReport, ProgramReport, plan_report};
pub use sources::{SourceLine, line_record_at, source_at, source_of};
