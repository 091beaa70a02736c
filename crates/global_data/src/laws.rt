//! A law of the values of global variables. The function here computes nothing: its contract is the
//! theorem.

ghost use Rattle.global_data.specs.Kept.{ValuesLeaveBytes};

/// Every map keeps its name and its number of bytes where values are written, and all bytes outside
/// the ranges of the variables' symbols.
pub fn values_leave_bytes()
    ensures { ValuesLeaveBytes }
{}
