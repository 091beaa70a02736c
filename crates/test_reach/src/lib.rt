//! Tests of what a run of a program can reach, on programs whose poison a kernel's verifier visits or
//! not, and of loads from a program's context.
#![tactic(auto)]

#[cfg(test)]
mod comparisons;
#[cfg(test)]
mod context;
#[cfg(test)]
mod frames;
#[cfg(test)]
mod programs;
#[cfg(test)]
mod results;
#[cfg(test)]
mod typed_externs;
#[cfg(test)]
mod versions;
