//! Tests of restores over replies that were prepared.
#![tactic(auto)]

#[cfg(test)]
mod any;
#[cfg(test)]
mod cases;
#[cfg(test)]
mod restore_job_cases;
mod script;

pub use script::Script;
