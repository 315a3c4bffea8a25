//! An audit of a cloud, and a check of its certificate.
#![tactic(auto)]

mod auditing;
mod checking;
mod errors;
mod laws;

pub use auditing::audit;
pub use blob_audit::CheckErr;
pub use checking::check;
pub use errors::AuditErr;
pub use laws::law_of_served_clouds;
