//! A cloud in a place audited, and a certificate of it checked: the cloud is opened in its own rooms, nothing is begun, and
//! only read.
#![tactic(auto)]

mod auditing;
mod checking;
mod lines;
mod marks;
mod reading;

pub use auditing::audit_cloud;
pub use checking::check_cloud;
pub use reading::CertificateReadErr;
