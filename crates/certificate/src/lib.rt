//! A certificate of a cloud as text: its lines, the one text of each, and where a text is none.
#![tactic(auto)]

mod fields;
mod kinds;
mod laws;
mod line;
mod reading;
mod writing;

pub use laws::law_of_certificates;
pub use line::{CertificateLine, FileLine, Heading, ShareLine};
pub use reading::{WrongLine, read_certificate};
pub use session::{Event, LineErr, LineReader, ScriptErr, encode, read_header, read_line};
pub use writing::write_line;
