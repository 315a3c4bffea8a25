//! Where a file is cut into secrets, found as its bytes come in.
//!
//! A secret that begins at place s ends at the least place e for which the 48 bytes before e have a fingerprint whose 13
//! low bits are all one, and e - s is at least 2,048; or e - s is 16,384; or the file ends at e. The next secret begins at
//! e. So the cuts depend on the content alone, and not on the pieces in which it comes.
#![tactic(auto)]

mod chunker;
pub mod laws;
mod pieces;
mod scan;
mod tables;

pub use cd_base::{Bytes, CloudNo, Ends, NoMemory, Shape, sha256, share_len};
pub use chunker::Chunker;
pub use pieces::cut_pieces;
