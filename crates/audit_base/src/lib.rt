//! What a cloud's certificate is, and what it vouches for, as definitions and laws over a server's memory. Nothing of it
//! runs.
#![tactic(auto)]

mod errors;
mod laws;

pub use cd_edges::{Area, Failed, Shelf};
pub use certificate::{
    CertificateLine, FileLine, Heading, ShareLine, law_of_certificates, read_certificate,
    write_line,
};
pub use cloud_memory::{
    Bytes, CloudMemory, CloudNo, Entry, FileKey, Fp, NoMemory, Place, RecipeView, Shape, Tag,
    UserId, Version, sha256,
};
pub use errors::CheckErr;
pub use laws::law_of_wholeness;
