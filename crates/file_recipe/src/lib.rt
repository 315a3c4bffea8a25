//! What a file is at each cloud of a store: the shares of its secrets, and the recipe that names them.
#![tactic(auto)]

mod cloud_file;
mod disperse;
mod file_bytes;
mod halves;
pub mod laws;

pub use caont_rs::{RecoverErr, recover, tag_of};
pub use cloud_file::{CloudFile, CloudFiles};
pub use disperse::{disperse_file, disperse_for};
pub use file_bytes::FileBytes;
pub use halves::disperse_bytes;
pub use rabin_chunker::Chunker;
pub use recipe::{Item, Items, Malformed, Recipe, RecipeErr, RecipeView};
