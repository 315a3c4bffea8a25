//! A server's replies to the requests that change nothing: Hello, Query, List, GetShares and GetRecipe. They are made of the
//! server's memory and of the blobs on its disk, and written in place.
//!
//! No call takes memory. Each names the replies that it may give whatever is known of the memory and of the disk, and the one
//! reply that it gives where both keep one list. Whatever they keep, what is given has the fingerprint that was asked for.
#![tactic(auto)]

mod blobs;
mod fetching;
mod greeting;
pub mod laws;
mod listing;
mod owning;
mod sending;
mod together;

pub use blobs::{BlobStop, read_blob};
pub use cd_edges::{Area, Failed, Ports, Shelf, Sink, Source, write_all};
pub use cloud_memory::{
    Bytes, CloudMemory, CloudNo, Entry, Fp, Link, Log, Lost, New, NoMemory, Place, RECIPE_LIMIT,
    RecipeView, Room, Shape, Tag, UserId, Version, sha256,
};
pub use fetching::{VersionKey, read_recipe, recipe};
pub use greeting::hello;
pub use listing::entries;
pub use messages::{
    FpsView, ReplyBuf, RequestView, SharesView, write_committed, write_damaged, write_deleted,
    write_exists, write_fault, write_full, write_lacking, write_malformed, write_missing,
    write_rotten, write_stored,
};
pub use owning::known;
pub use sending::shares;
