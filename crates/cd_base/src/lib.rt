//! The numbers, shapes and lists that every layer of cdstore speaks of.
#![tactic(auto)]

mod bytes;
mod clouds;
mod digest;
mod ends;
mod fps;
mod ids;
mod lengths;
mod limits;
mod path;
mod place;
mod rooms;
mod shape;

pub use bytes::Bytes;
pub use clouds::Clouds;
pub use digest::sha256;
pub use ends::Ends;
pub use fps::Fps;
pub use ids::{CloudNo, Fp, NoMemory, Tag, UserId, Version};
pub use lengths::share_len;
pub use limits::{FILE_LIMIT, PATH_LIMIT, RECIPE_LIMIT, SECRET_LIMIT};
pub use path::is_path;
pub use place::Place;
pub use rooms::{Room, Rooms};
pub use shape::Shape;
