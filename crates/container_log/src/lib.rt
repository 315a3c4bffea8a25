//! Blobs in containers: each is placed once, lies in one container, and is read back exactly. A crash touches none that
//! was there before.
#![tactic(auto)]

mod cache;
mod container;
mod full;
mod laws;
mod log;
mod places;
mod reading;

pub use full::LogFull;
pub use laws::{law_of_laying, law_of_places, law_of_reading, law_of_room};
pub use log::{Log, STAGING};
pub use places::CONTAINER;
