//! The servers of all clouds in one process, and the link that asks them: it passes on each request, or loses it or its
//! reply where it was told to.
#![tactic(auto)]

mod fate;
mod link;
mod servers;

pub use fate::Fate;
pub use link::{LocalLink, law_of_headers, law_of_readings};
pub use servers::Servers;
pub use share_server::{OpenErr, UserRooms, damage_of};
