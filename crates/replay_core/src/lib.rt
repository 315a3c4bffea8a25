//! What every session over clouds comes to: its end, its promise, and the opening of its clouds.
#![tactic(auto)]

mod end;
mod opening;

pub use end::ReplayEnd;
pub use opening::{empty_clouds, open_clouds};
pub use script_lines::{
    Buffers, Jobs, LocalLink, Servers, carry_out, law_of_acknowledged, law_of_moments,
    law_of_own_replies, law_of_parts,
};
pub use share_server::UserRooms;
pub use share_server::laws::law_of_no_commands;
pub use two_worlds::read_line;
