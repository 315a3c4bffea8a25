//! A cloud on the network: connections to it are served one after another, and a line tells how each ended.
#![tactic(auto)]

mod command;
mod connection;
mod connections;
mod desk;
mod finding;
mod frame_responder;
mod frames_in_turn;
mod lines;
mod refusal;
mod responder;
mod served;
mod stop;

pub use command::serve;
pub use connection::serve_connection;
pub use finding::rooms_of;
pub use frame_responder::Responder;
pub use frames_in_turn::serve_frames;
pub use ports_link::PortsLink;
pub use served::Served;
pub use share_server::{OpenErr, Server, UserRooms};
