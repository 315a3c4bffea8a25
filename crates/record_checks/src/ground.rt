//! What is known of a store before its records.

use cloud_memory::{Shape, UserRooms};

/// What is known of a store before its records: by its start and its device.
#[derive(Clone, Copy)]
pub struct Ground {
    /// The store's shape.
    pub shape: Shape,
    /// The rooms of its users.
    pub rooms: UserRooms,
    /// The region that its blobs lie in.
    pub region: u8,
    /// The length of the area of shares, in bytes.
    pub shares_len: u64,
    /// The length of the area of recipes, in bytes.
    pub recipes_len: u64,
}
