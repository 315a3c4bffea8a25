//! The limits that several crates keep.

/// The most bytes of a file: 64 MiB.
pub const FILE_LIMIT: usize = 67_108_864;

/// The most bytes of a path.
pub const PATH_LIMIT: usize = 1024;

/// The most bytes of a secret.
pub const SECRET_LIMIT: u32 = 16_384;

/// The most bytes of a recipe: that of a file of 32,768 secrets, whose path has 1,024 bytes, in a store of which 2 clouds are
/// needed.
pub const RECIPE_LIMIT: u32 = 1_180_190;
