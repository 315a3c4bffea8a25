//! The regions of an area of blobs.

/// The bytes of a region. Region i takes the places from i times as many on.
pub const REGION_LEN: u64 = 34_359_738_368;

/// The bytes that shares may take before anything was spent.
pub const LEAST_SHARES: u64 = 8_589_934_592;

/// The bytes that recipes may take before anything was spent.
pub const LEAST_RECIPES: u64 = 1_073_741_824;
