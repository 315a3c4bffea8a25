//! Why not all blobs were read and found as they were stored.

use audit_base::Fp;

/// Why not all blobs were read and found as they were stored.
#[derive(Clone, Copy)]
pub enum ReadErr {
    /// A device failed.
    Fault,
    /// A blob isn't there as it was stored: `named` is the fingerprint by which the memory names it, `found` that of
    /// the bytes that are there.
    Rotten { named: Fp, found: Fp },
    /// Memory ran out. No device was called.
    NoMemory,
}
