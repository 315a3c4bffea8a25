//! Why a certificate isn't written.

use share_server::Fp;

/// Why a certificate isn't written. Nothing was appended.
#[derive(Clone, Copy)]
pub enum AuditErr {
    /// A device failed.
    Fault,
    /// A blob isn't there as it was stored: `named` is the fingerprint by which the server names it, `found` that of the
    /// bytes that are there.
    Rotten { named: Fp, found: Fp },
    /// Memory ran out.
    NoMemory,
}
