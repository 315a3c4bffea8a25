//! An audit.

ghost use Rattle.std.specs.Prelude.{◌≡◌, List, IsTrue};
ghost use Rattle.share_server.specs.CdEdges.Disk.{reads};
ghost use Rattle.share_server.specs.CdEdges.Shelf.{IsCall, HasFailed, KeepsCounts, Stays};
ghost use Rattle.share_server.specs.UserDedup.command.Command.{Command};
ghost use Rattle.cloud_disk.specs.CloudAreas.Standing.{Chain};
ghost use Rattle.cloud_store.specs.Store.{IsOpen, Serves};
ghost use Rattle.share_server.specs.Serving.{number_of};
ghost use Rattle.audit.specs.Inner.{audit_error, IsAudited};
ghost use Rattle.audit.specs.Audits.{own_of, remembered, AppendsCertificate, AuditIs, AuditPasses, OnAuditFault};

use crate::AuditErr;
use blob_audit::{ReadErr, read_stored};
use cloud_store::CloudStore;
use own_certificate::write_own;
use share_server::{Bytes, NoMemory, Server, Shelf};
use std::alloc::Global;

// The cause by which an audit ends where the reading of blobs ends by this one.
fn audit_err(error: ReadErr) -> AuditErr
    ensures { result ≡ audit_error error }
{
    match error {
        ReadErr::Fault => AuditErr::Fault,
        ReadErr::Rotten { named, found } => AuditErr::Rotten { named, found },
        ReadErr::NoMemory => AuditErr::NoMemory,
    }
}

// An audit of a store.
fn audit_store<V: Shelf>(
    alloc: Global,
    store: &CloudStore,
    shelf: &mut V,
    out: &mut Bytes,
) -> Result<u32, AuditErr>
    ensures { IsAudited store.now (V.cloud_at shelf.old) (V.cloud_at shelf.new) (V.faults shelf.old)
        (V.faults shelf.new) result out.old out.new }
{
    let header = store.header;
    match read_stored(alloc, shelf, header.cloud, &store.memory) {
        Ok(()) => {}
        Err(error) => return Err(audit_err(error)),
    }
    match write_own(alloc, header.shape, header.cloud, &store.memory, out) {
        Ok(count) => Ok(count),
        Err(NoMemory) => Err(AuditErr::NoMemory),
    }
}

/// Reads each blob that an open server names, and appends the cloud's certificate. It answers how many shares and files
/// the certificate names.
///
/// Fault comes only where the cloud's count of faults rose. On a told cloud Rotten comes only where a share that some user
/// owns, or an entry's recipe, is short or hashes to another value, and Ok only where none is. Where the server serves a list
/// Rotten never comes.
pub fn audit<V: Shelf>(
    alloc: Global,
    server: &mut Server,
    shelf: &mut V,
    out: &mut Bytes,
) -> Result<u32, AuditErr>
    requires open { IsOpen server.old.store }
    ensures appends { AppendsCertificate (own_of server.old) result out.old out.new }
    ensures judged { IsTrue (V.cloud_at shelf.old (number_of server.old)).told
        → AuditIs (reads (V.cloud_at shelf.new (number_of server.old)).now) (remembered server.old) result }
    ensures passes { (list : List Command) (c : Chain)
        → Serves list c server.old.store (V.cloud_at shelf.old (number_of server.old)) → AuditPasses result }
    ensures server { server.new ≡ server.old }
    ensures stays { Stays (V.cloud_at shelf.old (number_of server.old)) (V.cloud_at shelf.new (number_of server.old)) }
    ensures call { IsCall (V.cloud_at shelf.old) (V.cloud_at shelf.new) (number_of server.old) (V.faults shelf.old)
        (V.faults shelf.new) }
    ensures counts { OnAuditFault result
        (HasFailed (V.cloud_at shelf.old (number_of server.old)) (V.cloud_at shelf.new (number_of server.old))
        (V.faults shelf.old) (V.faults shelf.new))
        (KeepsCounts (V.cloud_at shelf.old (number_of server.old)) (V.cloud_at shelf.new (number_of server.old))
        (V.faults shelf.old) (V.faults shelf.new)) }
{
    audit_store(alloc, server.store(), shelf, out)
}
