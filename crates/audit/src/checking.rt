//! A check of a certificate.

ghost use Rattle.std.specs.Prelude.{◌≡◌, List, IsTrue, OnOk};
ghost use Rattle.share_server.specs.CdEdges.Disk.{reads};
ghost use Rattle.share_server.specs.CdEdges.Shelf.{IsCall, HasFailed, KeepsCounts, Stays};
ghost use Rattle.share_server.specs.UserDedup.command.Command.{Command};
ghost use Rattle.cloud_disk.specs.CloudAreas.Standing.{Chain};
ghost use Rattle.cloud_store.specs.Store.{IsOpen, IsSettled, Serves};
ghost use Rattle.share_server.specs.Serving.{number_of};
ghost use Rattle.own_certificate.specs.Certificate.Lines.{certificate_text};
ghost use Rattle.blob_audit.specs.AuditBase.Judged.{JudgedIs};
ghost use Rattle.blob_audit.specs.AuditBase.Whole.{IsRottenNow, WholeNow};
ghost use Rattle.audit.specs.Inner.{check_error, IsChecked};
ghost use Rattle.audit.specs.Audits.{own_of, remembered, IfCheckRotten, IfUnread, CheckPasses, OnCheckFault};

use blob_audit::{CheckErr, ReadErr, read_good};
use cloud_store::CloudStore;
use own_certificate::judge;
use share_server::{Server, Shelf};
use std::alloc::Global;

// The cause by which a check ends where the reading of blobs ends by this one.
fn check_err(error: ReadErr) -> CheckErr
    ensures { result ≡ check_error error }
{
    match error {
        ReadErr::Fault => CheckErr::Fault,
        ReadErr::Rotten { named, found } => CheckErr::Rotten { named, found },
        ReadErr::NoMemory => CheckErr::NoMemory,
    }
}

// A check of a store.
fn check_store<V: Shelf>(
    alloc: Global,
    store: &CloudStore,
    shelf: &mut V,
    certificate: &[u8],
) -> Result<u32, CheckErr>
    requires settled { IsSettled store.now }
    requires open { IsOpen store.now }
    ensures checked { IsChecked store.now certificate.now (V.cloud_at shelf.old) (V.cloud_at shelf.new)
        (V.faults shelf.old) (V.faults shelf.new) result }
    ensures unread { IfUnread result (shelf.new ≡ shelf.old) }
{
    let header = store.header;
    let count = match judge(
        alloc,
        header.shape,
        header.cloud,
        &store.memory,
        certificate,
    ) {
        Ok(count) => count,
        Err(error) => return Err(error),
    };
    match read_good(alloc, shelf, header.cloud, header.shape, &store.memory) {
        Ok(()) => Ok(count),
        Err(error) => Err(check_err(error)),
    }
}

/// Sees that a text is an open server's own certificate, and then reads each blob that it names. Ok says that the cloud is
/// whole now: each share that some user owns is at its place, and each entry's recipe is at its own, is one, and names only
/// what its user owns. It answers how many shares and files the certificate names.
///
/// The refusals come in this order, each exactly: Malformed, OtherCloud and Differs before any device is called; then
/// Rotten or Fault, whichever the reading meets. Fault comes only where the cloud's count of faults rose.
pub fn check<V: Shelf>(
    alloc: Global,
    server: &mut Server,
    shelf: &mut V,
    certificate: &[u8],
) -> Result<u32, CheckErr>
    requires open { IsOpen server.old.store }
    ensures judged { JudgedIs (own_of server.old) certificate.now result }
    ensures whole { IsTrue (V.cloud_at shelf.old (number_of server.old)).told → OnOk result
        (WholeNow server.old.store.header.shape (reads (V.cloud_at shelf.new (number_of server.old)).now)
        (remembered server.old)) }
    ensures rotten { IsTrue (V.cloud_at shelf.old (number_of server.old)).told → IfCheckRotten result
        (IsRottenNow server.old.store.header.shape (reads (V.cloud_at shelf.new (number_of server.old)).now)
        (remembered server.old)) }
    ensures passes { (list : List Command) (c : Chain)
        → Serves list c server.old.store (V.cloud_at shelf.old (number_of server.old))
        → certificate.now ≡ certificate_text (own_of server.old) → CheckPasses result }
    ensures unread { IfUnread result (shelf.new ≡ shelf.old) }
    ensures server { server.new ≡ server.old }
    ensures stays { Stays (V.cloud_at shelf.old (number_of server.old)) (V.cloud_at shelf.new (number_of server.old)) }
    ensures call { IsCall (V.cloud_at shelf.old) (V.cloud_at shelf.new) (number_of server.old) (V.faults shelf.old)
        (V.faults shelf.new) }
    ensures counts { OnCheckFault result
        (HasFailed (V.cloud_at shelf.old (number_of server.old)) (V.cloud_at shelf.new (number_of server.old))
        (V.faults shelf.old) (V.faults shelf.new))
        (KeepsCounts (V.cloud_at shelf.old (number_of server.old)) (V.cloud_at shelf.new (number_of server.old))
        (V.faults shelf.old) (V.faults shelf.new)) }
{
    check_store(alloc, server.store(), shelf, certificate)
}
