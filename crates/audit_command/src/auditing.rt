//! The audit of a cloud.

ghost use Rattle.std.specs.Prelude.{◌≡◌, ◌⊎◌, ◌<◌};
ghost use Rattle.command_cloud.specs.CdEdges.Shelf.{IsCall};
ghost use Rattle.command_cloud.specs.BackupCommand.Writing.{output_of};
ghost use Rattle.command_cloud.specs.CloudStore.Store.{IsOpen};
ghost use Rattle.command_cloud.specs.ShareServer.Serving.{number_of};
ghost use Rattle.audit_command.specs.Audited.{IsCloudAudited};
ghost use Rattle.command_cloud.specs.Opened.{cloud_call};
ghost use Rattle.command_cloud.specs.Unhindered.{IsOpeningUnhindered};
ghost use Rattle.audit_command.specs.Steps.{AuditedBy};

use crate::lines::write_audited;
use audit::audit;
use command_cloud::{Server, Shelf, Sink, open_cloud, write_unopened};
use grammar::{Bytes, CloudNo, Shape};
use std::alloc::Global;

// Audits the cloud of an open server.
fn audit_opened<K: Sink, V: Shelf>(
    alloc: Global,
    server: &mut Server,
    sink: &mut K,
    shelf: &mut V,
) -> u8
    requires { IsOpen server.old.store }
    ensures audited { AuditedBy server.old (cloud_call server.old.store.header.shape server.old.store.header.cloud
        (V.cloud_at shelf.old (number_of server.old)) (V.cloud_at shelf.new (number_of server.old))
        (V.faults shelf.old) (V.faults shelf.new))
        (output_of (K.written sink.old) (K.written sink.new) (K.faults sink.old) (K.faults sink.new)) result }
    ensures call { IsCall (V.cloud_at shelf.old) (V.cloud_at shelf.new) (number_of server.old)
        (V.faults shelf.old) (V.faults shelf.new) }
{
    let cloud = server.header().cloud;
    let mut text = Bytes::new(alloc);
    let came = audit(alloc, server, shelf, &mut text);
    write_audited(alloc, sink, cloud, text.as_slice(), came)
}

/// Opens a cloud of a store of this shape in the rooms that its journal has, and begins nothing; reads each share that some user
/// owns and each entry's recipe; and writes the certificate, all at once. It answers the status. `cloud` is below the shape's n.
///
/// | Status | Comes | Written |
/// |---|---|---|
/// | 0 | each listed blob lies where the cloud's records place it | the certificate |
/// | 4 | only where the sink's count of faults rose | a front of what was due |
/// | 5 | only where the cloud's count of faults rose | `shelf CLOUD` |
/// | 6 | memory ran out | nothing |
/// | 7 | no store is begun | `notbegun CLOUD LEN` |
/// | 7 | the journal is damaged | `damaged CLOUD AT BYTE` |
/// | 7 | the journal is another store's or cloud's | `other CLOUD FORMAT N K OWN`, as found |
/// | 8 | a listed blob is short, or hashes to another value | `refused rotten CLOUD NAMED FOUND` |
///
/// Over a told cloud that is begun and stands for a list within its rooms, and where no count rises, it is 0 or 6. A told cloud's
/// areas are synced, and read as before; the shelf's other clouds are as they were.
pub fn audit_cloud<K: Sink, V: Shelf>(
    alloc: Global,
    shape: Shape,
    cloud: CloudNo,
    sink: &mut K,
    shelf: &mut V,
) -> u8
    requires cloud { cloud.0 < shape.n }
    ensures audited { IsCloudAudited result (cloud_call shape cloud (V.cloud_at shelf.old cloud.0)
        (V.cloud_at shelf.new cloud.0) (V.faults shelf.old) (V.faults shelf.new))
        (output_of (K.written sink.old) (K.written sink.new) (K.faults sink.old) (K.faults sink.new)) }
    ensures call { IsCall (V.cloud_at shelf.old) (V.cloud_at shelf.new) cloud.0
        (V.faults shelf.old) (V.faults shelf.new) }
    ensures complete { IsOpeningUnhindered (cloud_call shape cloud (V.cloud_at shelf.old cloud.0)
        (V.cloud_at shelf.new cloud.0) (V.faults shelf.old) (V.faults shelf.new))
        (output_of (K.written sink.old) (K.written sink.new) (K.faults sink.old) (K.faults sink.new))
        → (result ≡ 0) ⊎ (result ≡ 6) }
{
    match open_cloud(alloc, shape, cloud, shelf) {
        Ok(server) => {
            let mut opened = server;
            audit_opened(alloc, &mut opened, sink, shelf)
        }
        Err(why) => write_unopened(alloc, sink, cloud, why),
    }
}
