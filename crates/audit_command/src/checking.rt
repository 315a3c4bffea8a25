//! The check of a certificate.

ghost use Rattle.std.specs.Prelude.{◌≡◌, ◌<◌};
ghost use Rattle.command_cloud.specs.CdEdges.Shelf.{IsCall};
ghost use Rattle.command_cloud.specs.BackupCommand.Reading.{input_of};
ghost use Rattle.command_cloud.specs.BackupCommand.Writing.{output_of};
ghost use Rattle.command_cloud.specs.CloudStore.Store.{IsOpen};
ghost use Rattle.command_cloud.specs.ShareServer.Serving.{number_of};
ghost use Rattle.audit_command.specs.Checked.{IsCertificateChecked};
ghost use Rattle.command_cloud.specs.Opened.{cloud_call};
ghost use Rattle.audit_command.specs.Steps.{AnswersBy, CheckedBy};

use crate::lines::{write_checked, write_unread};
use crate::reading::read_text;
use audit::check;
use command_cloud::{Server, Shelf, Sink, Source, open_cloud, write_unopened};
use grammar::{CloudNo, Shape};
use std::alloc::Global;

// Checks a text by an open server.
fn check_read<K: Sink, V: Shelf>(
    alloc: Global,
    server: &mut Server,
    text: &[u8],
    sink: &mut K,
    shelf: &mut V,
) -> u8
    requires { IsOpen server.old.store }
    ensures answered { AnswersBy server.old (cloud_call server.old.store.header.shape server.old.store.header.cloud
        (V.cloud_at shelf.old (number_of server.old)) (V.cloud_at shelf.new (number_of server.old))
        (V.faults shelf.old) (V.faults shelf.new)) text.now
        (output_of (K.written sink.old) (K.written sink.new) (K.faults sink.old) (K.faults sink.new)) result }
    ensures call { IsCall (V.cloud_at shelf.old) (V.cloud_at shelf.new) (number_of server.old)
        (V.faults shelf.old) (V.faults shelf.new) }
{
    let cloud = server.header().cloud;
    let came = check(alloc, server, shelf, text);
    write_checked(alloc, sink, cloud, text, came)
}

// Checks what the source has, by an open server.
fn check_opened<S: Source, K: Sink, V: Shelf>(
    alloc: Global,
    server: &mut Server,
    source: &mut S,
    sink: &mut K,
    shelf: &mut V,
) -> u8
    requires { IsOpen server.old.store }
    ensures checked { CheckedBy server.old (cloud_call server.old.store.header.shape server.old.store.header.cloud
        (V.cloud_at shelf.old (number_of server.old)) (V.cloud_at shelf.new (number_of server.old))
        (V.faults shelf.old) (V.faults shelf.new))
        (input_of (S.left source.old) (S.faults source.old) (S.faults source.new))
        (output_of (K.written sink.old) (K.written sink.new) (K.faults sink.old) (K.faults sink.new)) result }
    ensures call { IsCall (V.cloud_at shelf.old) (V.cloud_at shelf.new) (number_of server.old)
        (V.faults shelf.old) (V.faults shelf.new) }
{
    match read_text(alloc, source) {
        Ok(text) => check_read(alloc, server, text.as_slice(), sink, shelf),
        Err(why) => write_unread(alloc, sink, why),
    }
}

/// Opens a cloud of a store of this shape in the rooms that its journal has, and begins nothing; reads the source to its end; sees
/// that it is a certificate, this cloud's, and has the lines that the cloud would write now; and reads each blob that they name. It
/// answers the status. `cloud` is below the shape's n.
///
/// | Status | Comes | Written |
/// |---|---|---|
/// | 0 | it is the cloud's own certificate, and each blob is there: the cloud is whole | `whole CLOUD COUNT` |
/// | 2 | it is no certificate, or has more than 134,217,728 bytes | `script LINE PLACE BYTE` |
/// | 3 | only where the source's count of faults rose | nothing |
/// | 4 | only where the sink's count of faults rose | a front of what was due |
/// | 5 | only where the cloud's count of faults rose | `shelf CLOUD` |
/// | 6 | memory ran out | nothing |
/// | 7 | the cloud isn't opened, as in an audit; the source isn't read | `notbegun ..`, `damaged ..`, `other ..` |
/// | 8 | it is another cloud's or shape's certificate | `refused othercloud` |
/// | 8 | a line isn't the cloud's own at that position, the first such | `refused differs LINE` |
/// | 8 | a listed blob isn't there, or a file's is no recipe or names what its user doesn't own | `refused rotten CLOUD NAMED FOUND` |
///
/// What is wrong with the text comes before any blob is read. LINE counts from 1, PLACE from 0; BYTE is the byte there in two
/// hexadecimal digits, or `end`. Of a text that is too long it is the first byte too many, and it isn't read on. A told cloud's
/// areas are synced, and read as before; the shelf's other clouds are as they were.
pub fn check_cloud<S: Source, K: Sink, V: Shelf>(
    alloc: Global,
    shape: Shape,
    cloud: CloudNo,
    source: &mut S,
    sink: &mut K,
    shelf: &mut V,
) -> u8
    requires cloud { cloud.0 < shape.n }
    ensures checked { IsCertificateChecked result (cloud_call shape cloud (V.cloud_at shelf.old cloud.0)
        (V.cloud_at shelf.new cloud.0) (V.faults shelf.old) (V.faults shelf.new)) (source.new ≡ source.old)
        (input_of (S.left source.old) (S.faults source.old) (S.faults source.new))
        (output_of (K.written sink.old) (K.written sink.new) (K.faults sink.old) (K.faults sink.new)) }
    ensures call { IsCall (V.cloud_at shelf.old) (V.cloud_at shelf.new) cloud.0
        (V.faults shelf.old) (V.faults shelf.new) }
{
    match open_cloud(alloc, shape, cloud, shelf) {
        Ok(server) => {
            let mut opened = server;
            check_opened(alloc, &mut opened, source, sink, shelf)
        }
        Err(why) => write_unopened(alloc, sink, cloud, why),
    }
}
