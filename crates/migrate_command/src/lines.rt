//! What is written, with the status.

ghost use Rattle.std.specs.Prelude.{◌≡◌, ◌++◌, OnOk};
ghost use Rattle.command_cloud.specs.BackupCommand.Writing.{HasWrittenOrCause, output_of};
ghost use Rattle.command_cloud.specs.Transcript.Endings.{ending_text};
ghost use Rattle.command_cloud.specs.Transcript.Transcript.{room_word};
ghost use Rattle.migrate_command.specs.Said.{already_text, large_text, migrate_status, migrate_text, migrated_text, old_text};

use command_cloud::Word::Number;
use command_cloud::{Ending, put_first, write_ending, write_text};
use std::alloc::Global;
use store_migration::{Bytes, CloudNo, MigrateErr, NoMemory, OldErr, Room, Sink, UserId};

// Appends the line of a cloud that is migrated. For want of memory a part of it may stand there.
#[tactic(auto, using(transcript::proofs::Joined::joined))]
fn put_migrated(cloud: CloudNo, commands: u64, out: &mut Bytes) -> Result<(), NoMemory>
    ensures { OnOk result (out.new ≡ out.old ++ migrated_text cloud commands) }
{
    put_first(
        b"migrated",
        &[Number(cloud.0 as u64), Number(commands)],
        out,
    )?;
    out.push(b'\n')
}

// Appends the line of a cloud that is in format 2. For want of memory a part of it may stand there.
#[tactic(auto, using(transcript::proofs::Joined::joined))]
fn put_already(cloud: CloudNo, out: &mut Bytes) -> Result<(), NoMemory>
    ensures { OnOk result (out.new ≡ out.old ++ already_text cloud) }
{
    put_first(b"refused already", &[Number(cloud.0 as u64)], out)?;
    out.push(b'\n')
}

// The word of a room.
fn name_of(room: Room) -> &'static [u8]
    ensures { result.now ≡ room_word room }
{
    match room {
        Room::Shares => b"shares",
        Room::Recipes => b"recipes",
        Room::Journal => b"journal",
        Room::Fps => b"fps",
        Room::Owners => b"owners",
        Room::Files => b"files",
    }
}

// Appends the line of a user that keeps too much. For want of memory a part of it may stand there.
fn put_large(
    user: UserId,
    room: Room,
    used: u64,
    limit: u64,
    out: &mut Bytes,
) -> Result<(), NoMemory>
    ensures { OnOk result (out.new ≡ out.old ++ large_text user room used limit) }
{
    put_first(b"refused toolarge", &[Number(user.0 as u64)], out)?;
    out.push(b' ')?;
    put_first(name_of(room), &[Number(used), Number(limit)], out)?;
    out.push(b'\n')
}

// The last line of a cloud that can't be opened as one of format 1.
fn ending_of(cloud: CloudNo, error: OldErr) -> Ending
    ensures { ending_text result ≡ old_text cloud error }
{
    match error {
        OldErr::NotBegun { len } => Ending::NotBegun { cloud, len },
        OldErr::Damaged { at, byte } => Ending::Damaged { cloud, at, byte },
        OldErr::OtherStore { found, .. } => Ending::Other {
            cloud,
            format: found.format,
            n: found.shape.n,
            k: found.shape.k,
            own: found.cloud,
        },
        OldErr::RoomsTooSmall { room, limit, .. } => Ending::Rooms { cloud, room, limit },
    }
}

// The status of a migration.
fn status_of(came: Result<u64, MigrateErr>) -> u8
    ensures { result ≡ migrate_status came }
{
    match came {
        Ok(_) => 0,
        Err(MigrateErr::Open(_)) => 7,
        Err(MigrateErr::Already) => 8,
        Err(MigrateErr::TooLarge { .. }) => 8,
        Err(MigrateErr::Fault) => 5,
        Err(MigrateErr::NoMemory) => 6,
    }
}

// Appends the line of what came of a migration.
fn put_came(cloud: CloudNo, came: Result<u64, MigrateErr>, out: &mut Bytes) -> Result<(), NoMemory>
    ensures { OnOk result (out.new ≡ out.old ++ migrate_text cloud came) }
{
    match came {
        Ok(commands) => put_migrated(cloud, commands, out),
        Err(MigrateErr::Open(error)) => write_ending(&ending_of(cloud, error), out),
        Err(MigrateErr::Already) => put_already(cloud, out),
        Err(
            MigrateErr::TooLarge {
                user,
                room,
                used,
                limit,
            },
        ) => put_large(user, room, used, limit, out),
        Err(MigrateErr::Fault) => write_ending(&Ending::Shelf { cloud }, out),
        Err(MigrateErr::NoMemory) => Ok(()),
    }
}

/// Writes what came of a migration, and answers the status.
pub fn write_migrated<K: Sink>(
    alloc: Global,
    sink: &mut K,
    cloud: CloudNo,
    came: Result<u64, MigrateErr>,
) -> u8
    ensures { HasWrittenOrCause (migrate_text cloud came) (migrate_status came)
        (output_of (K.written sink.old) (K.written sink.new) (K.faults sink.old) (K.faults sink.new)) result }
{
    let mut line = Bytes::new(alloc);
    match put_came(cloud, came, &mut line) {
        Ok(()) => write_text(sink, line.as_slice(), status_of(came)),
        Err(NoMemory) => 6,
    }
}
