//! Reading a version of a file.

ghost use Rattle.std.specs.Prelude.{◌≡◌, ◌<◌, ◌≤◌, ℕ, List, [], length, All, IsTrue, IfOk, IfErr, vec_len};
ghost use Rattle.commit_journal.specs.JournalHalves.Records.{window_len};
ghost use Rattle.commit_journal.specs.JournalStart.rooms.UserRooms.{UserRooms};
ghost use Rattle.commit_journal.specs.CdBase.Limits.{IsPath};
ghost use Rattle.cloud_areas.specs.UserDedup.command.Command.{Command};
ghost use Rattle.local_link.specs.declared.fate.Fate.TheVariants.{Deliver};
ghost use Rattle.read_command.specs.Disks.{AreReadable, IsSpared, KeepsDisks};
ghost use Rattle.read_command.specs.Opening.{EndsOpening, IsFailedOrNoMemory};
ghost use Rattle.kept_files.specs.Kept.{key_of};
ghost use Rattle.read_command.specs.declared.end.ReadEnd.TheVariants.{Refused};
ghost use Rattle.read_command.specs.Ends.{CountsSink, GivesAnyway, EndsRead, Restored};

use crate::opening::open_clouds;
use crate::writing::write_came;
use crate::{ReadEnd, Wanted};
use cloud_areas::laws::law_of_headers;
use commit_journal::{Bytes, NoMemory, Shelf, Sink, UserRooms, WINDOW};
use local_link::{LocalLink, Servers, law_of_readings};
use std::alloc::Global;
use subset_restore::{RestoreErr, restore_any};

// A window for what a journal's halves begin with.
fn taken(alloc: Global) -> Result<Vec<u8>, NoMemory>
    ensures { IfOk result (λ window. vec_len window ≡ window_len) }
{
    Ok(vec![in alloc; 0u8; WINDOW]?)
}

// Opens the named clouds, and restores from them.
fn restore_opened<V: Shelf>(
    alloc: Global,
    link: &mut LocalLink<'_, V>,
    wanted: &Wanted<'_>,
    window: &mut [u8],
    file: &mut Bytes,
) -> Result<Result<(), RestoreErr>, ReadEnd>
    requires shape { link.old.servers.shape ≡ wanted.now.shape }
    requires window { length window.old ≡ window_len }
    requires fate { link.old.fate ≡ Deliver }
    requires empty { file.old ≡ [] }
    requires path { IsPath wanted.now.path.now }
    requires count { wanted.now.shape.k ≤ length wanted.now.clouds.now }
    requires within { All (λ cloud. cloud < wanted.now.shape.n) wanted.now.clouds.now }
    ensures end { IfErr result (EndsOpening wanted.now.shape wanted.now.clouds.now (V.cloud_at link.old.shelf.now)
        (V.cloud_at link.new.shelf.now) (V.faults link.old.shelf.now) (V.faults link.new.shelf.now)) }
    ensures spared { (cloud : ℕ) → IsTrue (V.cloud_at link.old.shelf.now cloud).told
        → IsSpared (V.cloud_at link.old.shelf.now cloud) (V.cloud_at link.new.shelf.now cloud) }
    ensures free { (rooms : ℕ → UserRooms) (lists : ℕ → List Command)
        → AreReadable wanted.now.shape wanted.now.clouds.now (V.cloud_at link.old.shelf.now) rooms lists
        → IfErr result IsFailedOrNoMemory }
    ensures came { IfOk result (λ came. Restored (record {
      total_before = V.faults link.old.shelf.now;
      total_after = V.faults link.new.shelf.now;
      old = V.cloud_at link.old.shelf.now;
      new = V.cloud_at link.new.shelf.now;
    }) wanted.now came file.new) }
    ensures kept { KeepsDisks wanted.now.shape wanted.now.clouds.now (V.cloud_at link.old.shelf.now)
        (V.cloud_at link.new.shelf.now) }
    ensures armings { (cloud : ℕ) → (V.cloud_at link.new.shelf.now cloud).armings
        ≡ (V.cloud_at link.old.shelf.now cloud).armings }
    ensures same_reference { link.new.shelf.ghost_name ≡ link.old.shelf.ghost_name }
{
    wanted.clouds.rises();
    law_of_headers();
    law_of_readings::<V>();
    match open_clouds(link, wanted.clouds.as_slice(), window) {
        Ok(()) => {}
        Err(end) => return Err(end),
    }
    Ok(restore_any(
        alloc,
        link,
        wanted.shape,
        wanted.user,
        wanted.path,
        wanted.version,
        wanted.clouds,
        file,
    ))
}

/// Reads a version of a file from the named clouds' disks, whatever was remembered before, and writes its bytes.
///
/// The clouds are opened in order, each in the rooms that its journal names, and nothing is begun; then the version is
/// restored from any k of them, as `subset_restore::restore_any` does it. No other cloud is touched.
///
/// Done: the sink has the file's bytes. Refused: the sink has the line that says why there is no file. NotBegun,
/// Damaged and Other: so it is at the cloud, the first in order that doesn't open; nothing was written.
/// ShelfFault: the cloud's device failed as it was opened, and its count rose; nothing was written. SinkFault: the
/// sink's count rose; it has a front of what was due. NoMemory: nothing was written.
pub fn read_file<K: Sink, V: Shelf>(
    alloc: Global,
    wanted: &Wanted<'_>,
    sink: &mut K,
    shelf: &mut V,
) -> ReadEnd
    requires path { IsPath wanted.now.path.now }
    requires count { wanted.now.shape.k ≤ length wanted.now.clouds.now }
    requires within { All (λ cloud. cloud < wanted.now.shape.n) wanted.now.clouds.now }

    // What was written belongs to the end. Over named clouds that are told, begun, and stand for lists within their
    // rooms it is the file that any k of these lists give, or their refusal, or the failed device of one of
    // the first k; or a front of these.
    ensures reads { EndsRead (record {
      total_before = V.faults shelf.old;
      total_after = V.faults shelf.new;
      old = V.cloud_at shelf.old;
      new = V.cloud_at shelf.new;
    }) wanted.now result (K.written sink.old) (K.written sink.new) }

    // Where the clouds of some choice of k are readable and their lists give the file, and no count of theirs rose, it
    // isn't refused, whatever the other named clouds are.
    ensures anyway { GivesAnyway (record {
      total_before = V.faults shelf.old;
      total_after = V.faults shelf.new;
      old = V.cloud_at shelf.old;
      new = V.cloud_at shelf.new;
    }) wanted.now.shape wanted.now.user (key_of wanted.now.shape wanted.now.path.now wanted.now.version)
        wanted.now.clouds.now (result ≡ Refused) }
    ensures counts { CountsSink (K.faults sink.old) (K.faults sink.new) result }

    // Each image since then of a named cloud stands for one of the lists that its images stood for, where these are
    // within its rooms; the others are as they were.
    ensures kept { KeepsDisks wanted.now.shape wanted.now.clouds.now (V.cloud_at shelf.old) (V.cloud_at shelf.new) }

    // Each told cloud is spared, whatever its areas hold and whatever the end is.
    ensures areas { (cloud : ℕ) → IsTrue (V.cloud_at shelf.old cloud).told
        → IsSpared (V.cloud_at shelf.old cloud) (V.cloud_at shelf.new cloud) }

    // No cloud is armed, whatever the end is.
    ensures armings { (cloud : ℕ) → (V.cloud_at shelf.new cloud).armings ≡ (V.cloud_at shelf.old cloud).armings }
{
    let Ok(mut window) = taken(alloc) else {
        return ReadEnd::NoMemory;
    };
    let Ok(servers) = Servers::make(alloc, wanted.shape, UserRooms::least()) else {
        return ReadEnd::NoMemory;
    };
    let mut file = Bytes::new(alloc);
    let mut link = LocalLink::of(alloc, shelf, servers);
    let came = restore_opened(alloc, &mut link, wanted, window.as_mut_slice(), &mut file);
    let _shelf = link.release();
    match came {
        Ok(came) => write_came(alloc, sink, came, file.as_slice()),
        Err(end) => end,
    }
}
