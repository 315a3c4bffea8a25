//! The generated session, from the check that its clouds are empty to its summary.

ghost use Rattle.std.specs.Prelude.{◌≡◌, ◌<◌, ◌≤◌, ◌*◌, ℕ, None};
ghost use Rattle.lane_steps.specs.CdEdges.Disk.{Cloud};
ghost use Rattle.replay_core.specs.JournalStart.Ranges.{usual_rooms};
ghost use Rattle.replay_core.specs.SessionModel.Vault.{Setting};
ghost use Rattle.replay_core.specs.Opening.{IsEmpty, before_first};
ghost use Rattle.replay_core.specs.Going.{IsReplayReady};
ghost use Rattle.generated_session.specs.Generates.{Generates, GoesWell, IsDone, session_call};
ghost use Rattle.generated_session.specs.Progress.{start_of};

use crate::carrying::{SessionBuffers, carry_all};
use crate::summary::{put_summary, write_summary};
use lane_steps::{Bytes, Shape, Shelf, Sink};
use replay_core::{
    LocalLink, ReplayEnd, Servers, UserRooms, empty_clouds, law_of_acknowledged, law_of_moments,
    law_of_no_commands, law_of_own_replies, open_clouds,
};
use std::alloc::Global;

// Opens the clouds, which read as nothing, carries the session out, and writes its summary.
fn carry_session<K: Sink, V: Shelf>(
    alloc: Global,
    seed: u64,
    files: u32,
    pieces: u32,
    sink: &mut K,
    link: &mut LocalLink<'_, V>,
) -> ReplayEnd
    requires files { files ≤ 1000 }
    requires pieces { pieces ≤ 8192 }
    requires shape { (link.old.servers.shape.n ≡ 4) × (link.old.servers.shape.k ≡ 3) }
    requires empty { (cloud : ℕ) → cloud < link.old.servers.shape.n → IsEmpty (V.cloud_at link.old.shelf.now cloud) }
    ensures generates { (begun : ℕ → Cloud) (s : Setting)
        → IsReplayReady V.cloud_at (start_of begun) s link.old before_first None 0 None 0
        → s.rooms ≡ usual_rooms
        → Generates result (record { seed = seed; files = files; pieces = pieces })
        (session_call (K.faults sink.old) (K.faults sink.new) (K.written sink.old) (K.written sink.new)
        begun (V.cloud_at link.new.shelf.now)) }
    ensures same_reference { link.new.shelf.ghost_name ≡ link.old.shelf.ghost_name }
{
    law_of_acknowledged();
    law_of_own_replies();
    law_of_moments();
    law_of_no_commands();
    let mut text = Bytes::new(alloc);
    let Ok(mut buffers) = SessionBuffers::make(alloc) else {
        return ReplayEnd::NoMemory;
    };
    match open_clouds(link) {
        Ok(()) => {}
        Err(end) => return end,
    }
    let Ok(numbers) = carry_all(alloc, seed, files, pieces, link, &mut buffers) else {
        return ReplayEnd::NoMemory;
    };
    let Ok(()) = put_summary(files, &numbers, &mut text) else {
        return ReplayEnd::NoMemory;
    };
    match write_summary(sink, text.as_slice()) {
        Ok(()) => ReplayEnd::Done {
            events: 3 * files as u64,
        },
        Err(end) => end,
    }
}

// The shape of the store.
fn four_clouds() -> Shape
    ensures { (result.n ≡ 4) × (result.k ≡ 3) }
{
    Shape { n: 4, k: 3 }
}

// Checks that the four clouds are empty, and makes the session over them.
fn make_session<K: Sink, V: Shelf>(
    alloc: Global,
    seed: u64,
    files: u32,
    pieces: u32,
    sink: &mut K,
    shelf: &mut V,
) -> ReplayEnd
    requires files { files ≤ 1000 }
    requires pieces { pieces ≤ 8192 }
    ensures { Generates result (record { seed = seed; files = files; pieces = pieces })
        (session_call (K.faults sink.old) (K.faults sink.new) (K.written sink.old) (K.written sink.new)
        (V.cloud_at shelf.old) (V.cloud_at shelf.new)) }
{
    law_of_acknowledged();
    law_of_own_replies();
    law_of_no_commands();
    let shape = four_clouds();
    match empty_clouds(shelf, shape) {
        Ok(()) => {}
        Err(end) => return end,
    }
    let Ok(servers) = Servers::make(alloc, shape, UserRooms::usual()) else {
        return ReplayEnd::NoMemory;
    };
    let mut link = LocalLink::of(alloc, shelf, servers);
    let end = carry_session(alloc, seed, files, pieces, sink, &mut link);
    let _shelf = link.release();
    end
}

/// Makes the generated session of the seed over four clouds of the shelf, which are to be empty, and writes its summary.
///
/// Each area of the four clouds is asked, in order, whether it is empty; the clouds are opened in order, in the usual rooms;
/// each file is uploaded and brought to its clouds, and then each is read from three of them. The lines and their answers
/// aren't written. With `Done` the six lines of the summary are; want of memory and a cloud that fails leave nothing, and a
/// sink that fails a front of the summary.
///
/// NotEmpty names the first area that isn't empty. Damaged comes only of a cloud of which nothing is told, and ShelfFault and
/// SinkFault only where that cloud's or the sink's count of faults rose. Where a told cloud isn't empty no cloud is opened, and
/// nothing is written to any. Whatever the end, there is a session of just the lines that were carried out, of which all holds
/// that holds of a replay.
pub fn generate<K: Sink, V: Shelf>(
    alloc: Global,
    seed: u64,
    files: u32,
    pieces: u32,
    sink: &mut K,
    shelf: &mut V,
) -> ReplayEnd
    requires files { (1 ≤ files) × (files ≤ 1000) }
    requires pieces { (1 ≤ pieces) × (pieces ≤ 8192) }
    requires size { files * pieces ≤ 131072 }
    ensures generates { Generates result (record { seed = seed; files = files; pieces = pieces })
        (session_call (K.faults sink.old) (K.faults sink.new) (K.written sink.old) (K.written sink.new)
        (V.cloud_at shelf.old) (V.cloud_at shelf.new)) }
    ensures complete { GoesWell
        (session_call (K.faults sink.old) (K.faults sink.new) (K.written sink.old) (K.written sink.new)
        (V.cloud_at shelf.old) (V.cloud_at shelf.new)) → IsDone result }
{
    make_session(alloc, seed, files, pieces, sink, shelf)
}
