//! A file from a source.

ghost use Rattle.std.specs.Prelude.{◌≤◌, length, IfOk};
ghost use Rattle.lane_steps.specs.Recipe.Spelling.{file_limit};
ghost use Rattle.backup_command.specs.Reading.{ReadsBackupFile, input_of};

use lane_steps::FileBytes;
use std::alloc::Global;
use transcript::{FILE_LIMIT, Failed, NoMemory, Source};

/// Why no file was read.
#[derive(Clone, Copy)]
pub enum FileReadErr {
    /// The source failed.
    Failed,
    /// There are more bytes than a file may have; the first byte too many.
    TooLong { byte: u8 },
    /// Memory ran out.
    NoMemory,
}

// How many bytes are read at a time.
const PIECE: usize = 65_536;

/// Reads a source to its end. `TooLong` comes exactly where it has more bytes than a file may have.
pub fn read_file<S: Source>(alloc: Global, source: &mut S) -> Result<FileBytes, FileReadErr>
    ensures reads { ReadsBackupFile (input_of (S.left source.old) (S.faults source.old) (S.faults source.new)) result }
{
    let mut file = FileBytes::new(alloc);
    let mut piece = [0; PIECE];
    'pieces: loop {
        let count = match source.read(&mut piece) {
            Ok(count) => count,
            Err(Failed) => return Err(FileReadErr::Failed),
        };
        if count == 0 {
            return Ok(file);
        }
        let room = FILE_LIMIT - file.len();
        if room < count {
            return Err(FileReadErr::TooLong { byte: piece[room] });
        }
        match file.extend(&piece[..count]) {
            Ok(()) => {}
            Err(NoMemory) => return Err(FileReadErr::NoMemory),
        }
    }
}
