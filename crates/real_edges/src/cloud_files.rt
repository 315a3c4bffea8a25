//! The files of one cloud, which stay open, and its lock.

ghost use Rattle.std.specs.Prelude.{◌≤◌, length, IfOk};

use cd_edges::{Area, CloudNo};
use std::fs::{File, OpenOptions};
use std::io::ErrorKind;
use std::os::unix::fs::FileExt;
use std::{fs, io};

/// The files of a cloud, each open from the moment at which it was found or made. Where there is none the area is empty.
///
/// The journal's file has the lock: while it is held, nobody else who asks for it has the cloud's files. The system lets go of it when
/// the file is closed, and so when the process ends, however it ends. Where there is no journal there is no lock, and so the journal
/// is made before anything is written.
#[derive(Drop)]
pub struct AreaFiles {
    folder: String,
    journal: Option<File>,
    shares: Option<File>,
    recipes: Option<File>,
    // Whether the names of the files were synced since the last one was made.
    named: bool,
}

// The name of a file of a cloud's folder.
fn name_of(rt: &HostRuntime, folder: &str, area: Area) -> io::Result<String> {
    let name = match area {
        Area::Journal => "journal",
        Area::Shares => "shares",
        Area::Recipes => "recipes",
    };
    Ok(format!(in rt.alloc(); "{folder}/{name}")?)
}

// Opens the file of an area, None where there is none. One that can't be written is opened to be read.
fn find(rt: &HostRuntime, folder: &str, area: Area) -> io::Result<Option<File>> {
    let name = name_of(rt, folder, area)?;
    match OpenOptions::new()
        .read(true)
        .write(true)
        .open(rt, name.as_str())
    {
        Ok(file) => Ok(Some(file)),
        Err(error) if error.kind() == ErrorKind::NotFound => Ok(None),
        Err(_) => Ok(Some(File::open(rt, name.as_str())?)),
    }
}

// The same of the journal, with the lock.
fn find_journal(rt: &HostRuntime, folder: &str) -> io::Result<Option<File>> {
    match find(rt, folder, Area::Journal)? {
        Some(file) => {
            file.try_lock()?;
            Ok(Some(file))
        }
        None => Ok(None),
    }
}

// Makes the file of an area. It fails where somebody made it since the cloud's files were opened.
fn make(rt: &HostRuntime, folder: &str, area: Area) -> io::Result<File> {
    let name = name_of(rt, folder, area)?;
    OpenOptions::new()
        .read(true)
        .write(true)
        .create_new(true)
        .open(rt, name.as_str())
}

// The same of the journal, with the lock.
fn make_journal(rt: &HostRuntime, folder: &str) -> io::Result<File> {
    let file = make(rt, folder, Area::Journal)?;
    file.try_lock()?;
    Ok(file)
}

fn sync_folder(rt: &HostRuntime, name: &str) -> io::Result<()> {
    File::open(rt, name)?.sync_all()
}

// Puts what the file has from a place in front of a buffer, as much as fits.
fn read_from(file: &File, at: u64, out: &mut [u8]) -> io::Result<usize>
    ensures { IfOk result (λ count. count ≤ length out.new) }
{
    let mut count = 0;
    while count < out.len() {
        match file.read_at(&mut out[count..], at.saturating_add(count as u64))? {
            0 => return Ok(count),
            more => count += more,
        }
    }
    Ok(count)
}

// Empties a file, and syncs it.
fn empty(file: Option<&File>) -> io::Result<()> {
    match file {
        Some(file) => {
            file.set_len(0)?;
            file.sync_all()
        }
        None => Ok(()),
    }
}

impl AreaFiles {
    /// Opens the files of a cloud that are there, and takes the lock. It changes nothing on the disk. It fails where the system refuses
    /// it, where somebody else has the lock, and for want of memory.
    pub fn open(rt: &HostRuntime, root: &str, cloud: CloudNo) -> io::Result<AreaFiles> {
        let number = cloud.0;
        let folder = format!(in rt.alloc(); "{root}/cloud{number}")?;
        let journal = find_journal(rt, folder.as_str())?;
        let shares = find(rt, folder.as_str(), Area::Shares)?;
        let recipes = find(rt, folder.as_str(), Area::Recipes)?;
        Ok(AreaFiles {
            folder,
            journal,
            shares,
            recipes,
            named: false,
        })
    }

    fn file(&self, area: Area) -> Option<&File> {
        match area {
            Area::Journal => self.journal.as_ref(),
            Area::Shares => self.shares.as_ref(),
            Area::Recipes => self.recipes.as_ref(),
        }
    }

    /// How many bytes an area has.
    pub fn len(&self, area: Area) -> io::Result<u64> {
        match self.file(area) {
            Some(file) => Ok(file.metadata()?.len()),
            None => Ok(0),
        }
    }

    /// Puts what an area has from a place in front of a buffer, as much as fits, and says how many bytes.
    pub fn read(&self, area: Area, at: u64, out: &mut [u8]) -> io::Result<usize>
        ensures { IfOk result (λ count. count ≤ length out.new) }
    {
        match self.file(area) {
            Some(file) => read_from(file, at, out),
            None => Ok(0),
        }
    }

    // Makes the file of an area where there is none, and that of the journal before it.
    fn make(&mut self, rt: &HostRuntime, area: Area) -> io::Result<()> {
        self.named = false;
        fs::create_dir_all(rt, self.folder.as_str())?;
        if self.journal.is_none() {
            self.journal = Some(make_journal(rt, self.folder.as_str())?);
        }
        if self.file(area).is_none() {
            let file = make(rt, self.folder.as_str(), area)?;
            match area {
                Area::Journal => self.journal = Some(file),
                Area::Shares => self.shares = Some(file),
                Area::Recipes => self.recipes = Some(file),
            }
        }
        Ok(())
    }

    /// Puts bytes at a place of an area. The system fills a gap before it with zeros. The first write makes the file.
    pub fn write(&mut self, rt: &HostRuntime, area: Area, at: u64, bytes: &[u8]) -> io::Result<()> {
        if self.journal.is_none() || self.file(area).is_none() {
            self.make(rt, area)?;
        }
        match self.file(area) {
            Some(file) => file.write_all_at(bytes, at),
            None => Err(io::Error::from(ErrorKind::NotFound)),
        }
    }

    /// Syncs an area that has a file, and the two folders that hold it, the first time and where a file was made since.
    pub fn sync(&mut self, rt: &HostRuntime, root: &str, area: Area) -> io::Result<()> {
        let Some(file) = self.file(area) else {
            return Ok(());
        };
        file.sync_all()?;
        if !self.named {
            sync_folder(rt, self.folder.as_str())?;
            sync_folder(rt, root)?;
            self.named = true;
        }
        Ok(())
    }

    /// Makes the areas empty, the journal first: a cloud without one isn't begun, whatever the other two hold.
    pub fn empty(&self) -> io::Result<()> {
        empty(self.file(Area::Journal))?;
        empty(self.file(Area::Shares))?;
        empty(self.file(Area::Recipes))
    }
}
