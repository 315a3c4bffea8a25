//! Clouds that lie in a folder: one for each cloud, with a file for each area.

ghost use Rattle.std.specs.Prelude.{◌≡◌, ◌≢◌, refl, ℕ, ◌+◌, ◌-◌, ◌^◌, ◌≤◌, ◌<◌, min, slice_index, slice_set, length, IfOk, OnOk, OnErr, IsErr};
ghost use Rattle.cd_edges.specs.Shelf.{IsCall, HasFailed};
ghost use Rattle.real_edges.specs.Untold.{cloud_of, untold_is_not};

use crate::Tally;
use crate::cloud_files::AreaFiles;
use cd_edges::{Area, CloudNo, Failed, Shelf};
use std::io::ErrorKind;
use std::{fs, io};

/// Clouds that lie in a folder, cloud c in the folder `cloudC` there (C in decimal) in files `journal`, `shares` and `recipes`. An area
/// whose file isn't there is empty; the first write makes it, and the next sync of the cloud makes its name certain too.
///
/// The first call to a cloud opens its files and locks its journal, and they stay open until `fresh` or the next `root`. So one process
/// has a cloud at a time: the call fails where another has it, and changes nothing then; the next call tries again.
///
/// It tells nothing of what the files hold. Each call that fails is counted: where the system refuses it, where another process has the
/// cloud, where memory runs out, where `arm` has cut it, and before the first `root` that answered Ok.
#[derive(Drop)]
pub struct DirShelf {
    rt: HostRuntime,
    root: Option<Root>,
    tally: Tally,
    // How many writes and syncs of each cloud are left up to the one that is cut, none where no one is, and what a cut write keeps.
    calls: [u32; 256],
    keep: [u32; 256],
}

// The folder that was named, and the files of the clouds that were called, by their numbers.
#[derive(Drop)]
struct Root {
    name: String,
    clouds: Vec<Option<AreaFiles>>,
}

impl Root {
    // Makes the folder with its parents. No cloud was called yet.
    fn make(rt: &HostRuntime, name: &str) -> io::Result<Root> {
        fs::create_dir_all(rt, name)?;
        let mut clouds = Vec::new(rt.alloc());
        for _ in 0..256 {
            clouds.push(None)?;
        }
        Ok(Root {
            name: String::from_str(rt.alloc(), name)?,
            clouds,
        })
    }

    // The files of a cloud, which the first call opens, and the folder's name.
    fn enter(&mut self, rt: &HostRuntime, cloud: CloudNo) -> io::Result<(&mut AreaFiles, &str)> {
        let name = self.name.as_str();
        let Some(place) = self.clouds.get_mut(cloud.0 as usize) else {
            return Err(io::Error::from(ErrorKind::NotFound));
        };
        if place.is_none() {
            *place = Some(AreaFiles::open(rt, name, cloud)?);
        }
        match place {
            Some(files) => Ok((files, name)),
            None => Err(io::Error::from(ErrorKind::NotFound)),
        }
    }

    // Makes a cloud's areas empty, and closes its files.
    fn empty(&mut self, rt: &HostRuntime, cloud: CloudNo) -> io::Result<()> {
        let (files, _) = self.enter(rt, cloud)?;
        files.empty()?;
        if let Some(place) = self.clouds.get_mut(cloud.0 as usize) {
            *place = None;
        }
        Ok(())
    }
}

// The folder that was named.
fn named(root: &mut Option<Root>) -> io::Result<&mut Root> {
    match root {
        Some(root) => Ok(root),
        None => Err(io::Error::from(ErrorKind::InvalidInput)),
    }
}

impl DirShelf {
    /// Clouds for which no folder is named yet.
    pub fn new(rt: HostRuntime) -> DirShelf {
        DirShelf {
            rt,
            root: None,
            tally: Tally::new(),
            calls: [0; 256],
            keep: [0; 256],
        }
    }

    fn try_root(&mut self, name: &str) -> io::Result<()>
        ensures { self.new.tally ≡ self.old.tally }
    {
        self.root = Some(Root::make(&self.rt, name)?);
        Ok(())
    }

    fn try_len(&mut self, cloud: CloudNo, area: Area) -> io::Result<u64>
        ensures { self.new.tally ≡ self.old.tally }
    {
        let (files, _) = named(&mut self.root)?.enter(&self.rt, cloud)?;
        files.len(area)
    }

    fn try_read(&mut self, cloud: CloudNo, area: Area, at: u64, out: &mut [u8]) -> io::Result<usize>
        ensures tally { self.new.tally ≡ self.old.tally }
        ensures bound { IfOk result (λ count. count ≤ length out.new) }
    {
        let (files, _) = named(&mut self.root)?.enter(&self.rt, cloud)?;
        files.read(area, at, out)
    }

    fn try_write(&mut self, cloud: CloudNo, area: Area, at: u64, bytes: &[u8]) -> io::Result<()>
        ensures { self.new.tally ≡ self.old.tally }
    {
        let (files, _) = named(&mut self.root)?.enter(&self.rt, cloud)?;
        files.write(&self.rt, area, at, bytes)
    }

    fn try_sync(&mut self, cloud: CloudNo, area: Area) -> io::Result<()>
        ensures { self.new.tally ≡ self.old.tally }
    {
        let (files, name) = named(&mut self.root)?.enter(&self.rt, cloud)?;
        files.sync(&self.rt, name, area)
    }

    fn try_fresh(&mut self, cloud: CloudNo) -> io::Result<()>
        ensures { self.new.tally ≡ self.old.tally }
    {
        named(&mut self.root)?.empty(&self.rt, cloud)
    }

    // Counts a fault where there is one.
    fn answer<T>(&mut self, cloud: CloudNo, outcome: io::Result<T>) -> Result<T, Failed>
        ensures call { IsCall (cloud_of self.old.tally) (cloud_of self.new.tally) cloud.0
            self.old.tally.total self.new.tally.total }
        ensures failed { OnErr outcome
            (HasFailed (cloud_of self.old.tally cloud.0) (cloud_of self.new.tally cloud.0)
            self.old.tally.total self.new.tally.total) }
        ensures same { OnOk outcome (self.new.tally ≡ self.old.tally) }
        ensures value { IfOk outcome (λ value. result ≡ Ok value) }
        ensures refused { OnErr outcome (IsErr result) }
    {
        match outcome {
            Ok(value) => Ok(value),
            Err(_) => self.refuse(cloud),
        }
    }

    // Counts a fault of the cloud.
    fn refuse<T>(&mut self, cloud: CloudNo) -> Result<T, Failed>
        ensures call { IsCall (cloud_of self.old.tally) (cloud_of self.new.tally) cloud.0
            self.old.tally.total self.new.tally.total }
        ensures failed { HasFailed (cloud_of self.old.tally cloud.0) (cloud_of self.new.tally cloud.0)
            self.old.tally.total self.new.tally.total }
        ensures refused { IsErr result }
    {
        self.tally.count_fault(cloud);
        Err(Failed)
    }

    // Counts a write or a sync down, and says whether it is the one that is cut.
    fn is_cut(&mut self, cloud: CloudNo) -> bool
        ensures { self.new.tally ≡ self.old.tally }
    {
        let place = cloud.0 as usize;
        let left = self.calls[place];
        self.calls[place] = left.saturating_sub(1);
        left == 1
    }
}

impl Shelf for DirShelf {
    ghost cloud_at = { λ s number. cloud_of s.tally number };

    ghost faults = { λ s. s.tally.total };

    ghost reads_image = { λ s number told. absurd (untold_is_not (cloud_of s.tally number) refl told) };

    fn root(&mut self, name: &str) -> Result<(), Failed> {
        match self.try_root(name) {
            Ok(()) => Ok(()),
            Err(_) => {
                self.tally.count_in_all();
                Err(Failed)
            }
        }
    }

    fn len(&mut self, cloud: CloudNo, area: Area) -> Result<u64, Failed> {
        let outcome = self.try_len(cloud, area);
        self.answer(cloud, outcome)
    }

    fn read(
        &mut self,
        cloud: CloudNo,
        area: Area,
        at: u64,
        out: &mut [u8],
    ) -> Result<usize, Failed> {
        let outcome = self.try_read(cloud, area, at, out);
        self.answer(cloud, outcome)
    }

    fn write(&mut self, cloud: CloudNo, area: Area, at: u64, bytes: &[u8]) -> Result<(), Failed> {
        if self.is_cut(cloud) {
            let keep = bytes.len().min(self.keep[cloud.0 as usize] as usize);
            let _ = self.try_write(cloud, area, at, &bytes[..keep]);
            return self.refuse(cloud);
        }
        let outcome = self.try_write(cloud, area, at, bytes);
        self.answer(cloud, outcome)
    }

    fn sync(&mut self, cloud: CloudNo, area: Area) -> Result<(), Failed> {
        if self.is_cut(cloud) {
            return self.refuse(cloud);
        }
        let outcome = self.try_sync(cloud, area);
        self.answer(cloud, outcome)
    }

    fn fresh(&mut self, cloud: CloudNo) -> Result<(), Failed> {
        let outcome = self.try_fresh(cloud);
        if outcome.is_ok() {
            self.calls[cloud.0 as usize] = 0;
        }
        self.answer(cloud, outcome)
    }

    fn arm(&mut self, cloud: CloudNo, calls: u32, keep: u32) {
        let place = cloud.0 as usize;
        if self.tally.armings[place] < u64::MAX {
            self.calls[place] = calls;
            self.keep[place] = keep;
        }
        self.tally.count_arming(cloud);
    }
}
