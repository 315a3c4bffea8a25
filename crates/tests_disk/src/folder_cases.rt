//! A shelf in a folder of the system.

use cd_base::CloudNo;
use cd_edges::{Area, Failed, Shelf};
use real_edges::DirShelf;
use std::test::Fail;
use std::{env, fs, process};

const TWO: CloudNo = CloudNo(2);

// A call on a shelf, and what has to come of it.
#[derive(Clone, Copy)]
enum Step {
    // An area of the cloud of this number has so many bytes, or the call fails.
    Len(u8, Area, Option<u64>),
    // A read gives so many bytes, with nines behind them.
    Read(Area, u64, usize, [u8; 2]),
    Write(Area, u64, [u8; 2], bool),
    Sync(Area, bool),
    Fresh(bool),
    Arm(u32, u32),
}

fn len(shelf: &mut DirShelf, cloud: u8, area: Area) -> Option<u64> {
    shelf.len(CloudNo(cloud), area).ok()
}

fn is_read(shelf: &mut DirShelf, area: Area, at: u64, count: usize, bytes: [u8; 2]) -> bool {
    let mut out = [9; 2];
    shelf.read(TWO, area, at, &mut out) == Ok(count) && out == bytes
}

fn is_written(shelf: &mut DirShelf, area: Area, at: u64, bytes: [u8; 2]) -> bool {
    shelf.write(TWO, area, at, &bytes).is_ok()
}

fn is_synced(shelf: &mut DirShelf, area: Area) -> bool {
    shelf.sync(TWO, area).is_ok()
}

fn is_fresh(shelf: &mut DirShelf) -> bool {
    shelf.fresh(TWO).is_ok()
}

fn arm(shelf: &mut DirShelf, calls: u32, keep: u32) -> bool {
    shelf.arm(TWO, calls, keep);
    true
}

// Whether a step comes out so.
fn does(shelf: &mut DirShelf, step: Step) -> bool {
    match step {
        Step::Len(cloud, area, wanted) => len(shelf, cloud, area) == wanted,
        Step::Read(area, at, count, bytes) => is_read(shelf, area, at, count, bytes),
        Step::Write(area, at, bytes, passes) => is_written(shelf, area, at, bytes) == passes,
        Step::Sync(area, passes) => is_synced(shelf, area) == passes,
        Step::Fresh(passes) => is_fresh(shelf) == passes,
        Step::Arm(calls, keep) => arm(shelf, calls, keep),
    }
}

// Whether all steps come out so.
fn plays(shelf: &mut DirShelf, steps: &[Step]) -> bool {
    let mut well = true;
    for step in steps {
        well = does(shelf, *step) && well;
    }
    well
}

fn is_rooted(shelf: &mut DirShelf, name: &str) -> bool {
    shelf.root(name).is_ok()
}

// A name of this process that nothing has yet, for this test.
fn folder_of(rt: HostRuntime, test: &str) -> Result<String, Fail> {
    let parent = env::temp_dir(&rt)?;
    let id = process::id(rt.process());
    Ok(format!(in rt.alloc(); "{}/cdstore-{test}-{id}", parent.as_str())?)
}

static KEPT: [Step; 17] = [
    Step::Sync(Area::Shares, true),
    Step::Read(Area::Shares, 0, 0, [9, 9]),
    // with a gap of zeros
    Step::Write(Area::Shares, 2, [1, 2], true),
    Step::Sync(Area::Shares, true),
    Step::Len(2, Area::Shares, Some(4)),
    Step::Read(Area::Shares, 1, 2, [0, 1]),
    Step::Read(Area::Shares, 3, 1, [2, 9]),
    Step::Read(Area::Shares, 4, 0, [9, 9]),
    Step::Read(Area::Shares, 6, 0, [9, 9]),
    // of a cut write the first bytes are put
    Step::Arm(2, 1),
    Step::Sync(Area::Journal, true),
    Step::Write(Area::Journal, 0, [7, 8], false),
    Step::Len(2, Area::Journal, Some(1)),
    Step::Read(Area::Journal, 0, 1, [7, 9]),
    Step::Fresh(true),
    Step::Len(2, Area::Shares, Some(0)),
    Step::Len(2, Area::Journal, Some(0)),
];

#[test]
fn a_folder_keeps_what_was_written(rt: HostRuntime) -> Result<(), Fail> {
    let name = folder_of(rt, "kept")?;
    let mut shelf = DirShelf::new(rt);
    let unrooted = plays(&mut shelf, &[Step::Len(2, Area::Shares, None)]);
    let rooted = is_rooted(&mut shelf, name.as_str());
    let kept = plays(&mut shelf, &KEPT);
    drop(shelf);
    let removed = fs::remove_dir_all(&rt, name.as_str()).is_ok();
    assert!(rt; unrooted && rooted && kept && removed);
    Ok(())
}

static SECOND: [Step; 5] = [
    Step::Len(2, Area::Shares, None),
    Step::Write(Area::Journal, 0, [4, 4], false),
    Step::Sync(Area::Journal, false),
    Step::Fresh(false),
    Step::Len(1, Area::Journal, Some(0)),
];

// Whether the first shelf alone has the cloud, and the late one, which found no file, doesn't make one when the first has.
fn is_alone(name: &str, first: &mut DirShelf, late: &mut DirShelf, second: &mut DirShelf) -> bool {
    let one = is_rooted(first, name) && is_rooted(late, name) && is_rooted(second, name);
    let none = plays(late, &[Step::Len(2, Area::Journal, Some(0))]);
    let made = plays(first, &[Step::Write(Area::Journal, 0, [1, 2], true)]);
    let refused = plays(late, &[Step::Write(Area::Shares, 0, [3, 3], false)]);
    let others = plays(second, &SECOND);
    let stays = plays(
        first,
        &[
            Step::Read(Area::Journal, 0, 2, [1, 2]),
            Step::Len(2, Area::Shares, Some(0)),
        ],
    );
    one && none && made && refused && others && stays
}

#[test]
fn a_cloud_has_one_shelf(rt: HostRuntime) -> Result<(), Fail> {
    let name = folder_of(rt, "one")?;
    let mut first = DirShelf::new(rt);
    let mut late = DirShelf::new(rt);
    let mut second = DirShelf::new(rt);
    let alone = is_alone(name.as_str(), &mut first, &mut late, &mut second);
    drop(first);
    let free = plays(&mut second, &[Step::Read(Area::Journal, 0, 2, [1, 2])]);
    drop(late);
    drop(second);
    let removed = fs::remove_dir_all(&rt, name.as_str()).is_ok();
    assert!(rt; alone && free && removed);
    Ok(())
}

// Writes and syncs the first bytes, and others behind the first one where no call asks for a name any more.
static NAMED: [Step; 2] = [
    Step::Write(Area::Journal, 0, [1, 2], true),
    Step::Sync(Area::Journal, true),
];

static UNNAMED: [Step; 4] = [
    Step::Write(Area::Journal, 1, [3, 4], true),
    Step::Sync(Area::Journal, true),
    Step::Read(Area::Journal, 0, 2, [1, 3]),
    Step::Len(2, Area::Journal, Some(3)),
];

static AFRESH: [Step; 4] = [
    Step::Fresh(true),
    Step::Read(Area::Journal, 0, 0, [9, 9]),
    Step::Write(Area::Journal, 0, [5, 6], true),
    Step::Read(Area::Journal, 0, 2, [5, 6]),
];

// The name of a cloud's folder, and one beside it.
fn names_in(rt: HostRuntime, name: &str) -> Result<(String, String), Fail> {
    let here = format!(in rt.alloc(); "{name}/cloud2")?;
    let away = format!(in rt.alloc(); "{name}/away")?;
    Ok((here, away))
}

fn is_moved(rt: HostRuntime, from: &str, to: &str) -> bool {
    fs::rename(&rt, from, to).is_ok()
}

// Whether the files stay open while their folder has another name, and are opened anew behind `fresh`.
fn stay_open(rt: HostRuntime, shelf: &mut DirShelf, here: &str, away: &str) -> bool {
    let named = plays(shelf, &NAMED);
    let moved = is_moved(rt, here, away);
    let unnamed = plays(shelf, &UNNAMED);
    let back = is_moved(rt, away, here);
    named && moved && unnamed && back && plays(shelf, &AFRESH)
}

// Whether the next root is another place, and another shelf then has the first one.
fn are_left(shelf: &mut DirShelf, second: &mut DirShelf, name: &str, away: &str) -> bool {
    let elsewhere = is_rooted(shelf, away)
        && plays(shelf, &[Step::Read(Area::Journal, 0, 0, [9, 9])]);
    let there = is_rooted(second, name)
        && plays(second, &[Step::Read(Area::Journal, 0, 2, [5, 6])]);
    elsewhere && there
}

#[test]
fn files_stay_open_until_fresh(rt: HostRuntime) -> Result<(), Fail> {
    let name = folder_of(rt, "open")?;
    let (here, away) = names_in(rt, name.as_str())?;
    let mut shelf = DirShelf::new(rt);
    let mut second = DirShelf::new(rt);
    let rooted = is_rooted(&mut shelf, name.as_str());
    let open = stay_open(rt, &mut shelf, here.as_str(), away.as_str());
    let left = are_left(&mut shelf, &mut second, name.as_str(), away.as_str());
    drop(shelf);
    drop(second);
    let removed = fs::remove_dir_all(&rt, name.as_str()).is_ok();
    assert!(rt; rooted && open && left && removed);
    Ok(())
}
