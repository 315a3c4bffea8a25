//! Restoring from clouds that were greeted.

ghost use Rattle.std.specs.Prelude.{◌≡◌, ◌≤◌, ℕ, [], ◌∷◌, true, IsTrue, IfOk, IfErr, MatchOption};
ghost use Rattle.std.specs.List.{Contains};
ghost use Rattle.std.specs.List.Sorted.{IsStrictlyIncreasing};
ghost use Rattle.ports_link.specs.CdBase.Limits.{IsPath};
ghost use Rattle.ports_link.specs.CdEdges.Causes.{Rose};
ghost use Rattle.ports_link.specs.declared.judging.AskedClouds.TheVariants as asked;
ghost use Rattle.ports_link.specs.Hellos.{AreCloudsReached, HasClouds, HaveTalks, clouds_of};
ghost use Rattle.ports_link.specs.Messages.Requests.{request_bytes};
ghost use Rattle.ports_link.specs.Messages.request.Request.TheVariants as requests;
ghost use Rattle.subset_restore.specs.CaontRs.Package.{tag as tag_at};
ghost use Rattle.subset_restore.specs.RestoreJob.Asking.{is_lost};
ghost use Rattle.subset_restore.specs.RestoreJob.Refusals.{Names};
ghost use Rattle.restore_command.specs.Calls.{OnlyReads, RestoreCall, ports_of};
ghost use Rattle.restore_command.specs.Tried.{CameBy};

use crate::recalling::{KeptReplies, RecallingLink};
use ports_link::{
    Bytes, CloudNo, Clouds, Greeted, NoMemory, Ports, PortsLink, Request, Shape, UserId, Version,
    lines_of,
};
use std::alloc::Global;
use subset_restore::{RestoreErr, restore_any, tag_of};

// The first line and the others.
fn next_line(lines: &[(CloudNo, u32)]) -> Option<(CloudNo, u32, &[(CloudNo, u32)])>
    ensures { MatchOption result (lines.now ≡ []) (λ x. lines.now ≡ (x.0, x.1) ∷ x.2.now) }
{
    match lines {
        [] => None,
        [(cloud, port), more @ ..] => Some((*cloud, *port, more)),
    }
}

// The clouds of some lines, which rise.
fn clouds_in(alloc: Global, lines: &[(CloudNo, u32)]) -> Result<Clouds, NoMemory>
    requires { IsStrictlyIncreasing (clouds_of lines.now) }
    ensures { IfOk result (λ clouds. clouds ≡ clouds_of lines.now) }
{
    let mut clouds = Clouds::new(alloc);
    let mut rest = lines;
    'lines: loop {
        let Some((cloud, _port, more)) = next_line(rest) else {
            return Ok(clouds);
        };
        match clouds.push(cloud) {
            Ok(()) => {}
            Err(NoMemory) => return Err(NoMemory),
        }
        rest = more;
    }
}

// The content of the request for a version's recipe.
fn wanted_request(
    alloc: Global,
    shape: Shape,
    user: UserId,
    path: &[u8],
    version: Version,
) -> Result<Bytes, NoMemory>
    requires { IsPath path.now }
    ensures { IfOk result (λ content. content ≡ request_bytes (requests.GetRecipe user
        (record { 0 = tag_at shape path.now }) version)) }
{
    let tag = tag_of(alloc, shape, path)?;
    let mut content = Bytes::new(alloc);
    Request::GetRecipe { user, tag, version }.write(&mut content)?;
    Ok(content)
}

/// Appends a version of a file from any k of the clouds that were greeted. No cloud is asked again for a recipe that came.
pub fn restore_greeted<P: Ports>(
    alloc: Global,
    user: UserId,
    path: &[u8],
    version: Version,
    greeted: &Greeted,
    ports: &mut P,
    file: &mut Bytes,
) -> Result<(), RestoreErr>
    requires path { IsPath path.now }
    requires clouds { HasClouds asked.Restore greeted.now }
    requires reached { AreCloudsReached greeted.now.lines.items }
    requires empty { file.old ≡ [] }
    ensures named { IfErr result (Names (Contains (clouds_of greeted.now.lines.items))) }
    ensures lost { is_lost result ≡ true → Rose (P.faults ports.old) (P.faults ports.new) }
    ensures later { P.faults ports.old ≤ P.faults ports.new }
    ensures sends { IsTrue (P.tells ports.old).told → OnlyReads (P.tells ports.old) (P.tells ports.new) }
    ensures told { (P.tells ports.new).told ≡ (P.tells ports.old).told }
    ensures others { IsTrue (P.tells ports.old).told → (port : ℕ) → ¬ Contains (ports_of greeted.now.lines.items) port
        → (P.tells ports.new).port port ≡ (P.tells ports.old).port port }
    ensures came { (call : RestoreCall) → call.user ≡ user → call.path ≡ path.now → call.version ≡ version
        → call.after ≡ P.tells ports.new → call.faults_before ≡ P.faults ports.old
        → call.faults_after ≡ P.faults ports.new
        → (IsTrue call.before.told → IsTrue (P.tells ports.old).told
        × HaveTalks (P.tells ports.old) greeted.now.lines.items)
        → CameBy call greeted.now (P.tells ports.old) result file.new }
{
    let clouds = match clouds_in(alloc, greeted.lines.as_slice()) {
        Ok(clouds) => clouds,
        Err(NoMemory) => return Err(RestoreErr::NoMemory),
    };
    let lines = match lines_of(alloc, greeted.lines.as_slice()) {
        Ok(lines) => lines,
        Err(NoMemory) => return Err(RestoreErr::NoMemory),
    };
    let wanted = match wanted_request(alloc, greeted.shape, user, path, version) {
        Ok(wanted) => wanted,
        Err(NoMemory) => return Err(RestoreErr::NoMemory),
    };
    let kept = match KeptReplies::make(alloc, greeted.shape.n as usize) {
        Ok(kept) => kept,
        Err(NoMemory) => return Err(RestoreErr::NoMemory),
    };
    let below = PortsLink::of(ports, greeted.shape, lines);
    let mut link = RecallingLink {
        link: below,
        wanted,
        kept,
    };
    let came = restore_any(
        alloc,
        &mut link,
        greeted.shape,
        user,
        path,
        version,
        &clouds,
        file,
    );
    let _ports = link.release();
    came
}
