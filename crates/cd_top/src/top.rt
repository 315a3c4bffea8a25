//! The top call.

ghost use Rattle.std.specs.Prelude.{◌≡◌, ◌≢◌, ◌≤◌, ◌⊎◌, ℕ, List, map, string_bytes};
ghost use Rattle.command_words.specs.Asked.{AskedCloud, AskedFile, AskedMigrate, AskedRead, AskedResume, AskedServe, AskedSession, AskedSpool};
ghost use Rattle.command_words.specs.Asked.{ForAudit, ForBackup, ForCheck, ForDelete, ForGenerate, ForRead, ForReclaim, ForRestore};
ghost use Rattle.command_words.specs.Asked.{ForMigrate, ForResume, ForServe, ForSpool};
ghost use Rattle.command_words.specs.Commands.{IsAnyCommand, IsCommand};
ghost use Rattle.command_words.specs.Views.{asked_of};
ghost use Rattle.script_replay.specs.Endings.{ReplayCall, replay_call};
ghost use Rattle.cd_top.specs.Complete.{IsReplayUnhindered};
ghost use Rattle.spool_command.specs.BackupCommand.Reading.{input_of};
ghost use Rattle.spool_command.specs.BackupCommand.Writing.{output_of as output_by};
ghost use Rattle.migrate_command.specs.ServeCommand.Served.{output_of};
ghost use Rattle.delete_command.specs.Writing.{output_of as deletion_of};
ghost use Rattle.cd_top.specs.Audit.{Audits, HasCheckedOrCause, clouds_of};
ghost use Rattle.cd_top.specs.Clients.{BacksUp, HasDeletedOrCause, HasRestoredOrCause, lines_of};
ghost use Rattle.cd_top.specs.Dispatch.{IsFit, Promises};
ghost use Rattle.cd_top.specs.Generate.{IsGenerated};
ghost use Rattle.cd_top.specs.Migrate.{HasMigratedOrCause};
ghost use Rattle.cd_top.specs.Serve.{HasServedOrCause, serving};
ghost use Rattle.cd_top.specs.Spool.{Resumes, Spools, beside};
ghost use Rattle.cd_top.specs.Read.{Around, IsVersionRead, around_call};
ghost use Rattle.cd_top.specs.Reclaim.{HasReclaimedOrCause};
ghost use Rattle.cd_top.specs.Replay.{IsReplay, IsReplayed};

use crate::audits::{audit_in, check_in};
use crate::clients::{backup_to, delete_at, restore_from};
use crate::ending::finish;
use crate::generate::generate_in;
use crate::migrates::migrate_in;
use crate::read::read_in;
use crate::reclaims::reclaim_in;
use crate::serve::serve_in;
use crate::spool::{resume_in, spool_in};
use command_words::{AskedCommand, NoMemory, law_of_words, read_words};
use delete_command::{Failed, Ports, Shelf, Sink, Source};
use script_replay::replay;
use std::alloc::Global;

// Runs the script in the source over the clouds in the directory.
fn replay_in<S: Source, K: Sink, V: Shelf>(
    alloc: Global,
    directory: &str,
    source: &mut S,
    sink: &mut K,
    shelf: &mut V,
) -> u8
    ensures { IsReplayed result
        (replay_call (S.left source.old) (S.left source.new) (S.faults source.old) (S.faults source.new)
        (K.faults sink.old) (K.faults sink.new) (V.faults shelf.old) (V.faults shelf.new)
        (V.cloud_at shelf.old) (V.cloud_at shelf.new)) (K.written sink.old) (K.written sink.new) }
{
    match shelf.root(directory) {
        Ok(()) => {}
        Err(Failed) => return 5,
    }
    let end = replay(alloc, source, sink, shelf);
    finish(alloc, &end, sink)
}

// Carries out what is asked for, each command by a call of its own.
fn carry_out<S: Source, K: Sink, V: Shelf, P: Ports>(
    alloc: Global,
    command: &AskedCommand<'_>,
    source: &mut S,
    sink: &mut K,
    shelf: &mut V,
    ports: &mut P,
) -> u8
    requires { IsFit (asked_of command.now) }
    ensures { Promises (asked_of command.now) (record {
      replayed = (ports.new ≡ ports.old) × IsReplayed result
          (replay_call (S.left source.old) (S.left source.new) (S.faults source.old) (S.faults source.new)
          (K.faults sink.old) (K.faults sink.new) (V.faults shelf.old) (V.faults shelf.new)
          (V.cloud_at shelf.old) (V.cloud_at shelf.new)) (K.written sink.old) (K.written sink.new);
      read = λ asked. (source.new ≡ source.old) × (ports.new ≡ ports.old) × IsVersionRead result
          (around_call (K.faults sink.old) (K.faults sink.new) (V.faults shelf.old) (V.faults shelf.new)
          (V.cloud_at shelf.old) (V.cloud_at shelf.new)) asked (K.written sink.old) (K.written sink.new);
      served = λ asked. (source.new ≡ source.old) × HasServedOrCause result (serving asked
          (output_of (K.written sink.old) (K.written sink.new) (K.faults sink.old) (K.faults sink.new))
          (V.cloud_at shelf.old) (V.cloud_at shelf.new) (V.faults shelf.old) (V.faults shelf.new)
          (P.tells ports.old) (P.tells ports.new) (P.faults ports.old) (P.faults ports.new));
      backed_up = λ asked. (shelf.new ≡ shelf.old) × BacksUp result asked
          (lines_of (P.tells ports.old) (P.tells ports.new) (P.faults ports.old) (P.faults ports.new))
          (input_of (S.left source.old) (S.faults source.old) (S.faults source.new))
          (output_by (K.written sink.old) (K.written sink.new) (K.faults sink.old) (K.faults sink.new));
      restored = λ asked. (source.new ≡ source.old) × (shelf.new ≡ shelf.old) × HasRestoredOrCause result asked
          (lines_of (P.tells ports.old) (P.tells ports.new) (P.faults ports.old) (P.faults ports.new))
          (K.written sink.old) (K.written sink.new) (K.faults sink.old) (K.faults sink.new);
      deleted = λ asked. (source.new ≡ source.old) × (shelf.new ≡ shelf.old) × HasDeletedOrCause result asked
          (lines_of (P.tells ports.old) (P.tells ports.new) (P.faults ports.old) (P.faults ports.new))
          (deletion_of (K.written sink.old) (K.written sink.new) (K.faults sink.old) (K.faults sink.new));
      spooled = λ asked. Spools result asked
          (beside (V.cloud_at shelf.old) (V.cloud_at shelf.new) (V.faults shelf.old) (V.faults shelf.new)
          (lines_of (P.tells ports.old) (P.tells ports.new) (P.faults ports.old) (P.faults ports.new)))
          (source.new ≡ source.old)
          (input_of (S.left source.old) (S.faults source.old) (S.faults source.new))
          (output_by (K.written sink.old) (K.written sink.new) (K.faults sink.old) (K.faults sink.new));
      resumed = λ asked. (source.new ≡ source.old) × Resumes result asked
          (beside (V.cloud_at shelf.old) (V.cloud_at shelf.new) (V.faults shelf.old) (V.faults shelf.new)
          (lines_of (P.tells ports.old) (P.tells ports.new) (P.faults ports.old) (P.faults ports.new)))
          (output_by (K.written sink.old) (K.written sink.new) (K.faults sink.old) (K.faults sink.new));
      audited = λ asked. (source.new ≡ source.old) × (ports.new ≡ ports.old) × Audits result asked
          (clouds_of (V.cloud_at shelf.old) (V.cloud_at shelf.new) (V.faults shelf.old) (V.faults shelf.new))
          (output_by (K.written sink.old) (K.written sink.new) (K.faults sink.old) (K.faults sink.new));
      checked = λ asked. (ports.new ≡ ports.old) × HasCheckedOrCause result asked
          (clouds_of (V.cloud_at shelf.old) (V.cloud_at shelf.new) (V.faults shelf.old) (V.faults shelf.new))
          (source.new ≡ source.old)
          (input_of (S.left source.old) (S.faults source.old) (S.faults source.new))
          (output_by (K.written sink.old) (K.written sink.new) (K.faults sink.old) (K.faults sink.new));
      reclaimed = λ asked. (source.new ≡ source.old) × (ports.new ≡ ports.old) × HasReclaimedOrCause result asked
          (clouds_of (V.cloud_at shelf.old) (V.cloud_at shelf.new) (V.faults shelf.old) (V.faults shelf.new))
          (output_by (K.written sink.old) (K.written sink.new) (K.faults sink.old) (K.faults sink.new));
      migrated = λ asked. (source.new ≡ source.old) × (ports.new ≡ ports.old) × HasMigratedOrCause result asked
          (clouds_of (V.cloud_at shelf.old) (V.cloud_at shelf.new) (V.faults shelf.old) (V.faults shelf.new))
          (output_by (K.written sink.old) (K.written sink.new) (K.faults sink.old) (K.faults sink.new));
      generated = λ asked. (source.new ≡ source.old) × (ports.new ≡ ports.old) × IsGenerated result
          (around_call (K.faults sink.old) (K.faults sink.new) (V.faults shelf.old) (V.faults shelf.new)
          (V.cloud_at shelf.old) (V.cloud_at shelf.new)) asked (K.written sink.old) (K.written sink.new);
    }) }
{
    match command {
        AskedCommand::Replay { directory } => replay_in(alloc, directory, source, sink, shelf),
        AskedCommand::Read(asked) => read_in(alloc, asked, sink, shelf),
        AskedCommand::Serve(asked) => serve_in(alloc, asked, sink, shelf, ports),
        AskedCommand::Backup(asked) => backup_to(alloc, asked, source, sink, ports),
        AskedCommand::Restore(asked) => restore_from(alloc, asked, sink, ports),
        AskedCommand::Delete(asked) => delete_at(alloc, asked, sink, ports),
        AskedCommand::Spool(asked) => spool_in(alloc, asked, source, sink, shelf, ports),
        AskedCommand::Resume(asked) => resume_in(alloc, asked, sink, shelf, ports),
        AskedCommand::Audit(asked) => audit_in(alloc, asked, sink, shelf),
        AskedCommand::Check(asked) => check_in(alloc, asked, source, sink, shelf),
        AskedCommand::Reclaim(asked) => reclaim_in(alloc, asked, sink, shelf),
        AskedCommand::Migrate(asked) => migrate_in(alloc, asked, sink, shelf),
        AskedCommand::Generate(asked) => generate_in(alloc, asked, sink, shelf),
    }
}

/// Runs the program's words over a source, a sink, a shelf and ports, and answers the status. The words are those after the
/// program's name.
///
/// | Words | |
/// |---|---|
/// | `replay DIR` | runs the script in the source over empty clouds in DIR, and writes its transcript |
/// | `read DIR N K USER PATH VERSION CLOUDS` | writes a version of a file, from the disks of any K of these clouds of DIR alone |
/// | `serve DIR CLOUD N K ADDR COUNT` | serves COUNT connections to a cloud in DIR, which is begun if it is new |
/// | `backup USER PATH VERSION ADDR..` | stores the source's bytes on the n clouds behind the addresses |
/// | `restore USER PATH VERSION ADDR..` | writes a version of a file, from any k of the clouds behind the addresses |
/// | `delete USER PATH VERSION ADDR..` | deletes a version of a file at the n clouds behind the addresses |
/// | `spool DIR USER PATH VERSION ADDR..` | the same as `backup`, with the job kept in DIR until each cloud has the version |
/// | `resume DIR ADDR..` | goes on with the job that is kept in DIR, at the n clouds behind the addresses |
/// | `audit DIR CLOUD N K` | reads all that a cloud in DIR lists, and writes its certificate |
/// | `check DIR CLOUD N K` | sees that the source has the cloud's own certificate, and that the cloud is whole |
/// | `reclaim DIR CLOUD N K` | copies what is alive in a cloud in DIR, and gives back the space of the rest |
/// | `migrate DIR CLOUD N K USERS SHARES RECIPES OWNERS FILES` | takes a cloud of format 1 in DIR over into format 2 |
/// | `gen SEED FILES PIECES DIR` | makes a session of FILES backups over four empty clouds in DIR, and writes its summary |
///
/// | Status | Comes | Last line |
/// |---|---|---|
/// | 0 | the script was read to its end and each line answered | `done E` |
/// | 0 | the file was written, or is stored on all clouds; COUNT connections were served | none, `end 1 stored`, `connection COUNT WORD` |
/// | 0 | spool, resume: the version is stored on all clouds; resume: no job is kept. DIR's cloud 0 is empty then | `end 1 stored`; `nospool` |
/// | 0 | delete: each cloud replied that the version is deleted or missing | `deleted C`, `missing C` |
/// | 0 | the generated session was made to its end | `equal X`, the last of six lines |
/// | 0 | audit: each blob that the cloud lists is where it was put | none behind the certificate |
/// | 0 | check: that too, and the certificate is the cloud's own | `whole CLOUD COUNT` |
/// | 0 | reclaim: the cloud stands for its compact list | `reclaimed CLOUD SHARES RECIPES DROPPED` |
/// | 0 | migrate: the cloud stands, in the present format, for its compact list | `migrated CLOUD COMMANDS` |
/// | 1 | exactly where the words are none of the above; nothing is done then | none |
/// | 2 | a line that was reached is wrong, or a limit is passed; all before it are answered | `script LINE PLACE BYTE` |
/// | 2 | check: the source has no certificate, or more than 134,217,728 bytes | `script LINE PLACE BYTE` |
/// | 3 | only where the source's count of faults rose | none |
/// | 4 | only where the sink's count of faults rose | none |
/// | 5 | only where the shelf's count rose outside a request and a `restart` | `shelf CLOUD`; none where DIR failed |
/// | 6 | memory ran out | none |
/// | 7 | replay, gen: an area of a cloud wasn't empty | `store CLOUD AREA LEN` |
/// | 7 | replay, gen: the first opening found damage, of a cloud that isn't told | `damaged CLOUD AT BYTE` |
/// | 7 | read, audit, check, reclaim, migrate: a cloud has no store | `notbegun CLOUD LEN` |
/// | 7 | read, audit, check, reclaim, migrate: a cloud's journal is damaged | `damaged CLOUD AT BYTE` |
/// | 7 | read, audit, check, reclaim, migrate: a cloud is of another store, or another cloud of it | `other CLOUD FORMAT N K OWN`, as found |
/// | 7 | migrate: the cloud holds more than the earlier format allowed | `rooms CLOUD ROOM LIMIT` |
/// | 7 | spool: an area of DIR's cloud 0 isn't empty | `store 0 AREA LEN` |
/// | 7 | resume: what is kept is damaged, or it was kept for clouds of another shape | `damaged 0 AT BYTE`, `other 0 FORMAT N K OWN` |
/// | 7 | serve: as for a read, but that a store that isn't there is begun | likewise |
/// | 8 | read, restore: the clouds gave no file; backup, restore, spool, resume: a cloud isn't as asked | `refused ..` |
/// | 8 | resume: the kept file has changed | `refused rotten 0 NAMED FOUND` |
/// | 8 | audit, check: a blob that the cloud lists isn't where it was put | `refused rotten CLOUD NAMED FOUND` |
/// | 8 | reclaim: a blob that is alive isn't what it was; the cloud is as it was | `refused rotten CLOUD NAMED FOUND` |
/// | 8 | migrate: the cloud is in the present format | `refused already CLOUD` |
/// | 8 | migrate: a user keeps more than it may; the cloud is as it was | `refused toolarge USER ROOM USED LIMIT` |
/// | 8 | check: the certificate is another cloud's, or has another line | `refused othercloud`, `refused differs LINE` |
/// | 8 | delete: a cloud isn't as asked; or one replied something else | `refused ..`; the last cloud's line |
/// | 8 | backup, spool, resume: not every cloud has entered the version | `end 1 open` |
/// | 9 | only where the ports' count of faults rose | none |
///
/// LINE counts from 1, PLACE from 0; BYTE is the byte there in two hexadecimal digits, or `end`. AREA is `journal`, `shares`
/// or `recipes`, and LEN and AT are in bytes.
///
/// With 3, 4 and 6 a front of the text was written, and else all of it.
pub fn run<S: Source, K: Sink, V: Shelf, P: Ports>(
    alloc: Global,
    words: &[String],
    source: &mut S,
    sink: &mut K,
    shelf: &mut V,
    ports: &mut P,
) -> u8
    ensures numbers { result ≤ 9 }
    ensures replay_numbers { IsReplay (map string_bytes words.now) → result ≤ 7 }
    // 1 comes exactly where the words are none of the table. Nothing is done then.
    ensures usage { IsAnyCommand (map string_bytes words.now) → result ≢ 1 }
    ensures unused { ¬ IsAnyCommand (map string_bytes words.now)
        → (result ≡ 1) × (source.new ≡ source.old) × (sink.new ≡ sink.old) × (shelf.new ≡ shelf.old)
        × (ports.new ≡ ports.old) }
    // A replay and a read connect to nothing.
    ensures unconnected { IsReplay (map string_bytes words.now) → ports.new ≡ ports.old }
    // What is written is a session's text, the disks and the replies are that session's, and the status has its cause.
    ensures headline { IsReplay (map string_bytes words.now) → IsReplayed result
        (replay_call (S.left source.old) (S.left source.new) (S.faults source.old) (S.faults source.new)
        (K.faults sink.old) (K.faults sink.new) (V.faults shelf.old) (V.faults shelf.new)
        (V.cloud_at shelf.old) (V.cloud_at shelf.new)) (K.written sink.old) (K.written sink.new) }
    // Where the source has a script, its clouds are empty and told, and no count rises, it is done or memory ran out.
    ensures complete { IsReplay (map string_bytes words.now) → IsReplayUnhindered
        (replay_call (S.left source.old) (S.left source.new) (S.faults source.old) (S.faults source.new)
        (K.faults sink.old) (K.faults sink.new) (V.faults shelf.old) (V.faults shelf.new)
        (V.cloud_at shelf.old) (V.cloud_at shelf.new)) → (result ≡ 0) ⊎ (result ≡ 6) }
    // What is written is what the named clouds' disks give, or why they give nothing, and the status has its cause. The
    // source isn't touched.
    ensures read { (asked : AskedRead) → IsCommand (map string_bytes words.now) (ForRead asked)
        → (source.new ≡ source.old) × (ports.new ≡ ports.old) × IsVersionRead result
        (around_call (K.faults sink.old) (K.faults sink.new) (V.faults shelf.old) (V.faults shelf.new)
        (V.cloud_at shelf.old) (V.cloud_at shelf.new)) asked (K.written sink.old) (K.written sink.new) }
    // The cloud is served: its list goes on by the requests that came, and each line says how a connection ended. The
    // source isn't touched.
    ensures serve { (asked : AskedServe) → IsCommand (map string_bytes words.now) (ForServe asked)
        → (source.new ≡ source.old) × HasServedOrCause result (serving asked
        (output_of (K.written sink.old) (K.written sink.new) (K.faults sink.old) (K.faults sink.new))
        (V.cloud_at shelf.old) (V.cloud_at shelf.new) (V.faults shelf.old) (V.faults shelf.new)
        (P.tells ports.old) (P.tells ports.new) (P.faults ports.old) (P.faults ports.new)) }
    // What is sent on each port is what its cloud's lane asks, what is written is what came, and 0 comes exactly where
    // each cloud has entered the version. The shelf isn't touched.
    ensures backup { (asked : AskedFile) → IsCommand (map string_bytes words.now) (ForBackup asked)
        → (shelf.new ≡ shelf.old) × BacksUp result asked
        (lines_of (P.tells ports.old) (P.tells ports.new) (P.faults ports.old) (P.faults ports.new))
        (input_of (S.left source.old) (S.faults source.old) (S.faults source.new))
        (output_by (K.written sink.old) (K.written sink.new) (K.faults sink.old) (K.faults sink.new)) }
    // What is written follows from what came on the ports, or says why nothing does. Source and shelf aren't touched.
    ensures restore { (asked : AskedFile) → IsCommand (map string_bytes words.now) (ForRestore asked)
        → (source.new ≡ source.old) × (shelf.new ≡ shelf.old) × HasRestoredOrCause result asked
        (lines_of (P.tells ports.old) (P.tells ports.new) (P.faults ports.old) (P.faults ports.new))
        (K.written sink.old) (K.written sink.new) (K.faults sink.old) (K.faults sink.new) }
    // Each cloud is asked for the deletion once, and what is written follows from what came on the ports: 0 comes exactly
    // where the version is deleted or missing at each. Source and shelf aren't touched.
    ensures delete { (asked : AskedFile) → IsCommand (map string_bytes words.now) (ForDelete asked)
        → (source.new ≡ source.old) × (shelf.new ≡ shelf.old) × HasDeletedOrCause result asked
        (lines_of (P.tells ports.old) (P.tells ports.new) (P.faults ports.old) (P.faults ports.new))
        (deletion_of (K.written sink.old) (K.written sink.new) (K.faults sink.old) (K.faults sink.new)) }
    // What is read, sent and written is as for a backup, and the job is kept in the folder, cloud 0 of the shelf, from the
    // Hellos until each cloud has entered the version. No other cloud is touched. Where DIR fails nothing is.
    ensures spool { (asked : AskedSpool) → IsCommand (map string_bytes words.now) (ForSpool asked)
        → Spools result asked
        (beside (V.cloud_at shelf.old) (V.cloud_at shelf.new) (V.faults shelf.old) (V.faults shelf.new)
        (lines_of (P.tells ports.old) (P.tells ports.new) (P.faults ports.old) (P.faults ports.new)))
        (source.new ≡ source.old)
        (input_of (S.left source.old) (S.faults source.old) (S.faults source.new))
        (output_by (K.written sink.old) (K.written sink.new) (K.faults sink.old) (K.faults sink.new)) }
    // The job that the folder keeps goes on: nothing is sent on the ports of clouds that were noted, behind their Hellos.
    // No other cloud is touched. Where DIR fails nothing is. The source isn't touched.
    ensures resume { (asked : AskedResume) → IsCommand (map string_bytes words.now) (ForResume asked)
        → (source.new ≡ source.old) × Resumes result asked
        (beside (V.cloud_at shelf.old) (V.cloud_at shelf.new) (V.faults shelf.old) (V.faults shelf.new)
        (lines_of (P.tells ports.old) (P.tells ports.new) (P.faults ports.old) (P.faults ports.new)))
        (output_by (K.written sink.old) (K.written sink.new) (K.faults sink.old) (K.faults sink.new)) }
    // Each blob that the cloud's records list is read: what is written is its certificate, or why there is none, and the status has its
    // cause. No other cloud is touched. Source and ports aren't.
    ensures audit { (asked : AskedCloud) → IsCommand (map string_bytes words.now) (ForAudit asked)
        → (source.new ≡ source.old) × (ports.new ≡ ports.old) × Audits result asked
        (clouds_of (V.cloud_at shelf.old) (V.cloud_at shelf.new) (V.faults shelf.old) (V.faults shelf.new))
        (output_by (K.written sink.old) (K.written sink.new) (K.faults sink.old) (K.faults sink.new)) }
    // The source is read to its end once the cloud is opened. 0 comes only where it has the cloud's own certificate, and each blob that
    // this names is where it was put. No other cloud is touched. The ports aren't.
    ensures check { (asked : AskedCloud) → IsCommand (map string_bytes words.now) (ForCheck asked)
        → (ports.new ≡ ports.old) × HasCheckedOrCause result asked
        (clouds_of (V.cloud_at shelf.old) (V.cloud_at shelf.new) (V.faults shelf.old) (V.faults shelf.new))
        (source.new ≡ source.old)
        (input_of (S.left source.old) (S.faults source.old) (S.faults source.new))
        (output_by (K.written sink.old) (K.written sink.new) (K.faults sink.old) (K.faults sink.new)) }
    // What is alive of the cloud is copied and switched to: for each list that it stands for, a crash at any moment leaves what it
    // might have left at the start, or the list, or its compact list; 0 says that it stands for the compact list; and what is written
    // has the numbers, or why nothing was given back. No other cloud is touched. Source and ports aren't.
    ensures reclaim { (asked : AskedCloud) → IsCommand (map string_bytes words.now) (ForReclaim asked)
        → (source.new ≡ source.old) × (ports.new ≡ ports.old) × HasReclaimedOrCause result asked
        (clouds_of (V.cloud_at shelf.old) (V.cloud_at shelf.new) (V.faults shelf.old) (V.faults shelf.new))
        (output_by (K.written sink.old) (K.written sink.new) (K.faults sink.old) (K.faults sink.new)) }
    // The cloud is taken over from format 1: for each list that it stands for, a crash at any moment leaves the list, or in format 2 its
    // compact list; 0 says that it stands for the compact list alone; whatever its bytes are, they give the answer; and where it isn't
    // migrated, its areas were synced and nothing else. No other cloud is touched. Source and ports aren't.
    ensures migrate { (asked : AskedMigrate) → IsCommand (map string_bytes words.now) (ForMigrate asked)
        → (source.new ≡ source.old) × (ports.new ≡ ports.old) × HasMigratedOrCause result asked
        (clouds_of (V.cloud_at shelf.old) (V.cloud_at shelf.new) (V.faults shelf.old) (V.faults shelf.new))
        (output_by (K.written sink.old) (K.written sink.new) (K.faults sink.old) (K.faults sink.new)) }
    // The session that is made is the generated one; the summary has its numbers, or what is written says why there is
    // none, and the status has its cause. Where nothing fails, it is made to its end or memory ran out. Source and ports
    // aren't touched.
    ensures generate { (asked : AskedSession) → IsCommand (map string_bytes words.now) (ForGenerate asked)
        → (source.new ≡ source.old) × (ports.new ≡ ports.old) × IsGenerated result
        (around_call (K.faults sink.old) (K.faults sink.new) (V.faults shelf.old) (V.faults shelf.new)
        (V.cloud_at shelf.old) (V.cloud_at shelf.new)) asked (K.written sink.old) (K.written sink.new) }
{
    law_of_words();
    let command = match read_words(alloc, words) {
        Ok(Some(command)) => command,
        Ok(None) => return 1,
        Err(NoMemory) => return 6,
    };
    carry_out(alloc, &command, source, sink, shelf, ports)
}
