//! Requests, executed.

ghost use Rattle.std.specs.Prelude.{◌≡◌, ◌≤◌, length, IsOk, OnOk};
ghost use Rattle.server_commands.specs.CdBase.Limits.{recipe_limit};
ghost use Rattle.server_commands.specs.Messages.reply.Reply.{Reply};
ghost use Rattle.server_commands.specs.Messages.Requests.{FitsRequest};
ghost use Rattle.server_commands.specs.Messages.Replies.{IsReply};
ghost use Rattle.server_commands.specs.ServerReads.CloudMemory.Rooms.{memory_of};
ghost use Rattle.server_commands.specs.ServerReads.Allowed.{Replies};
ghost use Rattle.server_commands.specs.Entering.{Enters};
ghost use Rattle.server_commands.specs.Executing.{IsStoreReady, Executes};
ghost use Rattle.server_requests.specs.Asking.{IsOfShape, request_of, IsForMemory};
ghost use Rattle.server_requests.specs.Hashed.{IsHashed};

use crate::StoreRequest;
use crate::fetching::send_recipe;
use crate::sending::send_shares;
use server_commands::{
    CloudStore, Failed, ReplyBuf, Shelf, commit, delete, entries, hello, known, put,
};

/// Executes a request by an open store. The reply becomes the content.
///
/// Where the store serves a list, the reply is exactly the one that the list gives, rooms and all, and the store serves the
/// list with one command more where the request adds one. A request that adds none leaves the areas and the memory. Whenever a
/// crash comes the cloud stands for the list without the command or with it. Hello, Query and List call no device and can't
/// fail.
///
/// Whatever the cloud has, the reply is one for the request, and neither Fault nor Damaged nor NoMemory. Shares have the
/// SHA-256 that was asked for, and a recipe has that of the memory's entry. A reply that says that nothing is stored,
/// entered, taken out or read (Stored with 0, Lacking, Missing, NotYours, Full of a room of the user's) comes with no call of
/// a device, and nothing has changed; one that says Rotten names what lies there then. What a reply to a Put, a Commit or a Delete
/// says is so by the memory, which has behind it just what it says; behind the others the memory is what it was, and their
/// replies, but Hello and Entries, say what it has.
///
/// Failed comes only where the cloud's count of faults rose. The store is shut then, nothing is known of the content, and the
/// cloud stands for the list without the command or with it.
///
/// It asks for a store that is ready, for a request that `StoreRequest::read` read for the store's shape, and for a
/// buffer of
/// 1,180,190 bytes at least, the most that a recipe has. It takes no memory but for the containers that the logs keep, and
/// goes on without where there is none for them.
pub fn dispatch<V: Shelf>(
    store: &mut CloudStore,
    shelf: &mut V,
    asked: &StoreRequest<'_>,
    buffer: &mut [u8],
    reply: &mut ReplyBuf,
) -> Result<(), Failed>
    requires ready { IsStoreReady store.old }
    requires fits { FitsRequest (request_of asked.now) }
    requires recipe { IsOfShape store.old.header.shape asked.now }
    requires buffer { recipe_limit ≤ length buffer.old }
    ensures does { Executes (shelf.new ≡ shelf.old) store.old store.new (V.cloud_at shelf.old) (V.cloud_at shelf.new)
        (V.faults shelf.old) (V.faults shelf.new) (request_of asked.now) reply.new result }
    ensures hashed { (answer : Reply) → OnOk result (IsReply reply.new answer
        → IsHashed (memory_of store.old.memory) (request_of asked.now) answer) }
    ensures enters { OnOk result (Replies reply.new (Enters store.old.header (memory_of store.old.memory)
        (memory_of store.new.memory) (request_of asked.now))) }
    ensures no_call { IsForMemory (request_of asked.now)
        → (shelf.new ≡ shelf.old) × (store.new ≡ store.old) × IsOk result }
{
    match asked {
        StoreRequest::Hello => {
            hello(store.header.shape, store.header.cloud, reply);
            Ok(())
        }
        StoreRequest::Query { user, fps } => {
            known(&store.memory, *user, fps, reply);
            Ok(())
        }
        StoreRequest::Put { user, shares } => put(store, shelf, *user, shares, reply),
        StoreRequest::Commit {
            user,
            tag,
            version,
            recipe,
        } => commit(store, shelf, *user, tag, *version, recipe, buffer, reply),
        StoreRequest::GetRecipe { user, tag, version } => {
            send_recipe(store, shelf, *user, tag, *version, buffer, reply)
        }
        StoreRequest::GetShares { user, fps } => send_shares(
            store, shelf, *user, fps, buffer, reply,
        ),
        StoreRequest::List { user, after } => {
            entries(&store.memory, *user, *after, reply);
            Ok(())
        }
        StoreRequest::Delete { user, tag, version } => {
            delete(store, shelf, *user, tag, *version, buffer, reply)
        }
    }
}
