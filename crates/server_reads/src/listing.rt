//! The reply to List.

ghost use Rattle.std.specs.Prelude.{◌≡◌, ℕ, ◌≤◌, List, length, take, slice_get, IsTrue, IfSome};
ghost use Rattle.cloud_memory.specs.CdBase.shape.Shape.{Shape};
ghost use Rattle.messages.specs.MessageFields.Keys.{is_above, IsKey, AreKeys, key_limit};
ghost use Rattle.messages.specs.declared.request.Request.TheVariants as requests;
ghost use Rattle.messages.specs.Replies.{reply_bytes};
ghost use Rattle.cloud_memory.specs.UserDedup.command.Command.{Command};
ghost use Rattle.cloud_memory.specs.UserDedup.Cloud.{user_view};
ghost use Rattle.cloud_memory.specs.UserDedup.Dedup.{answer_over};
ghost use Rattle.cloud_memory.specs.Memory.{Remembers, keys_above};
ghost use Rattle.cloud_memory.specs.Rooms.{memory_of};
ghost use Rattle.server_reads.specs.Allowed.{Replies, EntriesReply};

use cloud_memory::{CloudMemory, Tag, UserId, Version};
use messages::{KEY_LIMIT, ReplyBuf, is_key_above, write_entries};

// The user's least key above the last one.
fn next_key(
    memory: &CloudMemory,
    user: UserId,
    last: Option<(Tag, Version)>,
) -> Option<(Tag, Version)>
    ensures value { (shape : Shape) (list : List Command) → Remembers shape list (memory_of memory.now)
        → result ≡ slice_get (keys_above (user_view shape list user).files last) 0 }
    ensures above { IfSome result (λ key. IsTrue (is_above last key)) }
    ensures range { IfSome result IsKey }
{
    match memory.after(user, last) {
        Some(key) => {
            if is_key_above(&last, &key) {
                Some(key)
            } else {
                None
            }
        }
        None => None,
    }
}

// Puts the user's least keys above the last one into the places, in order, and answers how many there are.
fn fill(
    memory: &CloudMemory,
    user: UserId,
    after: Option<(Tag, Version)>,
    keys: &mut [(Tag, Version)],
) -> usize
    ensures count { result ≤ length keys.old }
    ensures rising { AreKeys after (take result keys.new) }
    ensures value { (shape : Shape) (list : List Command) → Remembers shape list (memory_of memory.now)
        → take result keys.new ≡ take (length keys.old) (keys_above (user_view shape list user).files after) }
{
    let mut last = after;
    for i in 0..keys.len() {
        match next_key(memory, user, last) {
            Some(key) => {
                keys[i] = key;
                last = Some(key);
            }
            None => return i,
        }
    }
    keys.len()
}

// The reply Entries, with as many of the keys as there are places.
fn put_keys(
    memory: &CloudMemory,
    user: UserId,
    after: Option<(Tag, Version)>,
    keys: &mut [(Tag, Version)],
    reply: &mut ReplyBuf,
)
    requires { length keys.old ≡ key_limit }
    ensures value { (shape : Shape) (cloud : ℕ) (list : List Command) → Remembers shape list (memory_of memory.now)
        → reply.new ≡ reply_bytes (answer_over shape cloud list (requests.List user after)).reply }
    ensures kind { Replies reply.new (EntriesReply after) }
{
    let count = fill(memory, user, after, keys);
    let (page, _) = keys.split_at(count);
    write_entries(reply, page);
}

/// The reply to List becomes the content: the user's least tags and versions above the last one, or the least of all where none
/// is named, rising, and at most 256.
pub fn entries(
    memory: &CloudMemory,
    user: UserId,
    after: Option<(Tag, Version)>,
    reply: &mut ReplyBuf,
)
    ensures value { (shape : Shape) (cloud : ℕ) (list : List Command) → Remembers shape list (memory_of memory.now)
        → reply.new ≡ reply_bytes (answer_over shape cloud list (requests.List user after)).reply }
    ensures kind { Replies reply.new (EntriesReply after) }
{
    let mut keys = [(Tag([0; 32]), Version(0)); KEY_LIMIT];
    put_keys(memory, user, after, &mut keys, reply);
}
