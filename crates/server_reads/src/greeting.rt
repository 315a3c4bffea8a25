//! The reply to Hello.

ghost use Rattle.std.specs.Prelude.{◌≡◌, List};
ghost use Rattle.messages.specs.declared.request.Request.TheVariants as requests;
ghost use Rattle.messages.specs.Replies.{reply_bytes};
ghost use Rattle.cloud_memory.specs.UserDedup.command.Command.{Command};
ghost use Rattle.cloud_memory.specs.UserDedup.Dedup.{answer_over};

use cloud_memory::{CloudNo, Shape};
use messages::{ReplyBuf, write_hello};

/// The reply to Hello becomes the content: the shape of the store, the number of the cloud, and the format 1.
pub fn hello(shape: Shape, cloud: CloudNo, reply: &mut ReplyBuf)
    ensures { (list : List Command) → reply.new ≡ reply_bytes (answer_over shape cloud.0 list requests.Hello).reply }
{
    write_hello(reply, shape.n(), shape.k(), cloud.0, 1);
}
