//! Meeting clouds: each is dialled and asked Hello before the next is dialled.

ghost use Rattle.std.specs.Prelude.{◌≡◌, ◌≤◌, ◌<◌, ◌+◌, [], ℕ, List, length, Ok, Err, IsTrue, IfOk, OnErr, MatchOption};
ghost use Rattle.std.specs.Prelude.{MatchResult};
ghost use Rattle.ports_link.specs.Dialled.{AreDialled, OnlyDialled};
ghost use Rattle.ports_link.specs.Hellos.{AreCloudsReached, HaveTalks, hello, ports_of};
ghost use Rattle.ports_link.specs.Sending.{SendsOnly};
ghost use Rattle.ports_link.specs.Meeting.{CountsMeeting, IsMet, Meets, MeetsAll};

use crate::greeting::{Greeted, ask_hello, together};
use crate::judging::{AskedClouds, Greeting, judge};
use crate::refused::Refused;
use std::alloc::Global;
use transcript::{Failed, Ports};
use user_dedup::{NoMemory, ReplyBuf};

/// Why the clouds were not all met.
#[derive(Clone, Copy)]
pub enum MeetErr {
    /// An address couldn't be dialled.
    Undialled,
    /// A reply isn't as it has to be: the first such.
    Refused(Refused),
    /// The ports failed in a Hello.
    Lost,
    /// Memory ran out.
    NoMemory,
}

// What the clouds replied, and their ports, in the order of the addresses.
#[derive(Drop)]
struct Replies {
    greetings: Vec<Greeting>,
    dialled: Vec<u32>,
}

// The first address and the others.
fn next_address(addresses: &[String]) -> Option<(&str, &[String])>
    ensures { MatchOption result (addresses.now ≡ []) (λ x. length addresses.now ≡ length x.1.now + 1) }
{
    match addresses {
        [] => None,
        [address, more @ ..] => Some((address.as_str(), more)),
    }
}

// Dials the next of `count` addresses, behind these replies, and asks Hello there.
fn meet_next<P: Ports>(
    ports: &mut P,
    asked: AskedClouds,
    count: usize,
    before: &[Greeting],
    address: &str,
    reply: &mut ReplyBuf,
) -> Result<(u32, Greeting), MeetErr>
    requires some { length before.now < count }
    requires few { count ≤ 255 }
    ensures meets { MatchResult result
        (λ x. IsMet asked count before.now (P.tells ports.old) x.0 x.1 (P.tells ports.new))
        (λ e. (dialled : List ℕ) × Meets asked count before.now (P.tells ports.old) dialled (Err e)
        (P.tells ports.new)) }
    ensures sends { IsTrue (P.tells ports.old).told
        → SendsOnly (λ content. content ≡ hello) (P.tells ports.old) (P.tells ports.new) }
    ensures told { (P.tells ports.new).told ≡ (P.tells ports.old).told }
    ensures later { P.faults ports.old ≤ P.faults ports.new }
    ensures cause { CountsMeeting (P.faults ports.old) (P.faults ports.new) result }
{
    let port = match ports.dial(address) {
        Ok(port) => port,
        Err(Failed) => return Err(MeetErr::Undialled),
    };
    match ask_hello(ports, port, reply) {
        Ok(()) => {}
        Err(Failed) => return Err(MeetErr::Lost),
    }
    match judge(asked, count, before, reply.content()) {
        Ok(greeting) => Ok((port, greeting)),
        Err(why) => Err(MeetErr::Refused(why)),
    }
}

// Meets the clouds at these addresses, in order, and answers what each replied.
fn meet_each<P: Ports>(
    alloc: Global,
    ports: &mut P,
    asked: AskedClouds,
    addresses: &[String],
    reply: &mut ReplyBuf,
) -> Result<Replies, MeetErr>
    requires few { length addresses.now ≤ 255 }
    ensures meets { MatchResult result
        (λ replies. Meets asked (length addresses.now) [] (P.tells ports.old) replies.dialled.items
        (Ok replies.greetings.items) (P.tells ports.new))
        (λ e. (dialled : List ℕ) × Meets asked (length addresses.now) [] (P.tells ports.old) dialled (Err e)
        (P.tells ports.new)) }
    ensures sends { IsTrue (P.tells ports.old).told
        → SendsOnly (λ content. content ≡ hello) (P.tells ports.old) (P.tells ports.new) }
    ensures told { (P.tells ports.new).told ≡ (P.tells ports.old).told }
    ensures later { P.faults ports.old ≤ P.faults ports.new }
    ensures cause { CountsMeeting (P.faults ports.old) (P.faults ports.new) result }
{
    let mut greetings = Vec::new(alloc);
    let mut dialled = Vec::new(alloc);
    let count = addresses.len();
    let mut rest = addresses;
    'addresses: loop {
        let Some((address, more)) = next_address(rest) else {
            return Ok(Replies { greetings, dialled });
        };
        let (port, greeting) = match meet_next(
            ports,
            asked,
            count,
            greetings.as_slice(),
            address,
            reply,
        ) {
            Ok(met) => met,
            Err(e) => return Err(e),
        };
        match greetings.push(greeting) {
            Ok(()) => {}
            Err(_) => return Err(MeetErr::NoMemory),
        }
        match dialled.push(port) {
            Ok(()) => {}
            Err(_) => return Err(MeetErr::NoMemory),
        }
        rest = more;
    }
}

/// Meets the clouds at these addresses, in order: dials each, asks it Hello, and looks at its reply before the next is
/// dialled. A cloud that has replied serves this client, so that clients which take their clouds in one order never wait
/// for each other in a ring.
///
/// Where each reply is as asked it answers the clouds with their ports. The first reply that isn't is the refusal, with
/// its position and its numbers, and no address behind it was dialled. `Undialled` and `Lost` come only where the ports'
/// count of faults rose, and nothing more was dialled or sent then. Nothing but Hellos is sent, and nothing is said of
/// what is left in the reply buffer.
pub fn meet_all<P: Ports>(
    alloc: Global,
    ports: &mut P,
    asked: AskedClouds,
    addresses: &[String],
    reply: &mut ReplyBuf,
) -> Result<Greeted, MeetErr>
    requires some { 1 ≤ length addresses.now }
    requires few { length addresses.now ≤ 255 }
    ensures meets { MeetsAll asked (length addresses.now) (P.tells ports.old) (P.tells ports.new) result }
    ensures talks { IsTrue (P.tells ports.old).told
        → IfOk result (λ greeted. HaveTalks (P.tells ports.new) greeted.lines.items) }
    ensures reaches { IfOk result (λ greeted. AreCloudsReached greeted.lines.items) }
    ensures dialled { IsTrue (P.tells ports.old).told
        → IfOk result (λ greeted. AreDialled (P.tells ports.old) (P.tells ports.new) (ports_of greeted.lines.items)) }
    ensures others { IsTrue (P.tells ports.old).told
        → OnErr result (OnlyDialled (P.tells ports.old) (P.tells ports.new)) }
    ensures sends { IsTrue (P.tells ports.old).told
        → SendsOnly (λ content. content ≡ hello) (P.tells ports.old) (P.tells ports.new) }
    ensures told { (P.tells ports.new).told ≡ (P.tells ports.old).told }
    ensures later { P.faults ports.old ≤ P.faults ports.new }
    ensures cause { CountsMeeting (P.faults ports.old) (P.faults ports.new) result }
{
    let replies = match meet_each(alloc, ports, asked, addresses, reply) {
        Ok(replies) => replies,
        Err(e) => return Err(e),
    };
    match together(
        alloc,
        asked,
        replies.greetings.as_slice(),
        replies.dialled.as_slice(),
    ) {
        Ok(greeted) => Ok(greeted),
        Err(NoMemory) => Err(MeetErr::NoMemory),
    }
}
