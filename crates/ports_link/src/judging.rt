//! What the clouds reply to Hello, and whether they are as asked.

ghost use Rattle.std.specs.Prelude.{◌≡◌, ◌↔◌, ◌<◌, ◌≤◌, ◌^◌, length, All, IsTrue, IfOk, IfErr, MatchOption};
ghost use Rattle.user_dedup.specs.CdBase.Reading.{AreBytes};
ghost use Rattle.ports_link.specs.Greetings.{IsHello, NoHello, HasShape, HasPlaceBehind, HaveOneShape, IsAsAsked};
ghost use Rattle.ports_link.specs.Greetings.{IsGreetingRefused};
ghost use Rattle.ports_link.specs.Greetings.{first_byte};

use crate::refused::Refused;
use user_dedup::Shape;

/// What the clouds are asked for, and so which they have to be.
#[derive(Clone, Copy)]
pub enum AskedClouds {
    /// All n clouds of a shape, each at the address of its number.
    Backup,
    /// k clouds of a shape or more, rising.
    Restore,
}

/// The numbers of a reply to Hello: the shape of the store, and the cloud.
#[derive(Clone, Copy)]
pub struct Greeting {
    pub n: u8,
    pub k: u8,
    pub cloud: u8,
}

// The numbers of a reply to Hello, if the content is one.
fn greeting_of(content: &[u8]) -> Option<Greeting>
    ensures { MatchOption result (NoHello content.now) (λ g. IsHello content.now g) }
{
    match content {
        [0x81, n, k, cloud, 1] => Some(Greeting {
            n: *n,
            k: *k,
            cloud: *cloud,
        }),
        _ => None,
    }
}

// The first byte, 0 where there is none.
fn kind_of(content: &[u8]) -> u8
    ensures { result ≡ first_byte content.now }
{
    match content {
        [] => 0,
        [kind, ..] => *kind,
    }
}

// Whether each of these is of the same shape.
fn have_its_shape(before: &[Greeting], greeting: &Greeting) -> bool
    ensures { IsTrue result ↔ All (λ b. HaveOneShape b greeting.now) before.now }
{
    match before {
        [] => true,
        [first, more @ ..] => {
            if first.n == greeting.n && first.k == greeting.k {
                have_its_shape(more, greeting)
            } else {
                false
            }
        }
    }
}

// Whether each of these clouds is below this one.
fn are_below(before: &[Greeting], cloud: u8) -> bool
    ensures { IsTrue result ↔ All (λ b. b.cloud < cloud) before.now }
{
    match before {
        [] => true,
        [first, more @ ..] => {
            if first.cloud < cloud {
                are_below(more, cloud)
            } else {
                false
            }
        }
    }
}

// Whether the cloud is the one of this address.
fn has_place(asked: AskedClouds, count: usize, before: &[Greeting], greeting: &Greeting) -> bool
    ensures { IsTrue result ↔ HasPlaceBehind asked count before.now greeting.now }
{
    match asked {
        AskedClouds::Backup => {
            greeting.n as usize == count && greeting.cloud as usize == before.len()
        }
        AskedClouds::Restore => {
            greeting.k as usize <= count
                && are_below(before, greeting.cloud)
                && greeting.cloud < greeting.n
        }
    }
}

// Whether the numbers are a shape's.
fn has_shape(greeting: &Greeting) -> bool
    ensures { IsTrue result ↔ HasShape greeting.now }
{
    2 <= greeting.k && greeting.k < greeting.n && greeting.n <= 16
}

// Whether the reply of the next address is as it has to be.
fn is_as_asked(asked: AskedClouds, count: usize, before: &[Greeting], greeting: &Greeting) -> bool
    ensures { IsTrue result ↔ IsAsAsked asked count before.now greeting.now }
{
    has_shape(greeting)
        && have_its_shape(before, greeting)
        && has_place(asked, count, before, greeting)
}

/// Reads what the next of `count` addresses replied to Hello, behind these replies. The error is why it is refused,
/// with its position.
pub fn judge(
    asked: AskedClouds,
    count: usize,
    before: &[Greeting],
    content: &[u8],
) -> Result<Greeting, Refused>
    requires { length before.now < 256 }
    ensures hello { IfOk result (λ g. IsHello content.now g) }
    ensures asked { IfOk result (λ g. IsAsAsked asked count before.now g) }
    ensures refused { IfErr result (λ why. IsGreetingRefused asked count before.now content.now why) }
{
    let position = before.len() as u8;
    let Some(greeting) = greeting_of(content) else {
        return Err(Refused::Strange {
            position,
            kind: kind_of(content),
        });
    };
    if is_as_asked(asked, count, before, &greeting) {
        Ok(greeting)
    } else {
        Err(Refused::Hello {
            position,
            n: greeting.n,
            k: greeting.k,
            cloud: greeting.cloud,
        })
    }
}
