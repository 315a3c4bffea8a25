//! A choice of clouds that grows.

ghost use Rattle.std.specs.Prelude.{◌≡◌, ◌<◌, [], ◌∷◌, ◌++◌, length, MatchOption};
ghost use Rattle.transcript.specs.CdBase.Numbers.{numbers_of};

use std::marker::Model;
use transcript::CloudNo;

/// At most 16 clouds, in an array. Contracts see the list of their numbers.
#[derive(Drop)]
pub struct Chosen {
    clouds: [CloudNo; 16],
    count: usize,
}

impl Model for Chosen {
    ghost use Rattle.std.specs.Prelude.{ℕ, List, take, ◌≤◌};
    ghost use Rattle.transcript.specs.CdBase.Numbers.{numbers_of};

    ghost Value = { List ℕ };

    ghost view = { λ c. numbers_of (take c.count c.clouds) };

    ghost invariant = { λ c. c.count ≤ 16 };
}

impl Chosen {
    /// No clouds.
    pub fn none() -> Chosen
        ensures { result ≡ [] }
    {
        Chosen {
            clouds: [CloudNo(0); 16],
            count: 0,
        }
    }

    /// These clouds and one more.
    pub fn with(&self, cloud: CloudNo) -> Chosen
        requires { length self.now < 16 }
        ensures { result ≡ self.now ++ cloud.0 ∷ [] }
    {
        let mut clouds = self.clouds;
        clouds[self.count] = cloud;
        Chosen {
            clouds,
            count: self.count + 1,
        }
    }

    /// The clouds.
    pub fn as_slice(&self) -> &[CloudNo]
        ensures { numbers_of result.now ≡ self.now }
    {
        &self.clouds[..self.count]
    }
}

/// The first cloud and the others.
pub fn next_cloud(clouds: &[CloudNo]) -> Option<(CloudNo, &[CloudNo])>
    ensures { MatchOption result (clouds.now ≡ []) (λ x. clouds.now ≡ x.0 ∷ x.1.now) }
{
    match clouds {
        [] => None,
        [cloud, more @ ..] => Some((*cloud, more)),
    }
}
