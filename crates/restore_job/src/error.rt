//! Why a file was not restored.

use user_dedup::{CloudNo, Fp, NoMemory};

/// Why a file was not restored. Places of secrets are counted from 0 in the order of the recipe.
#[derive(Clone, Copy, Debug, PartialEq, Eq)]
pub enum RestoreErr {
    /// The cloud answered that the user has no such version there.
    Missing {
        cloud: CloudNo,
    },
    /// An ask of this cloud was lost on the way.
    Lost {
        cloud: CloudNo,
    },
    /// A device of the cloud failed.
    CloudFault {
        cloud: CloudNo,
    },
    /// The cloud's journal is damaged: the place of the damage and the byte there.
    CloudDamaged {
        cloud: CloudNo,
        at: u64,
        byte: u8,
    },
    /// What the cloud kept is another: the fingerprint that its record names, and that of what was found.
    CloudRotten {
        cloud: CloudNo,
        named: Fp,
        found: Fp,
    },
    /// The cloud's memory ran out.
    CloudNoMemory {
        cloud: CloudNo,
    },
    /// The reply is none that a server gives here: its first byte, or 0 of an empty one.
    Strange {
        cloud: CloudNo,
        kind: u8,
    },
    /// The recipes of two clouds differ. The place is 0 for the length of the path, 1 for that of the file, 2 for the number of
    /// items, and 3 + i for the length of secret i.
    RecipesDiffer {
        cloud_a: CloudNo,
        cloud_b: CloudNo,
        place: u32,
    },
    /// A share has another length than the shares of the secret have, in bytes.
    ShareLength {
        cloud: CloudNo,
        secret: u32,
        found: u32,
        wanted: u32,
    },
    /// A share has another hash than the recipe names.
    BadShare {
        cloud: CloudNo,
        secret: u32,
        named: Fp,
        found: Fp,
    },
    /// The hash of the padded text that the shares give, `found`, isn't the one that the package names.
    BadSecret {
        secret: u32,
        named: Fp,
        found: Fp,
    },
    /// The hash is right, and the byte of the pad at place `at` of the padded text isn't zero.
    BadPad {
        secret: u32,
        at: u32,
        byte: u8,
    },
    /// Memory ran out.
    NoMemory,
}

impl From<NoMemory> for RestoreErr {
    ghost use Rattle.std.specs.Prelude.{◌≡◌};
    ghost use Rattle.restore_job.specs.declared.error.RestoreErr.TheVariants.{NoMemory as no_memory};

    ghost from_gives = { λ _ e. e ≡ no_memory };

    fn from(_error: NoMemory) -> RestoreErr {
        RestoreErr::NoMemory
    }
}
