//! Why a restore gave no file, as a line says it.

ghost use Rattle.std.specs.Prelude.{◌≡◌};
ghost use Rattle.subset_restore.specs.Refusals.{refusal_of};

use restore_job::RestoreErr;
use transcript::Refusal;

/// Why a file wasn't restored, as a line says it. None for want of memory here, which no line says.
pub fn as_refusal(error: RestoreErr) -> Option<Refusal>
    ensures { result ≡ refusal_of error }
{
    match error {
        RestoreErr::Missing { cloud } => Some(Refusal::Missing { cloud }),
        RestoreErr::Lost { cloud } => Some(Refusal::Lost { cloud }),
        RestoreErr::CloudFault { cloud } => Some(Refusal::Fault { cloud }),
        RestoreErr::CloudDamaged { cloud, at, byte } => Some(Refusal::Damaged { cloud, at, byte }),
        RestoreErr::CloudRotten {
            cloud,
            named,
            found,
        } => Some(Refusal::Rotten {
            cloud,
            named,
            found,
        }),
        RestoreErr::CloudNoMemory { cloud } => Some(Refusal::NoMemory { cloud }),
        RestoreErr::Strange { cloud, kind } => Some(Refusal::Strange { cloud, kind }),
        RestoreErr::RecipesDiffer {
            cloud_a,
            cloud_b,
            place,
        } => Some(Refusal::RecipesDiffer {
            cloud_a,
            cloud_b,
            place,
        }),
        RestoreErr::ShareLength {
            cloud,
            secret,
            found,
            wanted,
        } => Some(Refusal::ShareLength {
            cloud,
            secret,
            found,
            wanted,
        }),
        RestoreErr::BadShare {
            cloud,
            secret,
            named,
            found,
        } => Some(Refusal::BadShare {
            cloud,
            secret,
            named,
            found,
        }),
        RestoreErr::BadSecret {
            secret,
            named,
            found,
        } => Some(Refusal::BadSecret {
            secret,
            named,
            found,
        }),
        RestoreErr::BadPad { secret, at, byte } => Some(Refusal::BadPad { secret, at, byte }),
        RestoreErr::NoMemory => None,
    }
}
