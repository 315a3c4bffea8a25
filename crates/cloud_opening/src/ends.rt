//! The ends of both logs, once all records are taken.

ghost use Rattle.std.specs.Prelude.{◌≡◌, ◌↔◌, ◌+◌, ◌*◌, ◌≤◌, Some, IsSome, IsTrue};
ghost use Rattle.cloud_disk.specs.CloudAreas.Chains.{least_shares};
ghost use Rattle.cloud_disk.specs.CloudAreas.Placing.{region_start};
ghost use Rattle.cloud_disk.specs.CommitJournal.errors.OpenErr.TheVariants as answers;
ghost use Rattle.cloud_disk.specs.CommitJournal.Openings.{OnFault};
ghost use Rattle.record_laws.specs.RecordChecks.CloudMemory.Rooms.{memory_of};
ghost use Rattle.record_laws.specs.RecordChecks.damage.Damage.{Damage as Field};
ghost use Rattle.cloud_opening.specs.Exact.{Closes, shares_bound, recipes_bound, number_behind};
ghost use Rattle.cloud_opening.specs.Steps.{IsTraced, IsOfRecords};

use cloud_disk::{LEAST_RECIPES, LEAST_SHARES, OpenErr, REGION_LEN, Start};
use record_laws::{CloudMemory, Damage, Ground, Taking};

// Whether an end lies no further on in its region than so many bytes and twice what was spent.
fn is_within(end: u64, region: u8, least: u64, spent: u64) -> bool
    requires { least ≤ least_shares }
    ensures { IsTrue result ↔ (end ≤ region_start region + least + 2 * spent) }
{
    let start = u64::from(region) * REGION_LEN;
    end <= (start + least).saturating_add(spent.saturating_mul(2))
}

// Whether the shares end within their bound.
fn shares_fit(memory: &CloudMemory, ground: &Ground) -> bool
    ensures { IsTrue result ↔ ((memory_of memory.now).shares_end ≤ shares_bound ground.now (memory_of memory.now)) }
{
    let spent = memory.spent_table().all_shares();
    is_within(memory.shares_end(), ground.region, LEAST_SHARES, spent)
}

// Whether the recipes do.
fn recipes_fit(memory: &CloudMemory, ground: &Ground) -> bool
    ensures { IsTrue result ↔ ((memory_of memory.now).recipes_end ≤ recipes_bound ground.now (memory_of memory.now)) }
{
    let spent = memory.spent_table().all_recipes();
    is_within(memory.recipes_end(), ground.region, LEAST_RECIPES, spent)
}

// The damage of a place field.
fn damaged(field: Option<Damage>) -> OpenErr
    requires { IsSome field }
    ensures { (noted : Field) → field ≡ Some noted → result ≡ answers.Damaged noted.at noted.byte }
{
    match field {
        Some(Damage { at, byte }) => OpenErr::Damaged { at, byte },
        None => unreachable!(),
    }
}

/// Answers the number of commands where both logs end within their bounds, and else the damage of the place of the first blob
/// that ends there.
pub(crate) fn close(
    memory: &CloudMemory,
    taking: &Taking,
    ground: &Ground,
    number: u64,
) -> Result<u64, OpenErr>
    requires { IsTraced ground.now (memory_of memory.now) taking.now }
    ensures closes { Closes ground.now (memory_of memory.now) taking.now number result }
{
    if !shares_fit(memory, ground) {
        return Err(damaged(taking.shares_field()));
    }
    if !recipes_fit(memory, ground) {
        return Err(damaged(taking.recipes_field()));
    }
    Ok(number)
}

/// How many commands there are where so many records stand behind the start.
pub(crate) fn number_of(start: &Start, records: u64) -> u64
    ensures { result ≡ number_behind start.now records }
{
    let behind = records.saturating_sub(u64::from(start.records()));
    start.commands().saturating_add(behind)
}
