//! Whether what a memory keeps has room.

ghost use Rattle.std.specs.Prelude.{◌≡◌, ◌↔◌, ◌≤◌, ◌+◌, ◌*◌, length, IsTrue};
ghost use Rattle.std.specs.List.{sum_by};
ghost use Rattle.record_laws.specs.SpentTable.Spent.{Spent as Row};
ghost use Rattle.fresh_checkpoints.specs.CloudAreas.Chains.{least_shares, least_recipes};
ghost use Rattle.fresh_checkpoints.specs.CloudAreas.Placing.{region_start};
ghost use Rattle.fresh_checkpoints.specs.CloudMemory.Rooms.{memory_of};
ghost use Rattle.cloud_store.specs.CloudOpening.Roomy.{SpendWithin, IsRoomy};
ghost use Rattle.blob_copy.specs.Switched.{IsRowWithin};

use compact_lists::{UserId, UserRooms};
use fresh_checkpoints::{CloudMemory, LEAST_RECIPES, LEAST_SHARES, REGION_LEN};
use record_laws::Spent;

// Whether a row is within a user's rooms.
fn is_row_within(row: Spent, rooms: &UserRooms) -> bool
    ensures { IsTrue result ↔ IsRowWithin rooms.now row }
{
    row.owners <= rooms.owners && row.shares <= rooms.shares && row.recipes <= rooms.recipes
}

// Whether nobody has spent more than it may.
fn are_rows_within(memory: &CloudMemory, rooms: &UserRooms) -> bool
    requires { length memory.now.spent ≡ rooms.now.users }
    ensures { IsTrue result ↔ SpendWithin rooms.now memory.now.spent }
{
    for user in 0..rooms.users {
        let row = memory.spent(UserId(user));
        if !is_row_within(row, rooms) {
            return false;
        }
    }
    true
}

// Whether an end lies no further on in its region than so many bytes and twice what was spent.
fn is_near(end: u64, region: u8, least: u64, spent: u64) -> bool
    requires { least ≤ least_shares }
    ensures { IsTrue result ↔ (end ≤ region_start region + least + 2 * spent) }
{
    let start = u64::from(region) * REGION_LEN;
    end <= (start + least).saturating_add(spent.saturating_mul(2))
}

// Whether the shares end within twice what was spent.
fn shares_fit(memory: &CloudMemory, region: u8) -> bool
    ensures { IsTrue result ↔ (memory.now.shares_end ≤ region_start region + least_shares
        + 2 * sum_by (λ (row : Row). row.shares) memory.now.spent) }
{
    let spent = memory.spent_table().all_shares();
    is_near(memory.shares_end(), region, LEAST_SHARES, spent)
}

// Whether the recipes do.
fn recipes_fit(memory: &CloudMemory, region: u8) -> bool
    ensures { IsTrue result ↔ (memory.now.recipes_end ≤ region_start region + least_recipes
        + 2 * sum_by (λ (row : Row). row.recipes) memory.now.spent) }
{
    let spent = memory.spent_table().all_recipes();
    is_near(memory.recipes_end(), region, LEAST_RECIPES, spent)
}

/// Whether nobody has spent more than it may, and both logs end within what was spent.
pub(crate) fn is_roomy(memory: &CloudMemory, rooms: &UserRooms, region: u8) -> bool
    requires { length memory.now.spent ≡ rooms.now.users }
    ensures { IsTrue result ↔ IsRoomy rooms.now region (memory_of memory.now) }
{
    if !are_rows_within(memory, rooms) {
        return false;
    }
    if !shares_fit(memory, region) {
        return false;
    }
    recipes_fit(memory, region)
}
