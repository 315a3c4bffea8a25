//! Reading the fields of a start, from left to right.

ghost use Rattle.std.specs.Prelude.{◌≡◌, ◌≤◌, ◌==◌, nat_lt};
ghost use Rattle.std.specs.Int.{w32, w64};
ghost use Rattle.message_fields.specs.Grammar.Fields.{number_at};
ghost use Rattle.message_fields.specs.Parts.{kept};
ghost use Rattle.message_fields.specs.Readings.{IsReadingSeenBy};
ghost use Rattle.journal_start.specs.Ranges.{most_shares, is_users, is_within};
ghost use Rattle.journal_start.specs.Reading.{byte_at, letter_at, letters_at, is_format, is_shape, shape_at, cloud_at, front_at, rooms_at, is_epoch, is_region, counts_at, first_checkpoint_at, second_checkpoint_at, plain_or};

use crate::rooms::{MOST_FILES, MOST_OWNERS, MOST_RECIPES, MOST_SHARES, are_users, are_within};
use crate::{Checkpoint, UserRooms};
use message_fields::{CloudNo, Left, Shape, byte_of, u32_of, u64_of};

// One letter, and what follows. Another byte is wrong.
fn letter_of(bytes: &[u8], letter: u8) -> Result<(u8, &[u8]), Left>
    ensures { IsReadingSeenBy (λ x. (x.0, x.1.now)) result (letter_at letter bytes.now) }
{
    let (byte, rest) = byte_of(bytes)?;
    if byte == letter {
        Ok((byte, rest))
    } else {
        Err(Left(bytes.len()))
    }
}

// What follows the four letters.
fn behind_letters(bytes: &[u8]) -> Result<&[u8], Left>
    ensures { IsReadingSeenBy (λ rest. (tt, rest.now)) result (letters_at bytes.now) }
{
    let (_, rest) = letter_of(bytes, b'C')?;
    let (_, rest) = letter_of(rest, b'D')?;
    let (_, rest) = letter_of(rest, b'S')?;
    let (_, rest) = letter_of(rest, b'T')?;
    Ok(rest)
}

// The format, 1 or 2, and what follows.
fn format_of(bytes: &[u8]) -> Result<(u8, &[u8]), Left>
    ensures { IsReadingSeenBy (λ x. (x.0, x.1.now)) result (kept is_format byte_at bytes.now) }
{
    let (format, rest) = byte_of(bytes)?;
    if format == 1 || format == 2 {
        Ok((format, rest))
    } else {
        Err(Left(bytes.len()))
    }
}

// The shape, and what follows. A pair that is none is wrong at its second byte.
fn shape_of(bytes: &[u8]) -> Result<(Shape, &[u8]), Left>
    ensures { IsReadingSeenBy (λ x. ((x.0.n, x.0.k), x.1.now)) result (shape_at bytes.now) }
{
    let (n, rest) = byte_of(bytes)?;
    let (k, after) = byte_of(rest)?;
    match Shape::of(n, k) {
        Some(shape) => Ok((shape, after)),
        None => Err(Left(rest.len())),
    }
}

// The shape and the cloud, and what follows. A cloud that isn't below n is wrong.
fn cloud_of(bytes: &[u8]) -> Result<((Shape, CloudNo), &[u8]), Left>
    ensures { IsReadingSeenBy (λ x. (((x.0.0.n, x.0.0.k), x.0.1.0), x.1.now)) result (cloud_at bytes.now) }
{
    let (shape, rest) = shape_of(bytes)?;
    let (cloud, after) = byte_of(rest)?;
    if cloud < shape.n {
        Ok(((shape, CloudNo(cloud)), after))
    } else {
        Err(Left(rest.len()))
    }
}

/// The format, the shape and the cloud, and what follows.
#[tactic(auto, unfolding(crate::specs::Reading::front_at))]
pub fn front_of(bytes: &[u8]) -> Result<((u8, Shape, CloudNo), &[u8]), Left>
    ensures { IsReadingSeenBy (λ x. ((tt, (x.0.0, ((x.0.1.n, x.0.1.k), x.0.2.0))), x.1.now)) result
        (front_at bytes.now) }
{
    let rest = behind_letters(bytes)?;
    let (format, rest) = format_of(rest)?;
    let ((shape, cloud), rest) = cloud_of(rest)?;
    Ok(((format, shape, cloud), rest))
}

// The number of users, and what follows.
fn users_of(bytes: &[u8]) -> Result<(u32, &[u8]), Left>
    ensures { IsReadingSeenBy (λ x. (x.0, x.1.now)) result (kept is_users (number_at w32) bytes.now) }
{
    let (users, rest) = u32_of(bytes)?;
    if are_users(users) {
        Ok((users, rest))
    } else {
        Err(Left(bytes.len()))
    }
}

// A room of 8 bytes, and what follows.
fn long_room_of(bytes: &[u8], most: u64, users: u32) -> Result<(u64, &[u8]), Left>
    requires { most ≤ most_shares }
    ensures { IsReadingSeenBy (λ x. (x.0, x.1.now)) result (kept (is_within most users) (number_at w64) bytes.now) }
{
    let (each, rest) = u64_of(bytes)?;
    if are_within(most, users, each) {
        Ok((each, rest))
    } else {
        Err(Left(bytes.len()))
    }
}

// A room of 4 bytes, and what follows.
fn room_of(bytes: &[u8], most: u64, users: u32) -> Result<(u32, &[u8]), Left>
    requires { most ≤ most_shares }
    ensures { IsReadingSeenBy (λ x. (x.0, x.1.now)) result (kept (is_within most users) (number_at w32) bytes.now) }
{
    let (each, rest) = u32_of(bytes)?;
    if are_within(most, users, each as u64) {
        Ok((each, rest))
    } else {
        Err(Left(bytes.len()))
    }
}

/// The rooms, and what follows. The first that breaks its range or its product is wrong.
#[tactic(auto, unfolding(crate::specs::Reading::rooms_at))]
pub fn rooms_of(bytes: &[u8]) -> Result<(UserRooms, &[u8]), Left>
    ensures { IsReadingSeenBy (λ x. (x.0, x.1.now)) result (rooms_at bytes.now) }
{
    let (users, rest) = users_of(bytes)?;
    let (shares, rest) = long_room_of(rest, MOST_SHARES, users)?;
    let (recipes, rest) = long_room_of(rest, MOST_RECIPES, users)?;
    let (owners, rest) = room_of(rest, MOST_OWNERS, users)?;
    let (files, rest) = room_of(rest, MOST_FILES, users)?;
    let rooms = UserRooms {
        users,
        shares,
        recipes,
        owners,
        files,
    };
    Ok((rooms, rest))
}

// An epoch, 0 to 2, and what follows.
fn epoch_in(bytes: &[u8]) -> Result<(u64, &[u8]), Left>
    ensures { IsReadingSeenBy (λ x. (x.0, x.1.now)) result (kept is_epoch (number_at w64) bytes.now) }
{
    let (epoch, rest) = u64_of(bytes)?;
    if epoch <= 2 {
        Ok((epoch, rest))
    } else {
        Err(Left(bytes.len()))
    }
}

// The epoch, the commands and the records, and what follows.
fn counts_of(bytes: &[u8]) -> Result<((u64, u64, u32), &[u8]), Left>
    ensures { IsReadingSeenBy (λ x. ((x.0.0, (x.0.1, x.0.2)), x.1.now)) result (counts_at bytes.now) }
{
    let (epoch, rest) = epoch_in(bytes)?;
    let (commands, rest) = u64_of(rest)?;
    let (records, rest) = u32_of(rest)?;
    Ok(((epoch, commands, records), rest))
}

// A region, 0 or 1, and what follows.
fn region_in(bytes: &[u8]) -> Result<(u8, &[u8]), Left>
    ensures { IsReadingSeenBy (λ x. (x.0, x.1.now)) result (kept is_region byte_at bytes.now) }
{
    let (region, rest) = byte_of(bytes)?;
    if region <= 1 {
        Ok((region, rest))
    } else {
        Err(Left(bytes.len()))
    }
}

// A checkpoint in format 1, and what follows.
#[tactic(auto, unfolding(crate::specs::Reading::first_checkpoint_at))]
fn first_checkpoint_of(bytes: &[u8]) -> Result<(Checkpoint, &[u8]), Left>
    ensures { IsReadingSeenBy (λ x. (x.0, x.1.now)) result (first_checkpoint_at bytes.now) }
{
    let ((epoch, commands, records), rest) = counts_of(bytes)?;
    let (recipes_end, rest) = u64_of(rest)?;
    let checkpoint = Checkpoint {
        epoch,
        commands,
        records,
        region: 0,
        recipes_end,
    };
    Ok((checkpoint, rest))
}

// A checkpoint in format 2, and what follows.
#[tactic(auto, unfolding(crate::specs::Reading::second_checkpoint_at))]
fn second_checkpoint_of(bytes: &[u8]) -> Result<(Checkpoint, &[u8]), Left>
    ensures { IsReadingSeenBy (λ x. (x.0, x.1.now)) result (second_checkpoint_at bytes.now) }
{
    let ((epoch, commands, records), rest) = counts_of(bytes)?;
    let (region, rest) = region_in(rest)?;
    let checkpoint = Checkpoint {
        epoch,
        commands,
        records,
        region,
        recipes_end: 0,
    };
    Ok((checkpoint, rest))
}

/// What stands behind a header of format 1, and what follows: nothing, in half 0 alone, or a checkpoint.
#[tactic(auto, unfolding(crate::specs::Reading::plain_or))]
pub fn first_behind(half: u8, bytes: &[u8]) -> Result<(Option<Checkpoint>, &[u8]), Left>
    ensures { IsReadingSeenBy (λ x. (x.0, x.1.now)) result (plain_or half first_checkpoint_at bytes.now) }
{
    match bytes {
        [] if half == 0 => Ok((None, bytes)),
        _ => {
            let (checkpoint, rest) = first_checkpoint_of(bytes)?;
            Ok((Some(checkpoint), rest))
        }
    }
}

/// What stands behind a header of format 2, and what follows: nothing, in half 0 alone, or a checkpoint.
#[tactic(auto, unfolding(crate::specs::Reading::plain_or))]
pub fn second_behind(half: u8, bytes: &[u8]) -> Result<(Option<Checkpoint>, &[u8]), Left>
    ensures { IsReadingSeenBy (λ x. (x.0, x.1.now)) result (plain_or half second_checkpoint_at bytes.now) }
{
    match bytes {
        [] if half == 0 => Ok((None, bytes)),
        _ => {
            let (checkpoint, rest) = second_checkpoint_of(bytes)?;
            Ok((Some(checkpoint), rest))
        }
    }
}
