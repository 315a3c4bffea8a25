//! Reading the bodies of a spool's records.

ghost use Rattle.std.specs.Prelude.{◌≡◌, ◌==◌, Ok, Err, MatchResult};
ghost use Rattle.std.specs.List.{list_any};
ghost use Rattle.std.specs.Int.{w16, w64};
ghost use Rattle.grammar.specs.Fields.{number_at, checked};
ghost use Rattle.upload_job.specs.MessageFields.Parts.{kept};
ghost use Rattle.upload_job.specs.MessageFields.Readings.{IsReadingSeenBy};
ghost use Rattle.upload_spool.specs.Reading.{one_byte, is_kind, is_lane, is_path_len, has_no_zero, is_file_len, path_at, job_at, lane_at, wrong_at, job_in, lane_in, fields_of};

use grammar::{CloudNo, FILE_LIMIT, Fp, PATH_LIMIT, Shape, UserId, Version};
use upload_job::{Left, byte_of, bytes_of, fp_of, u16_of, u64_of, user_of};

/// Why a body isn't that of a spool's next record.
#[derive(Clone, Copy)]
pub enum RecordFault {
    /// A field lacks bytes.
    Short,
    /// A field is wrong, or all fields are read and bytes are left: the place in the body, and the byte there.
    Wrong { place: usize, byte: u8 },
}

/// What a job's record says.
#[derive(Clone, Copy)]
pub struct JobRecord<'a> {
    /// The user.
    pub user: UserId,
    /// The number of the version.
    pub version: Version,
    /// The file's path.
    pub path: &'a [u8],
    /// How many bytes the file has.
    pub len: u64,
    /// Its SHA-256.
    pub digest: Fp,
}

// A kind, and what follows it. Another kind is wrong.
fn kind_of(bytes: &[u8], kind: u8) -> Result<(u8, &[u8]), Left>
    ensures { IsReadingSeenBy (λ x. (x.0, x.1.now)) result (kept (is_kind kind) one_byte bytes.now) }
{
    let (byte, rest) = byte_of(bytes)?;
    if byte == kind {
        Ok((byte, rest))
    } else {
        Err(Left(bytes.len()))
    }
}

// Whether none of the bytes is zero.
fn are_not_zero(bytes: &[u8]) -> bool
    ensures { result ≡ has_no_zero bytes.now }
{
    bytes.iter().all(|byte| *byte != 0)
}

// The length of a path, 1 to 1,024, and what follows it.
fn path_len_of(bytes: &[u8]) -> Result<(u16, &[u8]), Left>
    ensures { IsReadingSeenBy (λ x. (x.0, x.1.now)) result (checked is_path_len (number_at w16) bytes.now) }
{
    let (len, rest) = u16_of(bytes)?;
    if 1 <= len && len as usize <= PATH_LIMIT {
        Ok((len, rest))
    } else {
        Err(Left(bytes.len()))
    }
}

// A path with its length, and what follows it. One with a zero is wrong at its first place.
#[tactic(auto, unfolding(crate::specs::Reading::path_at))]
fn path_of(bytes: &[u8]) -> Result<(&[u8], &[u8]), Left>
    ensures { IsReadingSeenBy (λ x. (x.0.now, x.1.now)) result (path_at bytes.now) }
{
    let (len, rest) = path_len_of(bytes)?;
    let (path, after) = bytes_of(rest, len as usize)?;
    if are_not_zero(path) {
        Ok((path, after))
    } else {
        Err(Left(rest.len()))
    }
}

// The length of a file, at most 67,108,864, and what follows it.
fn file_len_of(bytes: &[u8]) -> Result<(u64, &[u8]), Left>
    ensures { IsReadingSeenBy (λ x. (x.0, x.1.now)) result (checked is_file_len (number_at w64) bytes.now) }
{
    let (len, rest) = u64_of(bytes)?;
    if len <= FILE_LIMIT as u64 {
        Ok((len, rest))
    } else {
        Err(Left(bytes.len()))
    }
}

// What a job's record says, and what follows it.
#[tactic(auto, unfolding(crate::specs::Reading::job_at))]
fn job_of(bytes: &[u8]) -> Result<(JobRecord<'_>, &[u8]), Left>
    ensures { IsReadingSeenBy (λ x. (fields_of x.0, x.1.now)) result (job_at bytes.now) }
{
    let (_, rest) = kind_of(bytes, 1)?;
    let (user, rest) = user_of(rest)?;
    let (version, rest) = u64_of(rest)?;
    let (path, rest) = path_of(rest)?;
    let (len, rest) = file_len_of(rest)?;
    let (digest, rest) = fp_of(rest)?;
    let job = JobRecord {
        user,
        version: Version(version),
        path,
        len,
        digest,
    };
    Ok((job, rest))
}

// Whether a cloud is one of those that were noted.
pub(crate) fn is_noted(noted: &[CloudNo], cloud: u8) -> bool
    ensures { result ≡ list_any (λ lane. lane.0 == cloud) noted.now }
{
    noted.iter().any(|lane| lane.0 == cloud)
}

// Whether a cloud is below n, and none of those that were noted.
fn is_new(shape: Shape, noted: &[CloudNo], cloud: u8) -> bool
    ensures { result ≡ is_lane shape noted.now cloud }
{
    cloud < shape.n && !is_noted(noted, cloud)
}

// A cloud below n that wasn't noted, and what follows it.
fn new_lane_of<'a>(bytes: &'a [u8], shape: Shape, noted: &[CloudNo]) -> Result<(u8, &'a [u8]), Left>
    ensures { IsReadingSeenBy (λ x. (x.0, x.1.now)) result (kept (is_lane shape noted.now) one_byte bytes.now) }
{
    let (cloud, rest) = byte_of(bytes)?;
    if is_new(shape, noted, cloud) {
        Ok((cloud, rest))
    } else {
        Err(Left(bytes.len()))
    }
}

// The cloud of a lane's record, and what follows it.
#[tactic(auto, unfolding(crate::specs::Reading::lane_at))]
fn lane_of<'a>(bytes: &'a [u8], shape: Shape, noted: &[CloudNo]) -> Result<(u8, &'a [u8]), Left>
    ensures { IsReadingSeenBy (λ x. (x.0, x.1.now)) result (lane_at shape noted.now bytes.now) }
{
    let (_, rest) = kind_of(bytes, 2)?;
    new_lane_of(rest, shape, noted)
}

// What is wrong, where so many bytes are left.
fn wrong(bytes: &[u8], left: usize) -> RecordFault
    ensures { result ≡ wrong_at bytes.now left }
{
    let place = bytes.len().saturating_sub(left);
    let byte = match bytes.get(place) {
        Some(byte) => *byte,
        None => 0,
    };
    RecordFault::Wrong { place, byte }
}

/// The job that these bytes are, all of them. Fields are read in order, and the first that fails gives the error: `Short` comes
/// exactly where it lacks bytes, and `Wrong` where its bytes are there and wrong, with its first place, or where all fields are
/// read and bytes are left, with the place of the first of them. The kind is 1, the path has 1 to 1,024 bytes, none of them
/// zero, and the file at most 67,108,864.
pub fn read_job(body: &[u8]) -> Result<JobRecord<'_>, RecordFault>
    ensures { MatchResult result (λ job. job_in body.now ≡ Ok (fields_of job)) (λ fault. job_in body.now ≡ Err fault) }
{
    match job_of(body) {
        Ok((job, [])) => Ok(job),
        Ok((_, rest)) => Err(wrong(body, rest.len())),
        Err(Left(0)) => Err(RecordFault::Short),
        Err(Left(left)) => Err(wrong(body, left)),
    }
}

/// The lane that these bytes note, all of them, behind the lanes that were noted; errors as for `read_job`. The kind is 2, and
/// the cloud is below n and none of those that were noted.
pub fn read_lane(body: &[u8], shape: Shape, noted: &[CloudNo]) -> Result<CloudNo, RecordFault>
    ensures { MatchResult result (λ lane. lane_in shape noted.now body.now ≡ Ok lane.0)
        (λ fault. lane_in shape noted.now body.now ≡ Err fault) }
{
    match lane_of(body, shape, noted) {
        Ok((cloud, [])) => Ok(CloudNo(cloud)),
        Ok((_, rest)) => Err(wrong(body, rest.len())),
        Err(Left(0)) => Err(RecordFault::Short),
        Err(Left(left)) => Err(wrong(body, left)),
    }
}
