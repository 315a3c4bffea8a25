//! Restores from each choice of clouds, and refusals with their values.

use crate::Script;
use crate::cases::{are_below, bytes_of, clouds_of, content, kept, push_clouds};
use cd_base::{Bytes, CloudNo, Clouds, Fp, Shape, UserId, Version, is_path};
use file_recipe::CloudFiles;
use restore_job::{RestoreErr, restore};
use std::alloc::Global;
use std::test::Fail;

const FOUR: Shape = Shape { n: 4, k: 3 };

const FIVE: Shape = Shape { n: 5, k: 2 };

// What restore answers over these replies, and what it appends.
fn outcome_of(
    alloc: Global,
    link: &mut Script,
    clouds: &Clouds,
    out: &mut Bytes,
) -> Result<Option<RestoreErr>, Fail> {
    let shape = link.shape();
    let path = b"a";
    if clouds.len() != shape.k as usize
        || !are_below(shape.n, clouds.as_slice())
        || !is_path(path)
    {
        return Err(Fail::new("no choice of clouds"));
    }
    Ok(restore(alloc, link, shape, UserId(7), path, Version(1), clouds, out).err())
}

fn outcome(
    alloc: Global,
    link: &mut Script,
    numbers: &[u8],
    out: &mut Bytes,
) -> Result<Option<RestoreErr>, Fail> {
    let clouds = clouds_of(alloc, numbers)?;
    outcome_of(alloc, link, &clouds, out)
}

// Whether the file comes back, behind the byte that stood there.
fn is_given(alloc: Global, link: &mut Script, clouds: &[u8], file: &[u8]) -> Result<bool, Fail> {
    let mut out = bytes_of(alloc, &[9])?;
    let refused = outcome(alloc, link, clouds, &mut out)?.is_some();
    let len = file.len().saturating_add(1);
    Ok(
        !refused
            && out.len() == len
            && out.as_slice().starts_with(&[9])
            && out.as_slice().ends_with(file),
    )
}

// Whether a file comes back from these clouds.
fn comes_back(
    alloc: Global,
    shape: Shape,
    files: &CloudFiles,
    clouds: &[u8],
    file: &[u8],
) -> Result<bool, Fail> {
    let mut link = Script::new(alloc, shape);
    push_clouds(alloc, &mut link, files, clouds)?;
    is_given(alloc, &mut link, clouds, file)
}

static OF_FOUR: [&[u8]; 4] = [&[0, 1, 2], &[0, 1, 3], &[0, 2, 3], &[1, 2, 3]];

static OF_FIVE: [&[u8]; 10] = [
    &[0, 1],
    &[0, 2],
    &[0, 3],
    &[0, 4],
    &[1, 2],
    &[1, 3],
    &[1, 4],
    &[2, 3],
    &[2, 4],
    &[3, 4],
];

// Whether a file comes back from each of these choices of clouds.
fn comes_back_from(
    alloc: Global,
    shape: Shape,
    choices: &[&[u8]],
    file: &[u8],
) -> Result<bool, Fail> {
    let files = kept(alloc, shape, file)?;
    let mut well = true;
    for clouds in choices {
        well = comes_back(alloc, shape, &files, clouds, file)? && well;
    }
    Ok(well)
}

// Whether a file of so many bytes comes back from each choice of clouds.
fn is_kept(alloc: Global, len: usize) -> Result<bool, Fail> {
    let file = content(alloc, len)?;
    let four = comes_back_from(alloc, FOUR, &OF_FOUR, file.as_slice())?;
    Ok(four && comes_back_from(alloc, FIVE, &OF_FIVE, file.as_slice())?)
}

#[test]
fn from_each_choice_of_clouds(rt: HostRuntime) -> Result<(), Fail> {
    let mut well = true;
    for len in &[0usize, 1, 2_048, 1_000_000] {
        well = is_kept(rt.alloc(), *len)? && well;
    }
    assert!(rt; well);
    Ok(())
}

// A reply that stands in place of that of clouds 0, 2 and 3 at this place, of which recipes are the first three and shares the others,
// and the refusal.
type Row = (usize, &'static [u8], RestoreErr);

static REFUSALS: [Row; 5] = [
    (1, &[0x88], RestoreErr::Missing { cloud: CloudNo(2) }),
    (5, &[0x8D], RestoreErr::CloudFault { cloud: CloudNo(3) }),
    (
        4,
        &[0x8E, 0, 0, 0, 0, 0, 0, 1, 2, 7],
        RestoreErr::CloudDamaged {
            cloud: CloudNo(2),
            at: 258,
            byte: 7,
        },
    ),
    (
        2,
        &[
            0x8F, 5, 5, 5, 5, 5, 5, 5, 5, 5, 5, 5, 5, 5, 5, 5, 5, 5, 5, 5, 5, 5, 5, 5, 5, 5, 5, 5,
            5, 5, 5, 5, 5, 6, 6, 6, 6, 6, 6, 6, 6, 6, 6, 6, 6, 6, 6, 6, 6, 6, 6, 6, 6, 6, 6, 6, 6,
            6, 6, 6, 6, 6, 6, 6, 6,
        ],
        RestoreErr::CloudRotten {
            cloud: CloudNo(3),
            named: Fp([5; 32]),
            found: Fp([6; 32]),
        },
    ),
    (0, &[0x91], RestoreErr::CloudNoMemory { cloud: CloudNo(0) }),
];

// Whether restore refuses these replies so, and leaves what stood there.
fn is_refused(alloc: Global, link: &mut Script, wanted: RestoreErr) -> Result<bool, Fail> {
    let mut out = bytes_of(alloc, &[9])?;
    let refusal = outcome(alloc, link, &[0, 2, 3], &mut out)?;
    Ok(refusal == Some(wanted) && out.len() == 1 && out.as_slice().starts_with(&[9]))
}

fn is_row(alloc: Global, files: &CloudFiles, row: Row) -> Result<bool, Fail> {
    let (place, reply, wanted) = row;
    let mut link = Script::new(alloc, FOUR);
    push_clouds(alloc, &mut link, files, &[0, 2, 3])?;
    link.replace(place, bytes_of(alloc, reply)?);
    is_refused(alloc, &mut link, wanted)
}

// Whether an ask behind four replies is lost.
fn is_lost(alloc: Global, files: &CloudFiles) -> Result<bool, Fail> {
    let mut link = Script::new(alloc, FOUR);
    push_clouds(alloc, &mut link, files, &[0, 2, 3])?;
    link.cut(4);
    is_refused(alloc, &mut link, RestoreErr::Lost { cloud: CloudNo(2) })
}

fn are_rows(alloc: Global, file: &[u8]) -> Result<bool, Fail> {
    let files = kept(alloc, FOUR, file)?;
    let mut well = is_lost(alloc, &files)?;
    for row in &REFUSALS {
        well = is_row(alloc, &files, *row)? && well;
    }
    Ok(well)
}

#[test]
fn what_a_cloud_answers(rt: HostRuntime) -> Result<(), Fail> {
    let file = content(rt.alloc(), 40_000)?;
    let well = are_rows(rt.alloc(), file.as_slice());
    drop(file);
    assert!(rt; well?);
    Ok(())
}
