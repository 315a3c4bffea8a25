//! What a restore from any three of five clouds asks past one that is damaged or fails.

use crate::Script;
use crate::cases::Answer::{Content, Recipe, Shares};
use crate::cases::{Answer, are_below, bytes_of, clouds_of, content, kept, push_all};
use cd_base::{Bytes, Clouds, Shape, UserId, Version, is_path};
use file_recipe::CloudFiles;
use std::alloc::Global;
use std::test::Fail;
use subset_restore::restore_any;

const SHAPE: Shape = Shape { n: 5, k: 3 };

const DAMAGED: Answer = Content(&[0x8E, 0, 0, 0, 0, 0, 0, 1, 2, 7]);

const FAULT: Answer = Content(&[0x8D]);

// The replies to the asks in their order: so a cloud that is asked out of it gives another cloud's.
const ROWS: [&[Answer]; 5] = [
    // three recipes, and three times shares
    &[
        Recipe(0),
        Recipe(1),
        Recipe(2),
        Shares(0),
        Shares(1),
        Shares(2),
    ],
    // the recipes up to the bad one, and all again
    &[
        DAMAGED,
        Recipe(1),
        Recipe(2),
        Recipe(3),
        Shares(1),
        Shares(2),
        Shares(3),
    ],
    &[
        Recipe(0),
        Recipe(1),
        DAMAGED,
        Recipe(0),
        Recipe(1),
        Recipe(3),
        Shares(0),
        Shares(1),
        Shares(3),
    ],
    // the recipes, the shares up to the bad ones, and all again
    &[
        Recipe(0),
        Recipe(1),
        Recipe(2),
        FAULT,
        Recipe(1),
        Recipe(2),
        Recipe(3),
        Shares(1),
        Shares(2),
        Shares(3),
    ],
    &[
        Recipe(0),
        Recipe(1),
        Recipe(2),
        Shares(0),
        Shares(1),
        FAULT,
        Recipe(0),
        Recipe(1),
        Recipe(3),
        Shares(0),
        Shares(1),
        Shares(3),
    ],
];

// Whether restore gives something.
fn is_given(alloc: Global, link: &mut Script, clouds: &Clouds, out: &mut Bytes) -> bool {
    let shape = link.shape();
    let path = b"a";
    if clouds.len() < shape.k as usize || !are_below(shape.n, clouds.as_slice()) || !is_path(path) {
        return false;
    }
    restore_any(alloc, link, shape, UserId(7), path, Version(1), clouds, out).is_ok()
}

// Whether a file comes back from five clouds over these replies.
fn comes_back(alloc: Global, link: &mut Script, file: &[u8]) -> Result<bool, Fail> {
    let clouds = clouds_of(alloc, &[0, 1, 2, 3, 4])?;
    let mut out = bytes_of(alloc, &[])?;
    Ok(is_given(alloc, link, &clouds, &mut out) && *out.as_slice() == *file)
}

// Whether it comes back by all of these replies and no others.
fn is_row(
    alloc: Global,
    files: &CloudFiles,
    answers: &[Answer],
    file: &[u8],
) -> Result<bool, Fail> {
    let mut link = Script::new(alloc, SHAPE);
    push_all(alloc, &mut link, files, answers)?;
    Ok(comes_back(alloc, &mut link, file)? && link.left() == 0)
}

fn are_rows(alloc: Global, file: &[u8]) -> Result<bool, Fail> {
    let files = kept(alloc, SHAPE, file)?;
    let mut well = true;
    for answers in ROWS {
        well = is_row(alloc, &files, answers, file)? && well;
    }
    Ok(well)
}

#[test]
fn asks_past_a_bad_cloud(rt: HostRuntime) -> Result<(), Fail> {
    let file = content(rt.alloc(), 100)?;
    let well = are_rows(rt.alloc(), file.as_slice());
    drop(file);
    assert!(rt; well?);
    Ok(())
}
