//! What a certificate's lines say.

use session::{CloudNo, Fp, Shape, Tag, UserId, Version};

/// Which cloud a certificate is of.
#[derive(Clone, Copy, PartialEq, Eq)]
pub struct Heading {
    pub shape: Shape,
    /// Below the number of the shape's clouds.
    pub cloud: CloudNo,
}

/// Where a share lies that some user owns: so many bytes of Shares from a place on, which hash to its fingerprint.
#[derive(Clone, Copy)]
pub struct ShareLine {
    pub fp: Fp,
    pub at: u64,
    pub len: u32,
}

/// Where the recipe of a version of a user's file lies: so many bytes of Recipes from a place on, which hash to a
/// fingerprint.
#[derive(Clone, Copy)]
pub struct FileLine {
    pub user: UserId,
    pub tag: Tag,
    pub version: Version,
    pub at: u64,
    pub len: u32,
    pub fp: Fp,
}

/// A line of a certificate.
#[derive(Clone, Copy)]
pub enum CertificateLine {
    /// `audit 1 N K CLOUD`: the first.
    Heading(Heading),
    /// `share FP AT LEN`
    Share(ShareLine),
    /// `file USER TAG VERSION AT LEN FP`
    File(FileLine),
    /// `end COUNT`: the last, with the number of lines between.
    End { count: u32 },
}
