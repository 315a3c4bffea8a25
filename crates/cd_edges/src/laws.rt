//! What the definitions of the disk model mean, as laws.

ghost use Rattle.std.specs.Prelude.{◌≡◌, ℕ, ◌+◌, ◌<◌, ◌≤◌, ◌↔◌, max, List, length, slice_index};
ghost use Rattle.cd_edges.specs.Disk.{Store, Cloud, Image, MayLeave, IsImage, IsImageSince, moment, overwritten};
ghost use Rattle.cd_edges.specs.Shelf.{wrote, stable};

/// An image now is an image since now, and an image since a moment is one since each earlier moment.
pub fn law_of_images()
    ensures now { (cloud : Cloud) (image : Image) → IsImage cloud.now image → IsImageSince cloud (moment cloud) image }
    ensures earlier { (cloud : Cloud) (early late : ℕ) (image : Image) → early ≤ late → IsImageSince cloud late image
        → IsImageSince cloud early image }
{}

/// A stable area has one image, what it reads. A write takes none of an area's images away.
pub fn law_of_stable()
    ensures one { (bytes image : List ℕ) → MayLeave (stable bytes) image ↔ (image ≡ bytes) }
    ensures more { (store : Store) (place : ℕ) (bytes image : List ℕ) → MayLeave store image
        → MayLeave (wrote store place bytes) image }
{}

/// A write puts its bytes at their place, fills a gap with zeros, and keeps every other byte.
pub fn law_of_overwriting()
    ensures len { (old : List ℕ) (place : ℕ) (bytes : List ℕ)
        → length (overwritten old place bytes) ≡ max (place + length bytes) (length old) }
    ensures inside { (old : List ℕ) (place : ℕ) (bytes : List ℕ) (k : ℕ) → k < length bytes
        → slice_index (overwritten old place bytes) (place + k) ≡ slice_index bytes k }
    ensures before { (old : List ℕ) (place : ℕ) (bytes : List ℕ) (k : ℕ) → k < place
        → slice_index (overwritten old place bytes) k ≡ slice_index old k }
    ensures after { (old : List ℕ) (place : ℕ) (bytes : List ℕ) (k : ℕ) → place + length bytes ≤ k
        → slice_index (overwritten old place bytes) k ≡ slice_index old k }
{}
