//! The places of a batch's shares, in the order of their lengths.
ghost use Rattle.std.specs.Prelude.{◌≡◌, ℕ, ◌<◌, ◌≤◌, length, All};
ghost use Rattle.share_digests.specs.Digests.{HasAllPlaces, place_at};

// Writes the length and the place of each share.
fn write_places(parts: &[&[u8]], order: &mut [(usize, usize)])
    requires { length order.old ≤ length parts.now }
    ensures all { HasAllPlaces (length order.old) order.new }
    ensures below { All (λ pair. pair.1 < length order.old) order.new }
    ensures len { length order.new ≡ length order.old }
{
    'places: for place in 0..order.len() {
        order[place] = (parts[place].len(), place);
    }
}

// Sorts places by the lengths in front of them.
fn sort(order: &mut [(usize, usize)])
    ensures all { (places : ℕ) → HasAllPlaces places order.old → HasAllPlaces places order.new }
    ensures below { (places : ℕ) → All (λ pair. pair.1 < places) order.old → All (λ pair. pair.1 < places) order.new }
    ensures len { length order.new ≡ length order.old }
{
    order.sort_unstable();
}

/// Writes the places of shares, each behind its length, in the order of the lengths.
pub(crate) fn write_order(parts: &[&[u8]], order: &mut [(usize, usize)])
    requires { length order.old ≤ length parts.now }
    ensures all { HasAllPlaces (length order.old) order.new }
    ensures below { All (λ pair. pair.1 < length order.old) order.new }
    ensures len { length order.new ≡ length order.old }
{
    write_places(parts, order);
    sort(order);
}

/// The place that stands at an index.
pub(crate) fn index_at(order: &[(usize, usize)], index: usize) -> usize
    requires { index < length order.now }
    ensures value { result ≡ place_at order.now index }
    ensures below { (places : ℕ) → All (λ pair. pair.1 < places) order.now → result < places }
{
    order[index].1
}
