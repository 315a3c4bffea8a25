//! What was read of the area of recipes last, so that recipes that lie near one another are read by one device call.

ghost use Rattle.std.specs.Prelude.{◌≡◌, ◌+◌, ◌≤◌, length, take, drop, IsTrue, IfOk, IfSome, OnOk, OnErr};
ghost use Rattle.cloud_disk.specs.CdEdges.area.Area.{Area};
ghost use Rattle.cloud_disk.specs.CdEdges.Shelf.{IsCall, HasFailed, KeepsCounts, Stays};
ghost use Rattle.cloud_opening.specs.Windows.{IsFrontOfWindow, ShowsWindow};

use cloud_disk::{Area, CloudNo, Failed, Place, Shelf};

// How many bytes are read ahead for each that was taken of what was read before.
const AHEAD: usize = 4;

/// What a buffer has of the area of recipes: so many bytes in front, those from this place of the area on. So many bytes were
/// taken of them, as often as each was.
#[derive(Clone, Copy)]
pub(crate) struct Window {
    at: u64,
    len: usize,
    taken: usize,
}

/// Where bytes lie in a buffer: so many, from there on.
#[derive(Clone, Copy)]
pub(crate) struct Part {
    from: usize,
    len: usize,
}

impl Part {
    /// The bytes.
    pub(crate) fn of(self, buffer: &[u8]) -> &[u8]
        requires { self.from + self.len ≤ length buffer.now }
        ensures { result.now ≡ take self.len (drop self.from buffer.now) }
    {
        &buffer[self.from..self.from + self.len]
    }
}

// Reads so many bytes of the area of recipes into the front of a buffer, and answers how many there are.
fn fetch<V: Shelf>(
    shelf: &mut V,
    cloud: CloudNo,
    at: u64,
    len: usize,
    buffer: &mut [u8],
) -> Result<usize, Failed>
    requires { len ≤ length buffer.old }
    ensures bytes { IsTrue (V.cloud_at shelf.old cloud.0).told → IfOk result (λ count.
        IsFrontOfWindow ((V.cloud_at shelf.old cloud.0).now Area.Recipes).read at len count buffer.new) }
    ensures bound { IfOk result (λ count. count ≤ length buffer.new) }
    ensures stays { Stays (V.cloud_at shelf.old cloud.0) (V.cloud_at shelf.new cloud.0) }
    ensures call { IsCall (V.cloud_at shelf.old) (V.cloud_at shelf.new) cloud.0 (V.faults shelf.old)
        (V.faults shelf.new) }
    ensures failed { OnErr result
        (HasFailed (V.cloud_at shelf.old cloud.0) (V.cloud_at shelf.new cloud.0) (V.faults shelf.old)
        (V.faults shelf.new)) }
    ensures uncounted { OnOk result
        (KeepsCounts (V.cloud_at shelf.old cloud.0) (V.cloud_at shelf.new cloud.0) (V.faults shelf.old)
        (V.faults shelf.new)) }
{
    let (front, _) = buffer.split_at_mut(len);
    match shelf.read(cloud, Area::Recipes, at, front) {
        Ok(count) => Ok(count),
        Err(Failed) => Err(Failed),
    }
}

impl Window {
    /// Nothing was read yet.
    pub(crate) fn new() -> Window
        ensures { result ≡ record { at = 0; len = 0; taken = 0 } }
    {
        Window {
            at: 0,
            len: 0,
            taken: 0,
        }
    }

    // Where in the buffer what lies at this place begins, if the window has all of it.
    fn find(&self, place: &Place) -> Option<usize>
        ensures { IfSome result (λ from. (place.now.at ≡ self.now.at + from)
            × (from + place.now.len ≤ self.now.len)) }
    {
        let from = place.at.checked_sub(self.at)?;
        let left = (self.len as u64).checked_sub(from)?;
        if u64::from(place.len) <= left {
            Some(from as usize)
        } else {
            None
        }
    }

    // How many bytes are to be read for so many, into a buffer of this length: more where more was taken of those before.
    fn ahead(&self, len: u32, room: usize) -> usize
        requires { len ≤ room }
        ensures { (len ≤ result) × (result ≤ room) }
    {
        let more = self.taken.saturating_mul(AHEAD);
        more.saturating_add(len as usize).min(room)
    }

    /// Answers where in the buffer that is which lies at a place of the area of recipes, fewer bytes where the area ends there.
    /// Where the buffer hasn't all of it, it is read by one device call, and with it some of what lies behind: four bytes for
    /// each that was taken of what was read before, as far as the buffer holds them.
    pub(crate) fn look<V: Shelf>(
        &mut self,
        shelf: &mut V,
        cloud: CloudNo,
        place: &Place,
        buffer: &mut [u8],
    ) -> Result<Part, Failed>
        requires shows { ShowsWindow (V.cloud_at shelf.old cloud.0) self.old buffer.old }
        requires room { place.now.len ≤ length buffer.old }
        ensures bytes { IsTrue (V.cloud_at shelf.old cloud.0).told → IfOk result (λ part.
            take part.len (drop part.from buffer.new)
            ≡ take place.now.len (drop place.now.at ((V.cloud_at shelf.old cloud.0).now Area.Recipes).read)) }
        ensures inside { IfOk result (λ part. part.from + part.len ≤ length buffer.new) }
        ensures few { IfOk result (λ part. part.len ≤ place.now.len) }
        ensures shows { ShowsWindow (V.cloud_at shelf.new cloud.0) self.new buffer.new }
        ensures stays { Stays (V.cloud_at shelf.old cloud.0) (V.cloud_at shelf.new cloud.0) }
        ensures call { IsCall (V.cloud_at shelf.old) (V.cloud_at shelf.new) cloud.0 (V.faults shelf.old)
            (V.faults shelf.new) }
        ensures failed { OnErr result
            (HasFailed (V.cloud_at shelf.old cloud.0) (V.cloud_at shelf.new cloud.0) (V.faults shelf.old)
            (V.faults shelf.new)) }
        ensures uncounted { OnOk result
            (KeepsCounts (V.cloud_at shelf.old cloud.0) (V.cloud_at shelf.new cloud.0) (V.faults shelf.old)
            (V.faults shelf.new)) }
    {
        match self.find(place) {
            Some(from) => {
                self.taken = self.taken.saturating_add(place.len as usize);
                Ok(Part {
                    from,
                    len: place.len as usize,
                })
            }
            None => {
                let len = self.ahead(place.len, buffer.len());
                self.len = 0;
                match fetch(shelf, cloud, place.at, len, buffer) {
                    Ok(count) => {
                        *self = Window {
                            at: place.at,
                            len: count,
                            taken: place.len as usize,
                        };
                        Ok(Part {
                            from: 0,
                            len: count.min(place.len as usize),
                        })
                    }
                    Err(Failed) => Err(Failed),
                }
            }
        }
    }
}
