//! A framer: it cuts the bytes that come at their frames.

ghost use Rattle.std.specs.Prelude.{◌≡◌, ◌-◌, ◌≤◌, ◌++◌, length, take, min, vec_capacity, IfSome, IfNone};
ghost use Rattle.cd_base.specs.Reading.{AreBytes};
ghost use Rattle.frames.specs.Frames.{IsFrame, IsFrameOf, length_in};
ghost use Rattle.frames.specs.Standing.{IsStanding};

use crate::{FRAME_LIMIT, is_length};
use byteorder::{BigEndian, ByteOrder};
use cd_base::NoMemory;
use std::alloc::Global;
use std::marker::Model;

/// Why a framer takes no more bytes.
#[derive(Clone, Copy)]
pub enum FrameErr {
    /// In a frame's place stands a length of 0 or above 4,194,304.
    Length {
        /// The number that stands there.
        found: u32,
    },
}

/// The bytes of one frame, as far as they came. Contracts see the list of these bytes; the four bytes of a length that
/// no frame has stand there too, until `reset`.
#[derive(Drop)]
pub struct Framer {
    standing: Vec<u8>,
}

impl Model for Framer {
    ghost use Rattle.std.specs.Prelude.{ℕ, ◌+◌, ◌≤◌, List, length, vec_capacity};
    ghost use Rattle.frames.specs.Frames.{frame_limit};
    ghost use Rattle.frames.specs.Standing.{IsStanding};

    ghost Value = { List ℕ };

    ghost view = { λ f. f.standing.items };

    ghost invariant = { λ f. IsStanding f.standing.items × (4 + frame_limit ≤ vec_capacity f.standing) };
}

impl Framer {
    ghost use Rattle.std.specs.Prelude.{◌≡◌, [], ◌++◌, length, IfOk, IfErr, IfSome, IfNone};
    ghost use Rattle.frames.specs.Frames.{IsFrame, IsFrameOf, IsRefused, length_in};
    ghost use Rattle.frames.specs.Steps.{TakesPiece, RefusesLength};
    ghost use Rattle.frames.specs.Found.{found_of};

    /// No bytes, with memory for a whole frame of 4 MiB. The only error is want of memory.
    pub fn make(alloc: Global) -> Result<Framer, NoMemory>
        ensures empty { IfOk result (λ framer. framer ≡ []) }
        ensures ready { IfOk result (λ framer. ¬ IsFrame framer) }
    {
        let standing = Vec::with_capacity(alloc, 4 + FRAME_LIMIT)?;
        Ok(Framer { standing })
    }

    /// Takes the whole piece, or its bytes up to the end of the first whole frame, and says how many. It takes no memory.
    ///
    /// `Length` comes exactly where a length of 0 or above 4,194,304 stands in the frame's place, and from then on at each
    /// push, until `reset`. The bytes of the piece behind that length are not taken.
    pub fn push(&mut self, piece: &[u8]) -> Result<usize, FrameErr>
        requires { ¬ IsFrame self.old }
        ensures ok { IfOk result (λ count. TakesPiece self.old piece.now count self.new) }
        ensures err { IfErr result (λ error. RefusesLength self.old piece.now (found_of error) self.new) }
        ensures ready { IfErr result (λ _. ¬ IsFrame self.new) }
        ensures again { IsRefused self.old → (result ≡ Err (FrameErr.Length (length_in self.old)))
            × (self.new ≡ self.old) }
    {
        let head = fill(&mut self.standing, piece, 4);
        if self.standing.len() < 4 {
            return Ok(head);
        }
        let found = length_at(self.standing.as_slice());
        if !is_length(found) {
            return Err(FrameErr::Length { found });
        }
        let body = fill(&mut self.standing, &piece[head..], 4 + found as usize);
        Ok(head + body)
    }

    /// The content of the frame that stands whole, or None where none does.
    pub fn whole(&self) -> Option<&[u8]>
        ensures some { IfSome result (λ content. IsFrameOf content.now self.now) }
        ensures none { IfNone result (¬ IsFrame self.now) }
    {
        content_of(self.standing.as_slice())
    }

    /// How many bytes stand in it.
    pub fn len(&self) -> u32
        ensures { result ≡ length self.now }
    {
        standing_len(self.standing.as_slice())
    }

    /// Drops the whole frame, and keeps the memory. Pushes go on behind it.
    pub fn clear(&mut self)
        requires { IsFrame self.old }
        ensures empty { self.new ≡ [] }
        ensures ready { ¬ IsFrame self.new }
    {
        self.reset();
    }

    /// Forgets all bytes taken and a refused length: the framer is as after `make`.
    pub fn reset(&mut self)
        ensures empty { self.new ≡ [] }
        ensures ready { ¬ IsFrame self.new }
    {
        self.standing.clear();
    }
}

// Appends bytes of the piece until `full` bytes stand or the piece ends, and says how many. There is room for them.
fn fill(standing: &mut Vec<u8>, piece: &[u8], full: usize) -> usize
    requires { full ≤ vec_capacity standing.old }
    ensures count { result ≡ min (full - length standing.old.items) (length piece.now) }
    ensures items { standing.new.items ≡ standing.old.items ++ take result piece.now }
    ensures capacity { vec_capacity standing.old ≤ vec_capacity standing.new }
    ensures bytes { AreBytes standing.new.items }
{
    let count = full.saturating_sub(standing.len()).min(piece.len());
    let _ = standing.extend_from_slice(&piece[..count]);
    count
}

// The number in the first four bytes.
fn length_at(standing: &[u8]) -> u32
    requires { 4 ≤ length standing.now }
    ensures { result ≡ length_in standing.now }
{
    BigEndian::read_u32(&standing[..4])
}

// How many bytes stand there: the four of a length, and at most so many as it says.
fn standing_len(standing: &[u8]) -> u32
    requires { IsStanding standing.now }
    ensures { result ≡ length standing.now }
{
    standing.len() as u32
}

// The content of a whole frame.
fn content_of(standing: &[u8]) -> Option<&[u8]>
    requires { IsStanding standing.now }
    ensures some { IfSome result (λ content. IsFrameOf content.now standing.now) }
    ensures none { IfNone result (¬ IsFrame standing.now) }
{
    if standing.len() <= 4 {
        return None;
    }
    let content = &standing[4..];
    if content.len() == length_at(standing) as usize {
        Some(content)
    } else {
        None
    }
}
