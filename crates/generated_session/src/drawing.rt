//! The bytes of a generated file.

ghost use Rattle.std.specs.Prelude.{◌≡◌, ◌++◌, length, OnOk};
ghost use Rattle.generated_session.specs.Drawn.{next_state, drawn, first_state, generation_in, piece_of, file_of};

use lane_steps::{Bytes, NoMemory};

// How many drawn bytes a piece has.
const DRAWN: usize = 1984;

// How many zeros stand behind them.
const ZEROS: usize = 6190;

// Two bytes that end a secret where they stand behind zeros.
const LAST: [u8; 2] = [0x1f, 0xff];

// The state behind this one.
#[tactic(auto, unfolding(crate::specs::Drawn::next_state))]
fn following(state: u64) -> u64
    ensures { result ≡ next_state state }
{
    let first = state ^ (state << 13);
    let second = first ^ (first >> 7);
    second ^ (second << 17)
}

// Where the drawn bytes of a piece begin.
fn beginning(seed: u64, piece: u32, generation: u32) -> u64
    ensures { result ≡ first_state seed piece generation }
{
    let offset = ((piece as u64) << 32) + generation as u64;
    let state = seed.wrapping_add(offset).wrapping_add(1);
    if state == 0 { 1 } else { state }
}

// Writes drawn bytes from this state on into each place.
fn draw(from: u64, out: &mut [u8])
    ensures { out.new ≡ drawn from (length out.old) }
{
    let mut state = from;
    for byte in out.iter_mut() {
        state = following(state);
        *byte = (state & 0xff) as u8;
    }
}

// The generation of a piece in a version.
fn generation_of(version: u32, piece: u32) -> u32
    ensures { result ≡ generation_in version piece }
{
    let behind = (version % 8 + 8 - piece % 8) % 8;
    if behind < version {
        version - behind
    } else {
        0
    }
}

// Appends a piece. For want of memory a part of it may stand there.
fn put_piece(seed: u64, piece: u32, generation: u32, out: &mut Bytes) -> Result<(), NoMemory>
    ensures { OnOk result (out.new ≡ out.old ++ piece_of seed piece generation) }
{
    let zeros = [0; ZEROS];
    let mut random = [0; DRAWN];
    draw(beginning(seed, piece, generation), &mut random);
    out.extend(&seed.to_be_bytes())?;
    out.extend(&piece.to_be_bytes())?;
    out.extend(&generation.to_be_bytes())?;
    out.extend(&random)?;
    out.extend(&zeros)?;
    out.extend(&LAST)
}

/// Makes the file of a version, in place of what was in the buffer. After an error a part of it may stand there.
pub fn make_file(seed: u64, pieces: u32, version: u32, out: &mut Bytes) -> Result<(), NoMemory>
    ensures { OnOk result (out.new ≡ file_of seed pieces version) }
{
    out.clear();
    for piece in 0..pieces {
        put_piece(seed, piece, generation_of(version, piece), out)?;
    }
    Ok(())
}
