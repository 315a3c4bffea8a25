//! Texts in one piece and in many.

use cd_base::{Bytes, NoMemory};
use cd_fakes::MemSink;
use std::alloc::Global;
use std::test::Fail;
use transcript::{Answer, Line, write_line};

// A file of so many bytes.
fn file(alloc: Global, len: usize) -> Result<Bytes, NoMemory> {
    let mut bytes = Bytes::new(alloc);
    bytes.resize(len, 0)?;
    let mut value: u8 = 3;
    for byte in bytes.as_mut_slice().iter_mut() {
        *byte = value;
        value = value.wrapping_mul(5).wrapping_add(7);
    }
    Ok(bytes)
}

// Adds a line of a job and one of a file of so many bytes, so often.
fn push_lines(alloc: Global, text: &mut Answer, len: usize, times: usize) -> Result<(), NoMemory> {
    for _ in 0..times {
        text.push(&Line::Job { job: 1 })?;
        text.push_got(file(alloc, len)?)?;
    }
    Ok(())
}

fn answer(alloc: Global, len: usize, times: usize) -> Result<Answer, NoMemory> {
    let mut text = Answer::new(alloc);
    push_lines(alloc, &mut text, len, times)?;
    Ok(text)
}

// Adds the text of a line of a file, spelled by `transcript`.
fn spell_file(alloc: Global, text: &mut Bytes, len: usize) -> Result<(), NoMemory> {
    let bytes = file(alloc, len)?;
    write_line(&Line::Got { bytes }, text)
}

// The same text as the answer's.
fn spelled(alloc: Global, len: usize, times: usize) -> Result<Bytes, NoMemory> {
    let mut text = Bytes::new(alloc);
    for _ in 0..times {
        write_line(&Line::Job { job: 1 }, &mut text)?;
        spell_file(alloc, &mut text, len)?;
    }
    Ok(text)
}

// How long a file is, how often it comes, the most that the sink takes in a call, and how many calls it gets.
type Row = (usize, usize, usize, u64);

static ROWS: [Row; 9] = [
    (0, 1, 1_000_000, 1),
    (2, 1, 1_000_000, 1),
    (32_768, 1, 1_000_000, 1),
    (32_769, 1, 1_000_000, 4),
    (65_536, 1, 1_000_000, 4),
    (100_000, 1, 1_000_000, 6),
    // stands before what follows
    (3, 2, 1_000_000, 1),
    (40_000, 2, 1_000_000, 4),
    (33_000, 2, 50_000, 6),
];

// Whether the answer goes out to a sink by so many calls.
fn is_written(alloc: Global, sink: &mut MemSink, row: Row) -> Result<bool, NoMemory> {
    let (len, times, _, calls) = row;
    let text = answer(alloc, len, times)?;
    Ok(text.write(sink).is_ok() && sink.count.calls == calls)
}

// Whether this text goes out so.
fn goes_out(alloc: Global, wanted: &[u8], row: Row) -> Result<bool, NoMemory> {
    let (_, _, most, _) = row;
    let mut sink = MemSink::of(alloc, wanted.len(), most.max(1), &[])?;
    Ok(is_written(alloc, &mut sink, row)? && *sink.written() == *wanted)
}

fn is_row(alloc: Global, row: Row) -> Result<bool, NoMemory> {
    let (len, times, _, _) = row;
    let wanted = spelled(alloc, len, times)?;
    goes_out(alloc, wanted.as_slice(), row)
}

#[test]
fn goes_out_in_pieces(rt: HostRuntime) -> Result<(), Fail> {
    let mut well = true;
    for row in &ROWS {
        well = is_row(rt.alloc(), *row)? && well;
    }
    assert!(rt; well);
    Ok(())
}
