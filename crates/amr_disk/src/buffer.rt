//! Buffers with room for what is to come.
ghost use Rattle.std.specs.Prelude.{◌≡◌, ◌≤◌, ◌<◌, ◌+◌, ◌^◌, ◌-◌, ◌++◌, length, replicate, take, drop, vec_len, vec_capacity, IfOk};
ghost use Rattle.amr_disk.specs.Image.{placed, written_at};

use std::alloc::{AllocError, Global};

// A copy of the bytes, in a buffer with room for more.
pub fn copy_with_room(alloc: Global, bytes: &[u8], capacity: usize) -> Result<Vec<u8>, AllocError>
    ensures items { IfOk result (λ v. v.items ≡ bytes.now) }
    ensures room { IfOk result (λ v. capacity ≤ vec_capacity v) }
{
    let mut copy = Vec::with_capacity(alloc, capacity)?;
    copy.extend_from_slice(bytes)?;
    Ok(copy)
}

// Gives a buffer other bytes, for which it has room.
pub fn refill(buffer: &mut Vec<u8>, bytes: &[u8])
    requires room { length bytes.now ≤ vec_capacity buffer.old }
    ensures items { buffer.new.items ≡ bytes.now }
    ensures room { vec_capacity buffer.old ≤ vec_capacity buffer.new }
{
    buffer.clear();
    append(buffer, bytes);
}

// Makes a buffer longer, where it has room for that.
fn lengthen(buffer: &mut Vec<u8>, end: usize, gap: u8)
    requires room { end ≤ vec_capacity buffer.old }
    requires longer { vec_len buffer.old < end }
    ensures items { buffer.new.items ≡ buffer.old.items ++ replicate (end - vec_len buffer.old) gap }
    ensures room { vec_capacity buffer.old ≤ vec_capacity buffer.new }
{
    match buffer.resize(end, gap) {
        Ok(()) => {}
        Err(_) => unreachable!(),
    }
}

// Writes a chunk over a part of the bytes.
fn overwrite(bytes: &mut [u8], at: usize, chunk: &[u8])
    requires within { at + length chunk.now ≤ length bytes.old }
    ensures { bytes.new ≡ take at bytes.old ++ chunk.now ++ drop (at + length chunk.now) bytes.old }
{
    bytes[at..at + chunk.len()].copy_from_slice(chunk);
}

// Fills a part of the bytes.
fn fill_part(bytes: &mut [u8], at: usize, len: usize, byte: u8)
    requires within { at + len ≤ length bytes.old }
    ensures { bytes.new ≡ take at bytes.old ++ replicate len byte ++ drop (at + len) bytes.old }
{
    bytes[at..at + len].fill(byte);
}

// Writes a chunk into a buffer that has room for it.
pub fn place(buffer: &mut Vec<u8>, at: usize, chunk: &[u8])
    requires room { at + length chunk.now ≤ vec_capacity buffer.old }
    requires small { at + length chunk.now < 2 ^ 64 }
    ensures items { buffer.new.items ≡ written_at at chunk.now buffer.old.items }
    ensures room { vec_capacity buffer.old ≤ vec_capacity buffer.new }
{
    if chunk.len() == 0 {
        return;
    }
    let end = at + chunk.len();
    if buffer.len() < end {
        lengthen(buffer, end, 0);
    }
    overwrite(buffer, at, chunk);
}

// Fills a range of a buffer that has room for it, and a gap before it.
pub fn fill(buffer: &mut Vec<u8>, at: usize, len: usize, byte: u8)
    requires room { at + len ≤ vec_capacity buffer.old }
    requires small { at + len < 2 ^ 64 }
    ensures items { buffer.new.items ≡ placed byte at (replicate len byte) buffer.old.items }
    ensures room { vec_capacity buffer.old ≤ vec_capacity buffer.new }
{
    if len == 0 {
        return;
    }
    let end = at + len;
    if buffer.len() < end {
        lengthen(buffer, end, byte);
    }
    fill_part(buffer, at, len, byte);
}

// Adds to the end of a vector that has room for it.
pub fn append(buffer: &mut Vec<u8>, chunk: &[u8])
    requires room { vec_len buffer.old + length chunk.now ≤ vec_capacity buffer.old }
    ensures items { buffer.new.items ≡ buffer.old.items ++ chunk.now }
    ensures room { vec_capacity buffer.old ≤ vec_capacity buffer.new }
{
    match buffer.extend_from_slice(chunk) {
        Ok(()) => {}
        Err(_) => unreachable!(),
    }
}
