// Bytes in lent buffers and in fixed memory: stored one after the other and counted where there is no room, copied, and wiped.
#![tactic(auto)]

mod tally;

ghost use Rattle.std.specs.Prelude.{◌≡◌, ◌++◌, ◌+◌, ◌<◌, ◌≤◌, length, take, drop, replicate, set};
ghost use Rattle.std.proofs.lemmas.List.Edits.{sets};
ghost use Rattle.rules.specs.Limits.{count_limit, wiped, filled};
ghost use Rattle.buffers.specs.Wrote.{Wrote, op_if};

pub use tally::Tally;

// One byte more: stored where there is room.
pub fn emit(bytes: &mut [u8], n: usize, b: u8)
    ensures { bytes.new ≡ set bytes.old n b }
{
    if n < bytes.len() {
        bytes[n] = b;
    }
}

// One byte more, if it is to be; the count after it.
pub fn emit_if(bytes: &mut [u8], n: usize, so: bool, b: u8) -> usize
    requires { n < count_limit }
    ensures { Wrote n bytes.old result bytes.new (op_if so b) }
{
    if so {
        emit(bytes, n, b);
        return n + 1;
    }
    n
}

// The same byte so many times; the count after them.
pub fn emit_times(bytes: &mut [u8], n: usize, b: u8, times: usize) -> usize
    requires { n + times ≤ count_limit }
    ensures { Wrote n bytes.old result bytes.new (replicate times b) }
{
    for i in 0..times {
        emit(bytes, n + i, b);
    }
    n + times
}

// The first n of the bytes, copied to a place of a buffer that has room.
pub fn copy_in(buffer: &mut [u8], at: usize, bytes: &[u8], n: usize)
    requires { (n ≤ length bytes.now) × (at + n ≤ length buffer.old) }
    ensures { buffer.new ≡ sets buffer.old at (take n bytes.now) }
{
    buffer[at..at + n].copy_from_slice(&bytes[..n]);
}

// Makes the first `size` bytes zero, and leaves the rest.
pub fn wipe(buffer: &mut [u8], size: usize)
    requires { size ≤ length buffer.old }
    ensures { buffer.new ≡ replicate size 0 ++ drop size buffer.old }
{
    buffer[..size].fill(0);
}

// Makes the whole buffer zero.
pub fn wipe_all(buffer: &mut [u8])
    ensures { buffer.new ≡ wiped buffer.old }
{
    wipe(buffer, buffer.len());
}

// Zeros from a place on.
pub fn wipe_from(buffer: &mut [u8], at: usize)
    requires { at ≤ length buffer.old }
    ensures { buffer.new ≡ filled buffer.old (take at buffer.old) }
{
    wipe_all(&mut buffer[at..]);
}
