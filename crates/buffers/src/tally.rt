// Bytes one after the other in fixed memory: stored as far as there is room, and counted on beyond it.
ghost use Rattle.std.specs.Prelude.{◌≡◌, ◌+◌, ◌<◌, ◌≤◌, [], ◌∷◌, replicate, take};
ghost use Rattle.rules.specs.Limits.{count_limit};

use crate::{emit, emit_times};

#[derive(Clone, Copy)]
pub struct Tally<const N: usize> {
    pub bytes: [u8; N],
    pub count: usize,
}

impl<const N: usize> Tally<N> {
    ghost use Rattle.buffers.specs.Wrote.{Added};

    pub fn new() -> Self
        ensures { (result.count ≡ 0) × (result.bytes ≡ replicate N 0) }
    {
        Tally {
            bytes: [0; N],
            count: 0,
        }
    }

    // One byte more.
    pub fn push(&mut self, b: u8)
        requires { self.old.count < count_limit }
        ensures { Added self.old self.new (b ∷ []) }
    {
        let n = self.count;
        emit(&mut self.bytes, n, b);
        self.count = n + 1;
    }

    // The same byte so many times.
    pub fn push_times(&mut self, b: u8, times: usize)
        requires { self.old.count + times ≤ count_limit }
        ensures { Added self.old self.new (replicate times b) }
    {
        self.count = emit_times(&mut self.bytes, self.count, b, times);
    }

    // The bytes, where there was room for all.
    pub fn kept(&self) -> &[u8]
        requires { self.now.count ≤ N }
        ensures { result.now ≡ take self.now.count self.now.bytes }
    {
        &self.bytes[..self.count]
    }
}
