//! A line as far as it was read.
ghost use Rattle.std.specs.Prelude.{◌≡◌, ◌≤◌, [], IfOk, MatchOption, None, Some, length};
ghost use Rattle.std.specs.List.{prefix_len};
ghost use Rattle.values.specs.Memory.{OnlyMemory};
ghost use Rattle.lines.specs.Partial.{Fits, add_all, ended, has_byte, is_no_feed};

use memchr::memchr;
use std::alloc::Global;
use std::marker::Model;
use values::Mem;

/// The bytes that a line may have before its line feed.
pub const LONGEST_LINE: usize = 8192;

/// The bytes of a text that are read at once.
pub const CHUNK: usize = 4096;

/// The reads after which a reader that gives no end is at fault.
pub const MOST_READS: u64 = 1 << 32;

/// A line as far as it was read, or only that it is too long: it has at most 8,192 bytes before its
/// line feed. Its room is made once.
#[derive(Drop)]
pub struct LineBuffer {
    bytes: Vec<u8>,
    is_too_long: bool,
}

impl Model for LineBuffer {
    ghost use Rattle.std.specs.Prelude.{vec_capacity};
    ghost use Rattle.lines.specs.Partial.{HasRoom, Partial, partial};

    ghost Value = { Partial };

    ghost view = { λ b. partial b.is_too_long b.bytes.items };

    ghost invariant = { λ b. HasRoom (vec_capacity b.bytes) b.bytes.items };
}

impl LineBuffer {
    /// Makes an empty line.
    pub fn new(alloc: Global) -> Mem<LineBuffer>
        ensures ok { IfOk result (λ b. b ≡ Some []) }
        ensures memory { OnlyMemory result }
    {
        let bytes = Vec::with_capacity(alloc, LONGEST_LINE + 1)?;
        Ok(LineBuffer {
            bytes,
            is_too_long: false,
        })
    }

    /// Returns the line, or none where it is too long.
    pub fn get(&self) -> Option<&[u8]>
        ensures { MatchOption result (self.now ≡ None) (λ line. self.now ≡ Some line.now) }
    {
        if self.is_too_long {
            return None;
        }
        Some(self.bytes.as_slice())
    }

    /// Tells whether the line has a byte.
    pub fn has_byte(&self) -> bool
        ensures { result ≡ has_byte self.now }
    {
        self.is_too_long || !self.bytes.is_empty()
    }

    /// Appends bytes of the line, none of them its line feed. It takes no memory.
    pub fn add(&mut self, bytes: &[u8])
        requires { Fits self.old }
        ensures line { self.new ≡ add_all self.old bytes.now }
        ensures fits { Fits self.new }
    {
        if self.is_too_long {
            return;
        }
        if bytes.len() <= LONGEST_LINE - self.bytes.len() {
            let _ = self.bytes.extend_from_slice(bytes);
        } else {
            self.is_too_long = true;
        }
    }

    /// Appends the line's own line feed. It takes no memory.
    pub fn end(&mut self)
        requires { Fits self.old }
        ensures { self.new ≡ ended self.old }
    {
        if self.is_too_long {
            return;
        }
        let _ = self.bytes.push(b'\n');
    }

    /// Begins the next line.
    pub fn clear(&mut self)
        ensures { self.new ≡ Some [] }
    {
        self.bytes.clear();
        self.is_too_long = false;
    }
}

/// Counts the bytes before the first line feed: all, where there is none.
pub fn line_length(bytes: &[u8]) -> usize
    ensures length { result ≡ prefix_len is_no_feed bytes.now }
    ensures within { result ≤ length bytes.now }
{
    match memchr(b'\n', bytes) {
        Some(place) => place,
        None => bytes.len(),
    }
}
