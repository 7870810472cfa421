//! A reader and a writer that give or take few bytes at a time, and fail after a number of calls.

use std::alloc::Global;
use std::io;
use std::io::{Read, Write};

/// The limits of a run's devices.
#[derive(Clone, Copy)]
pub struct DeviceLimits {
    /// The most bytes that a read gives.
    pub read_size: usize,
    /// The most bytes that a write takes.
    pub write_size: usize,
    /// How many reads there are before the reader fails.
    pub reads: usize,
    /// How many writes there are before the writer fails.
    pub writes: usize,
    /// How many bytes the writer takes before it takes none.
    pub room: usize,
    /// How often each call is interrupted before it is done.
    pub interrupts: usize,
    /// How often a connection is read at most before its input is called endless.
    pub most_reads: u64,
}

/// No limits: each call gives or takes all that it has room for.
pub const LARGE: DeviceLimits = DeviceLimits {
    read_size: usize::MAX,
    write_size: usize::MAX,
    reads: usize::MAX,
    writes: usize::MAX,
    room: usize::MAX,
    interrupts: 0,
    most_reads: 1_000_000_000,
};

/// A byte at a time.
pub const BYTE_BY_BYTE: DeviceLimits = DeviceLimits {
    read_size: 1,
    write_size: 1,
    ..LARGE
};

/// How many more times the next call is interrupted.
#[derive(Clone, Copy)]
struct Interrupts {
    left: usize,
    each: usize,
}

impl Interrupts {
    fn new(each: usize) -> Interrupts {
        Interrupts { left: each, each }
    }

    /// Whether this call is interrupted; counts it.
    fn interrupts_call(&mut self) -> bool {
        match self.left.checked_sub(1) {
            Some(left) => {
                self.left = left;
                true
            }
            None => {
                self.left = self.each;
                false
            }
        }
    }
}

/// A reader that gives few bytes at a time, and fails after so many reads.
#[derive(Drop)]
pub struct ShortReader<'a> {
    rest: &'a [u8],
    limits: DeviceLimits,
    interrupts: Interrupts,
}

impl<'a> ShortReader<'a> {
    /// A reader of these bytes.
    pub fn new(rest: &'a [u8], limits: DeviceLimits) -> ShortReader<'a> {
        ShortReader {
            rest,
            limits,
            interrupts: Interrupts::new(limits.interrupts),
        }
    }
}

impl Read for ShortReader<'_> {
    fn read(&mut self, buf: &mut [u8]) -> io::Result<usize> {
        if self.interrupts.interrupts_call() {
            return Err(io::Error::from(io::ErrorKind::Interrupted));
        }
        if self.limits.reads == 0 {
            return Err(io::Error::from(io::ErrorKind::BrokenPipe));
        }
        self.limits.reads -= 1;
        let count = self.limits.read_size.min(self.rest.len()).min(buf.len());
        let (given, rest) = self.rest.split_at(count);
        buf[..count].copy_from_slice(given);
        self.rest = rest;
        Ok(count)
    }
}

/// A writer that takes few bytes at a time, none once it is full, and fails after so many writes.
#[derive(Drop)]
pub struct ShortWriter {
    /// What it has taken.
    pub taken: Vec<u8>,
    limits: DeviceLimits,
    interrupts: Interrupts,
}

impl ShortWriter {
    /// A writer that has taken nothing.
    pub fn new(alloc: Global, limits: DeviceLimits) -> ShortWriter {
        ShortWriter {
            taken: Vec::new(alloc),
            limits,
            interrupts: Interrupts::new(limits.interrupts),
        }
    }
}

impl Write for ShortWriter {
    fn write(&mut self, buf: &[u8]) -> io::Result<usize> {
        if self.interrupts.interrupts_call() {
            return Err(io::Error::from(io::ErrorKind::Interrupted));
        }
        if self.limits.writes == 0 {
            return Err(io::Error::from(io::ErrorKind::BrokenPipe));
        }
        self.limits.writes -= 1;
        let left = self.limits.room.saturating_sub(self.taken.len());
        let count = self.limits.write_size.min(left).min(buf.len());
        match self.taken.extend_from_slice(&buf[..count]) {
            Ok(()) => Ok(count),
            Err(_) => Ok(0),
        }
    }

    fn flush(&mut self) -> io::Result<()> {
        Ok(())
    }
}

/// The limits that the head of a case's part names, or the usual ones where it names none: how many bytes a read gives, how
/// many reads there are, how many bytes the writer takes in all, interrupts, how many bytes a write takes where that is
/// another number, how many writes there are, and how many reads make an input endless. `-` is no limit.
pub fn limits_of(words: &str, usual: DeviceLimits) -> DeviceLimits {
    if words.is_empty() {
        return usual;
    }
    let mut numbers = [usize::MAX; 7];
    numbers[3] = 0;
    for (number, word) in numbers.iter_mut().zip(words.split(' ')) {
        *number = word.parse().unwrap_or(usize::MAX);
    }
    let [
        read_size,
        reads,
        room,
        interrupts,
        write_size,
        writes,
        most_reads,
    ] = numbers;
    DeviceLimits {
        read_size,
        write_size: if write_size == usize::MAX {
            read_size
        } else {
            write_size
        },
        reads,
        writes,
        room,
        interrupts,
        most_reads: LARGE.most_reads.min(most_reads as u64),
    }
}
