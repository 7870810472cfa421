//! Reading a file of which no more than so much is taken.

ghost use Rattle.std.specs.{Prelude.{◌≡◌, ◌≢◌, ◌+◌, ◌-◌, ◌^◌, ◌<◌, ◌≤◌, ◌++◌, length, IfErr, IfOk, IfSome, OnOk}, Io.KnownBytes.{Consumes, IsAtEnd}};
ghost use Rattle.gx_files.specs.declared.reading.ReadFault.TheVariants as faults;
ghost use Rattle.gx_files.specs.Reading.{IsReaderBlamed, ReadsMore, TakesAtMost};

use gx_devices::CallCounter;
use gx_units::OutOfMemory;
use std::alloc::Global;
use std::io::Read;

/// So many bytes are asked for at a time.
const PIECE: usize = 16_384;

/// Why a file was not read.
#[derive(Clone, Copy, PartialEq, Eq)]
pub enum ReadFault {
    /// A growth was refused.
    OutOfMemory,
    /// The reader failed.
    ReadFailed,
    /// There is more than may be taken.
    TooLong,
}

impl From<OutOfMemory> for ReadFault {
    ghost from_gives = { λ _ e. e ≡ faults.OutOfMemory };

    fn from(_refused: OutOfMemory) -> ReadFault {
        ReadFault::OutOfMemory
    }
}

/// Reads once, by way of this room, at most so many bytes, and puts them last: how many came.
fn read_more<R: Read>(
    reader: &mut CallCounter<R>,
    room: &mut [u8; PIECE],
    bytes: &mut Vec<u8>,
    most: usize,
) -> Result<usize, ReadFault>
    requires some { 0 < most }
    requires reader { reader.old.failed < 2 ^ 64 - 1 }
    ensures more { IfOk result (λ n. ReadsMore
        (R.remaining reader.old.device) (R.remaining reader.new.device)
        bytes.old.items bytes.new.items n) }
    ensures few { IfOk result (λ n. n ≤ most) }
    ensures ended { IfOk result (λ n. n ≡ 0 → IsAtEnd (R.remaining reader.new.device)) }
    ensures bounded { TakesAtMost
        (R.remaining reader.old.device) (R.remaining reader.new.device) most }
    ensures kept { OnOk result (reader.new.failed ≡ reader.old.failed) }
    ensures told { IfErr result (IsReaderBlamed reader.old.failed reader.new.failed) }
    ensures not_long { IfErr result (λ e. e ≢ faults.TooLong) }
{
    let size = most.min(PIECE);
    match reader.read(&mut room[..size]) {
        Ok(n) => put(bytes, &room[..n]),
        Err(_) => Err(ReadFault::ReadFailed),
    }
}

/// Puts the bytes last: how many there are.
fn put(bytes: &mut Vec<u8>, piece: &[u8]) -> Result<usize, ReadFault>
    ensures count { IfOk result (λ n. n ≡ length piece.now) }
    ensures last { OnOk result (bytes.new.items ≡ bytes.old.items ++ piece.now) }
    ensures fault { IfErr result (λ e. e ≡ faults.OutOfMemory) }
{
    match bytes.extend_from_slice(piece) {
        Ok(()) => Ok(piece.len()),
        Err(_) => Err(ReadFault::OutOfMemory),
    }
}

/// All that the reader has left, where that is no more than so many bytes. Of a longer one no more than one byte further
/// is read, and of none more than that is ever taken. Room for as many as are expected is made first, for no more than may be
/// taken; it may have more or fewer.
///
/// # Errors
///
/// `TooLong` only where there is more, `ReadFailed` where a read failed, `OutOfMemory` where memory was refused.
pub fn read_within<R: Read>(
    alloc: Global,
    reader: &mut CallCounter<R>,
    most: usize,
    expected: usize,
) -> Result<Vec<u8>, ReadFault>
    requires { reader.old.failed < 2 ^ 64 - 1 }
    ensures whole { IfOk result (λ v. Consumes
        (R.remaining reader.old.device) (R.remaining reader.new.device) v.items) }
    ensures ended { OnOk result (IsAtEnd (R.remaining reader.new.device)) }
    ensures within { IfOk result (λ v. length v.items ≤ most) }
    ensures bounded { TakesAtMost
        (R.remaining reader.old.device) (R.remaining reader.new.device) (most + 1) }
    ensures too_long { IfErr result (λ e. e ≡ faults.TooLong
        → IfSome (R.remaining reader.old.device) (λ bytes. most < length bytes)) }
    ensures kept { OnOk result (reader.new.failed ≡ reader.old.failed) }
    ensures told { IfErr result (IsReaderBlamed reader.old.failed reader.new.failed) }
{
    let mut bytes = Vec::new(alloc);
    if bytes.reserve(expected.min(most)).is_err() {
        return Err(ReadFault::OutOfMemory);
    }
    let mut room = [0u8; PIECE];
    while bytes.len() <= most {
        let left = (most - bytes.len()).saturating_add(1);
        if read_more(reader, &mut room, &mut bytes, left)? == 0 {
            return Ok(bytes);
        }
    }
    Err(ReadFault::TooLong)
}
