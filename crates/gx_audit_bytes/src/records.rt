//! Records, one behind the other.

ghost use Rattle.std.specs.Prelude.{◌≡◌, ◌+◌, ◌*◌, ◌≤◌, ◌++◌, length, vec_capacity, vec_len, IfOk};
ghost use Rattle.gx_audit_bytes.specs.{Audits.{all_bytes, AreShown}, Reading.IsRecordShown, Records.record_bytes};

use crate::draft::RECORD_SIZE;
use crate::version::AuditVersion;
use crate::writing::write_record_in;
use gx_history::record::Record;
use gx_units::OutOfMemory;
use std::alloc::Global;

/// Puts the record's bytes last, where there is room for them. Takes no memory.
fn put(version: AuditVersion, bytes: &mut Vec<u8>, given: &Record)
    requires room { vec_len bytes.old + 128 ≤ vec_capacity bytes.old }
    ensures bytes { bytes.new.items ≡ bytes.old.items ++ record_bytes version given.now }
    ensures shown { IsRecordShown version given.now }
    ensures len { vec_len bytes.new ≡ vec_len bytes.old + 128 }
    ensures room { vec_capacity bytes.old ≤ vec_capacity bytes.new }
{
    let Ok(()) = bytes.extend_from_slice(&write_record_in(version, given)) else {
        unreachable!()
    };
}

/// Puts the bytes of the records in this version last, one behind the other, where there is room for them all. Takes no memory.
pub fn put_record_bytes(version: AuditVersion, bytes: &mut Vec<u8>, records: &[Record])
    requires room { vec_len bytes.old + 128 * length records.now ≤ vec_capacity bytes.old }
    ensures bytes { bytes.new.items ≡ bytes.old.items ++ all_bytes version records.now }
    ensures shown { AreShown version records.now }
    ensures room { vec_capacity bytes.old ≤ vec_capacity bytes.new }
{
    for given in records {
        put(version, bytes, given);
    }
}

/// The bytes of the records in this version, one behind the other.
///
/// # Errors
///
/// `OutOfMemory` where memory was refused.
pub fn audit_bytes(
    alloc: Global,
    version: AuditVersion,
    records: &[Record],
) -> Result<Vec<u8>, OutOfMemory>
    ensures bytes { IfOk result (λ v. v.items ≡ all_bytes version records.now) }
    ensures shown { IfOk result (λ v. AreShown version records.now) }
{
    let Some(size) = records.len().checked_mul(RECORD_SIZE) else {
        return Err(OutOfMemory);
    };
    let mut bytes = Vec::with_capacity(alloc, size)?;
    put_record_bytes(version, &mut bytes, records);
    Ok(bytes)
}
