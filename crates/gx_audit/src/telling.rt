//! What is told of an audit.

ghost use Rattle.std.specs.Prelude.{◌≡◌, ◌++◌, decimal, Err, IfOk, OnOk};
ghost use Rattle.gx_audit.specs.{Auditing.{IsAnswer, IsJudgement, IsOnlyAnswer}, Telling.{answer_line, answer_status}};
ghost use Rattle.gx_script_text.specs.Printing.{line_end};

use crate::checking::check_audit;
use crate::fault::AuditFault;
use gx_access_gate::AccessGate;
use gx_devices::WriteFault;
use gx_policy::Policy;
use gx_script_text::{append, with_number};
use gx_units::OutOfMemory;
use std::alloc::Global;

/// What is told of an audit: the answer, and its line.
#[derive(Drop)]
pub struct AuditAnswer {
    /// How many records a legal audit has, or its fault.
    pub answer: Result<u64, AuditFault>,
    /// The text of the answer: one line, with its line end.
    pub line: Vec<u8>,
}

impl AuditAnswer {
    /// The exit status: 0 where the audit is legal, else 4.
    pub fn status(&self) -> u8
        ensures { result ≡ answer_status self.now.answer }
    {
        match self.answer {
            Ok(_) => 0,
            Err(_) => 4,
        }
    }
}

/// Checks that the bytes are the audit of a legal day under the policy, as [`check_audit`] does.
///
/// # Errors
///
/// `OutOfMemory` where that is the fault, or where memory was refused.
pub fn told_of_audit<G: AccessGate>(
    alloc: Global,
    policy: &Policy,
    audit: &[u8],
) -> Result<AuditAnswer, WriteFault>
    ensures answer { IfOk result (λ told. IsAnswer policy.now audit.now told.answer) }
    ensures only { IfOk result (λ told. IsOnlyAnswer policy.now audit.now told.answer) }
    ensures judged { IfOk result (λ told. IsJudgement told.answer) }
    ensures line { IfOk result (λ told. told.line.items ≡ answer_line told.answer) }
{
    let answer = check_audit::<G>(alloc, policy, audit);
    let line = line_of(alloc, answer)?;
    Ok(AuditAnswer { answer, line })
}

/// What is told of an audit that has this fault, as [`told_of_audit`] tells it.
///
/// # Errors
///
/// `OutOfMemory` where that is the fault, or where memory was refused.
pub fn told_of_fault(alloc: Global, fault: AuditFault) -> Result<AuditAnswer, WriteFault>
    ensures answer { IfOk result (λ told. told.answer ≡ Err fault) }
    ensures line { IfOk result (λ told. told.line.items ≡ answer_line (Err fault)) }
{
    let answer = Err(fault);
    let line = line_of(alloc, answer)?;
    Ok(AuditAnswer { answer, line })
}

/// The line that tells the answer.
fn line_of(alloc: Global, answer: Result<u64, AuditFault>) -> Result<Vec<u8>, WriteFault>
    ensures line { IfOk result (λ text. text.items ≡ answer_line answer) }
    ensures judged { OnOk result (IsJudgement answer) }
{
    match answer {
        Ok(count) => Ok(numbered(alloc, b"legal ", count)?),
        Err(AuditFault::Truncated) => Ok(words(alloc, b"truncated\n")?),
        Err(AuditFault::BadRecord(number)) => Ok(numbered(alloc, b"bad record ", number)?),
        Err(AuditFault::IllegalVerdict(number)) => {
            Ok(numbered(alloc, b"illegal verdict ", number)?)
        }
        Err(AuditFault::OutOfMemory) => Err(WriteFault::OutOfMemory),
        Err(AuditFault::OtherPolicy) => Ok(words(alloc, b"other policy\n")?),
    }
}

/// The words, as they are.
fn words(alloc: Global, words: &[u8]) -> Result<Vec<u8>, OutOfMemory>
    ensures { IfOk result (λ text. text.items ≡ words.now) }
{
    Ok(Vec::from_slice(alloc, words)?)
}

/// The words and the number, as a line.
fn numbered(alloc: Global, words: &[u8], number: u64) -> Result<Vec<u8>, OutOfMemory>
    ensures { IfOk result (λ text. text.items ≡ words.now ++ decimal number ++ line_end) }
{
    let mut line = with_number(alloc, words, number)?;
    append(&mut line, b"\n")?;
    Ok(line)
}
