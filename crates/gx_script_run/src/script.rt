//! A script over any reader and any writer.

ghost use Rattle.std.specs.Prelude.{◌≡◌, ◌+◌, ◌-◌, ◌^◌, ◌<◌, ◌≤◌, [], ◌++◌, length, position, Some, None, IsTrue, IsFalse, IfErr, IfNone, IfOk, IfSome, OnOk};
ghost use Rattle.gx_devices.specs.{Blaming.IsBlamed, Devices.{counted_on, IsUnfailing}, Pieces.flow_of};
ghost use Rattle.gx_script_text.specs.ScriptLines.{is_too_long};
ghost use Rattle.gx_script_run.specs.{ScriptPiping.{EndsLine, StopsAtLine, TakesScriptPiece, FindsBad, StopsInPiece, IsScript, IsScriptCutShort, IsAll, IsBlamedRightly, IfBadLine, UnlessBadLine}, ScriptTexts.{with_line_end, has_no_end, is_end}};

use crate::running::take_line;
use crate::script_fault::{Explained, LineFault, ScriptFault};
use gx_access_gate::AccessGate;
use gx_devices::{CallCounter, WriteFault, write_flushing};
use gx_script_text::{ExpectedWord, Wrong};
use gx_units::OutOfMemory;
use memchr::{memchr, memrchr};
use std::alloc::Global;
use std::io::{Read, Write};

/// The most bytes of a line that may still be no longer than it may be: 1,024 and a CR.
const LONGEST: usize = 1025;

/// What was done: how many lines have ended, the first bad one with them, and what the last of them says.
#[derive(Drop)]
struct Progress {
    lines: u64,
    /// What the last line that was done prints.
    text: Vec<u8>,
    /// What is wrong with the bad line, once there is one.
    wrong: Option<Wrong>,
    /// No line of the piece follows, so that the writer is flushed before more is read.
    flushes: bool,
}

/// What is held back between two pieces: the bytes of the line that has not ended, and what was done.
#[derive(Drop)]
struct HeldLine {
    rest: Vec<u8>,
    progress: Progress,
    ghost one_line: { length rest.items ≤ 1026 },
}

/// Does a line, and writes what it prints. Answers whether the line is bad.
fn do_line<G: AccessGate, W: Write>(
    gate: &mut G,
    line: &[u8],
    progress: &mut Progress,
    writer: &mut CallCounter<W>,
) -> Result<bool, WriteFault>
    requires writer { writer.old.failed < 2 ^ 64 - 1 }
    requires room { progress.old.lines < 2 ^ 64 - 1 }
    ensures ok { IfOk result (λ is_bad. EndsLine (G.state gate.old) progress.old.lines line.now
        is_bad (G.state gate.new) progress.new.lines
        (W.contents writer.old.device) (W.contents writer.new.device)) }
    ensures counted { OnOk result (progress.new.lines ≡ progress.old.lines + 1) }
    ensures kept { OnOk result (writer.new.failed ≡ writer.old.failed) }
    ensures err { IfErr result (StopsAtLine (G.state gate.old) progress.old.lines line.now
        (G.state gate.new) (W.contents writer.old.device) (W.contents writer.new.device)) }
    ensures told { IfErr result (IsBlamed writer.old.failed writer.new.failed) }
{
    progress.text.clear();
    match take_line(gate, line, &mut progress.text) {
        Ok(()) => {
            write_flushing(writer, progress.text.as_slice(), progress.flushes)?;
            progress.lines += 1;
            Ok(false)
        }
        Err(LineFault::Bad(wrong)) => {
            progress.wrong = Some(wrong);
            progress.lines += 1;
            Ok(true)
        }
        Err(LineFault::OutOfMemory) => Err(WriteFault::OutOfMemory),
    }
}

/// Takes bytes that go on with the line that is held back, and do not end it. Answers whether the line is too long, which
/// is told before its end is there.
fn take_front(held: &mut HeldLine, front: &[u8]) -> Result<bool, OutOfMemory>
    requires { held.old.progress.lines < 2 ^ 64 - 1 }
    ensures ok { IfOk result (λ is_long. IsFalse is_long
        → held.new.rest.items ≡ held.old.rest.items ++ front.now) }
    ensures lines { IfOk result (λ is_long. IsFalse is_long
        → held.new.progress.lines ≡ held.old.progress.lines) }
    ensures long { IfOk result (λ is_long. IsTrue is_long
        → IsTrue (is_too_long (held.old.rest.items ++ front.now))) }
    ensures counted { IfOk result (λ is_long. IsTrue is_long
        → held.new.progress.lines ≡ held.old.progress.lines + 1) }
{
    if held.rest.len() + front.len() > LONGEST {
        held.progress.wrong = Some(Wrong::new(1, ExpectedWord::Shorter));
        held.progress.lines += 1;
        return Ok(true);
    }
    held.rest.extend_from_slice(front)?;
    Ok(false)
}

/// Takes the rest of a line, and its end: does the line, and writes what it prints. Answers whether the line is bad. A line
/// that lies whole in the piece is read where it lies.
fn take_ended<G: AccessGate, W: Write>(
    gate: &mut G,
    held: &mut HeldLine,
    writer: &mut CallCounter<W>,
    front: &[u8],
) -> Result<bool, WriteFault>
    requires writer { writer.old.failed < 2 ^ 64 - 1 }
    requires room { held.old.progress.lines < 2 ^ 64 - 1 }
    ensures ok { IfOk result (λ is_bad. EndsLine (G.state gate.old) held.old.progress.lines
        (held.old.rest.items ++ front.now) is_bad (G.state gate.new) held.new.progress.lines
        (W.contents writer.old.device) (W.contents writer.new.device)) }
    ensures cleared { IfOk result (λ is_bad. IsFalse is_bad → held.new.rest.items ≡ []) }
    ensures counted { OnOk result (held.new.progress.lines ≡ held.old.progress.lines + 1) }
    ensures kept { OnOk result (writer.new.failed ≡ writer.old.failed) }
    ensures err { IfErr result (StopsAtLine (G.state gate.old) held.old.progress.lines
        (held.old.rest.items ++ front.now) (G.state gate.new)
        (W.contents writer.old.device) (W.contents writer.new.device)) }
    ensures told { IfErr result (IsBlamed writer.old.failed writer.new.failed) }
{
    if held.rest.as_slice().is_empty() {
        return do_line(gate, front, &mut held.progress, writer);
    }
    if take_front(held, front)? {
        return Ok(true);
    }
    let is_bad = do_line(gate, held.rest.as_slice(), &mut held.progress, writer)?;
    held.rest.clear();
    Ok(is_bad)
}

/// Where the first LF stands.
#[tactic(auto, using(crate::proofs::Lines_text::first_place))]
fn end_of_line(text: &[u8]) -> Option<usize>
    ensures { result ≡ position is_end text.now }
{
    memchr(b'\n', text)
}

/// The first line of a text without its LF, and what stands behind that; `None` where no LF stands in it.
fn first_line(text: &[u8]) -> Option<(&[u8], &[u8])>
    ensures parts { IfSome result (λ parts.
        text.now ≡ with_line_end parts.0.now ++ parts.1.now) }
    ensures line { IfSome result (λ parts. IsTrue (has_no_end parts.0.now)) }
    ensures none { IfNone result (IsTrue (has_no_end text.now)) }
{
    let end = end_of_line(text)?;
    Some((&text[..end], &text[end + 1..]))
}

/// How many bytes stand behind the last LF; all, where there is none.
fn unended_size(piece: &[u8]) -> usize {
    match memrchr(b'\n', piece) {
        Some(end) => piece.len() - end - 1,
        None => piece.len(),
    }
}

/// Takes a piece of the script: does the lines that end in it, and writes what they print. The writer is flushed behind the
/// last of them. Answers whether one is bad, at which the taking ends.
fn take_piece<G: AccessGate, W: Write>(
    gate: &mut G,
    held: &mut HeldLine,
    writer: &mut CallCounter<W>,
    piece: &[u8],
) -> Result<bool, WriteFault>
    requires writer { writer.old.failed < 2 ^ 64 - 1 }
    requires room { held.old.progress.lines + length piece.now < 2 ^ 64 - 1 }
    ensures ok { IfOk result (λ is_bad. IsFalse is_bad
        → TakesScriptPiece (G.state gate.old)
        held.old.rest.items held.old.progress.lines piece.now
        (G.state gate.new) held.new.rest.items held.new.progress.lines
        (W.contents writer.old.device) (W.contents writer.new.device)) }
    ensures bad { IfOk result (λ is_bad. IsTrue is_bad
        → FindsBad (G.state gate.old) held.old.rest.items held.old.progress.lines piece.now
        (G.state gate.new) held.new.progress.lines
        (W.contents writer.old.device) (W.contents writer.new.device)) }
    ensures counted { IfOk result (λ is_bad. IsFalse is_bad
        → held.new.progress.lines ≤ held.old.progress.lines + length piece.now) }
    ensures kept { OnOk result (writer.new.failed ≡ writer.old.failed) }
    ensures err { IfErr result (StopsInPiece (G.state gate.old) held.old.rest.items
        held.old.progress.lines piece.now (G.state gate.new)
        (W.contents writer.old.device) (W.contents writer.new.device)) }
    ensures told { IfErr result (IsBlamed writer.old.failed writer.new.failed) }
    ensures bounded { length held.new.rest.items ≤ 1026 }
{
    let unended = unended_size(piece);
    let mut left = piece;
    while let Some((line, behind)) = first_line(left) {
        held.progress.flushes = behind.len() == unended;
        let is_bad = take_ended(gate, held, writer, line)?;
        if is_bad {
            return Ok(true);
        }
        left = behind;
    }
    Ok(take_front(held, left)?)
}

/// Reads a script to its end, or to a fault.
fn follow<G: AccessGate, R: Read, W: Write>(
    gate: &mut G,
    held: &mut HeldLine,
    reader: &mut CallCounter<R>,
    writer: &mut CallCounter<W>,
) -> Result<(), ScriptFault>
    requires nothing { held.old.rest.items ≡ [] }
    requires no_line { held.old.progress.lines ≡ 0 }
    requires reader { reader.old.failed < 2 ^ 64 - 1 }
    requires writer { writer.old.failed < 2 ^ 64 - 1 }
    ensures script { OnOk result (IsScript
        (flow_of R.remaining W.contents reader.old reader.new writer.old writer.new)
        (G.state gate.old) (G.state gate.new) None) }
    ensures bad { IfErr result (λ e. IfBadLine e (λ n. IsScript
        (flow_of R.remaining W.contents reader.old reader.new writer.old writer.new)
        (G.state gate.old) (G.state gate.new) (Some n))) }
    ensures fault { IfErr result (λ e. UnlessBadLine e (IsScriptCutShort
        (flow_of R.remaining W.contents reader.old reader.new writer.old writer.new)
        (G.state gate.old) (G.state gate.new) e)) }
    ensures endless { IfErr result (λ e. e ≡ ScriptFault.Endless
        → counted_on reader.old.calls 1000000000 ≤ reader.new.calls) }
    ensures unfailing { OnOk result (IsUnfailing
        reader.old.failed reader.new.failed writer.old.failed writer.new.failed) }
    ensures told { IfErr result (λ e. IsBlamedRightly
        reader.old.failed reader.new.failed writer.old.failed writer.new.failed e) }
{
    let mut buffer = [0u8; 4096];
    for _ in 0..1_000_000_000u32 {
        let n = match reader.read(&mut buffer) {
            Ok(n) => n,
            Err(_) => return Err(ScriptFault::ReadFailed),
        };
        if n == 0 {
            let last_is_bad = take_ended(gate, held, writer, &[])?;
            if last_is_bad {
                return Err(ScriptFault::BadLine(held.progress.lines));
            }
            return Ok(());
        }
        let is_bad = take_piece(gate, held, writer, &buffer[..n])?;
        if is_bad {
            return Err(ScriptFault::BadLine(held.progress.lines));
        }
    }
    Err(ScriptFault::Endless)
}

impl HeldLine {
    fn new(alloc: Global) -> HeldLine
        ensures nothing { result.rest.items ≡ [] }
        ensures no_line { result.progress.lines ≡ 0 }
    {
        HeldLine {
            rest: Vec::new(alloc),
            progress: Progress {
                lines: 0,
                text: Vec::new(alloc),
                wrong: None,
                flushes: true,
            },
        }
    }
}

/// Runs a script on a gate: reads it to its end, does its lines in order, and writes what each prints. The lines and
/// what they print are told in `docs/SCRIPTS.md`.
///
/// `BadLine`: the number of the first bad line, and beside it what is wrong with it; the lines before it were done, and
/// what they print was written.
/// `ReadFailed` and `Endless`: every line that ended in the bytes read was done, and all that they print was written.
/// `WriteFailed`: so it is with the first lines; the next one was done, and a front of what it prints was written.
/// `OutOfMemory`: so it is with the first lines; of the records that the next one leaves the first were made, and nothing
/// of what it prints was written.
pub fn run_script<G: AccessGate, R: Read, W: Write>(
    alloc: Global,
    gate: &mut G,
    reader: &mut CallCounter<R>,
    writer: &mut CallCounter<W>,
) -> Result<(), Explained>
    requires reader { reader.old.failed < 2 ^ 64 - 1 }
    requires writer { writer.old.failed < 2 ^ 64 - 1 }
    ensures script { OnOk result (IsScript
        (flow_of R.remaining W.contents reader.old reader.new writer.old writer.new)
        (G.state gate.old) (G.state gate.new) None) }
    // Where the reader tells its bytes, the gate and the bytes written are those of the script of all of them.
    ensures all { OnOk result (IsAll
        (flow_of R.remaining W.contents reader.old reader.new writer.old writer.new)
        (G.state gate.old) (G.state gate.new) None) }
    ensures bad { IfErr result (λ e. IfBadLine e.fault (λ n. IsScript
        (flow_of R.remaining W.contents reader.old reader.new writer.old writer.new)
        (G.state gate.old) (G.state gate.new) (Some n))) }
    ensures first_bad { IfErr result (λ e. IfBadLine e.fault (λ n. IsAll
        (flow_of R.remaining W.contents reader.old reader.new writer.old writer.new)
        (G.state gate.old) (G.state gate.new) (Some n))) }
    ensures fault { IfErr result (λ e. UnlessBadLine e.fault (IsScriptCutShort
        (flow_of R.remaining W.contents reader.old reader.new writer.old writer.new)
        (G.state gate.old) (G.state gate.new) e.fault)) }
    ensures endless { IfErr result (λ e. e.fault ≡ ScriptFault.Endless
        → counted_on reader.old.calls 1000000000 ≤ reader.new.calls) }
    ensures unfailing { OnOk result (IsUnfailing
        reader.old.failed reader.new.failed writer.old.failed writer.new.failed) }
    ensures told { IfErr result (λ e. IsBlamedRightly
        reader.old.failed reader.new.failed writer.old.failed writer.new.failed e.fault) }
{
    let mut held = HeldLine::new(alloc);
    match follow(gate, &mut held, reader, writer) {
        Ok(()) => Ok(()),
        Err(fault) => Err(Explained {
            fault,
            wrong: held.progress.wrong,
        }),
    }
}
