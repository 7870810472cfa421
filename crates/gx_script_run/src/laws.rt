//! Laws of scripts.

ghost use Rattle.std.specs.Prelude.{◌≡◌, ℕ, List, ◌++◌, IfSome, IsTrue};
ghost use Rattle.gx_access_gate.specs.Gates.{GateData};
ghost use Rattle.gx_devices.specs.{Devices.IsFront, Pieces.Flow, Stopping.AreFirst};
ghost use Rattle.gx_script_run.specs.{declared.script_fault.ScriptFault.ScriptFault, ScriptPiping.IsScriptCutShort, Scripting.{cut_of, script_of, is_settled}, ScriptTexts.{joined_lines, are_lines}};

/// Once a line of a script is bad, or too long already, nothing that follows makes a step or is printed.
pub fn nothing_follows_a_bad_line()
    ensures { (gate : GateData) (bytes more : List ℕ) → IsTrue (is_settled gate bytes)
        → script_of gate (bytes ++ more) ≡ script_of gate bytes }
{}

/// The lines of a text, with their LFs, and what is behind them are the text, and no LF stands in a line.
pub fn lines_make_the_text()
    ensures text { (text : List ℕ) → joined_lines (cut_of text) ≡ text }
    ensures lines { (text : List ℕ) → IsTrue (are_lines (cut_of text)) }
{}

/// After a fault that is no bad line, what was written is a front of what the whole script prints, and the records
/// are the first that it leaves; for a reader that tells its bytes.
pub fn faults_leave_a_front()
    ensures text { (flow : Flow) (before after : GateData) (fault : ScriptFault)
        → IsScriptCutShort flow before after fault
        → IfSome flow.input (λ all. IsFront flow.output flow.written (script_of before all).text) }
    ensures records { (flow : Flow) (before after : GateData) (fault : ScriptFault)
        → IsScriptCutShort flow before after fault
        → IfSome flow.input (λ all. AreFirst after.records (script_of before all).gate.records) }
{}
