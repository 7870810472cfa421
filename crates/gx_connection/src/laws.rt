//! Laws of the transcript: what was meant, in other words.

ghost use Rattle.std.specs.Prelude.{◌≡◌, ℕ, ◌<◌, length, List, ◌++◌, IfSome, IsTrue, IsFalse};
ghost use Rattle.gx_soup.specs.Packets.{packets_of};
ghost use Rattle.gx_history.specs.Verdicts.{IsLegal};
ghost use Rattle.gx_access_gate.specs.{Gates.GateData, Matches.matching_of};
ghost use Rattle.gx_devices.specs.{Devices.IsFront, Pieces.Flow};
ghost use Rattle.gx_session.specs.{declared.session.Phase.TheVariants.{Fresh, On}, Events.is_over};
ghost use Rattle.gx_connection.specs.{declared.fault.PipeFault.PipeFault, Fronts.AreFirstWithLogout, Piping.{is_never_refused_in, logout_of, IsAfterFault}, Serving.{WasServed, IsSilent, IsOnLine}, Transcript.{run_of, pipe, is_ended}};

/// Before a login is answered nothing is written, and no step is made but matching steps: each record that is there then
/// and was not before is of one.
pub fn silent_before_login()
    ensures { (gate : GateData) (first : ℕ) (bytes : List ℕ)
        → (run_of gate first bytes).connection.session.phase ≡ Fresh
        → IsSilent gate (run_of gate first bytes) }
{}

/// After each packet that leaves the session alive no order waits to be matched.
pub fn no_order_waits()
    ensures { (gate : GateData) (first : ℕ) (bytes : List ℕ)
        → IsLegal gate.policy gate.records
        → 0 < length (packets_of bytes).packets
        → IsFalse (is_over (run_of gate first bytes).connection.session.phase)
        → matching_of (run_of gate first bytes).gate ≡ None }
{}

/// A user who is logged in was sent Login Accepted with a number, and then all reports of his stream from that number
/// on, each once and in order.
pub fn stream_is_sent()
    ensures { (gate : GateData) (first : ℕ) (bytes : List ℕ)
        → (run_of gate first bytes).connection.session.phase ≡ On
        → WasServed (run_of gate first bytes) }
{}

/// Once the input has a fault or the session is over, nothing that follows makes a step or is answered.
pub fn nothing_follows()
    ensures { (gate : GateData) (first : ℕ) (bytes more : List ℕ)
        → IsTrue (is_ended gate first bytes)
        → pipe gate first (bytes ++ more) ≡ pipe gate first bytes }
{}

/// After each packet a user who is on is logged in on line 1, so no gate refuses his Logout.
pub fn whoever_is_on_may_leave()
    ensures line { (gate : GateData) (first : ℕ) (bytes : List ℕ)
        → IsOnLine (run_of gate first bytes).gate (run_of gate first bytes).connection }
    ensures logout { (gate : GateData) (first : ℕ) (bytes : List ℕ)
        → (run_of gate first bytes).connection.session.phase ≡ On
        → IsTrue (is_never_refused_in (run_of gate first bytes).gate
        (logout_of (run_of gate first bytes).connection)) }
{}

/// After a fault what was written is a front of what the pipe of the whole input writes, and the records are the
/// first of the pipe's, with at most the granted Logout of a user behind them; for a reader that tells its bytes.
pub fn faults_leave_a_front()
    ensures text { (flow : Flow) (before : GateData) (first : ℕ) (after : GateData)
        (fault : PipeFault) → IsAfterFault flow before first after fault
        → IfSome flow.input (λ all. IsFront flow.output flow.written (pipe before first all).text) }
    ensures records { (flow : Flow) (before : GateData) (first : ℕ) (after : GateData)
        (fault : PipeFault) → IsAfterFault flow before first after fault
        → IfSome flow.input (λ all.
        AreFirstWithLogout after.records (pipe before first all).gate.records) }
{}
