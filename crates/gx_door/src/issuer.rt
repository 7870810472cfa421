//! What passes are issued by.

ghost use Rattle.std.specs.Prelude.{◌≡◌, ◌+◌, [], IfErr, IfOk, OnErr, OnOk};
ghost use Rattle.gx_history.specs.Verdicts.{IsLegal};
ghost use Rattle.gx_pass.specs.declared.pass.PassFault.TheVariants as faults;
ghost use Rattle.gx_pass.specs.Views.{mine};

use crate::door::Door;
use gx_pass::PassFault;
use std::sync::Wait;

/// Issues passes to a door of this kind, each for one of the permits that it has, and nobody else does: each has the line
/// behind that of the one before. Whoever takes connections holds it.
pub trait Issuer<D: Door> {
    ghost use Rattle.std.specs.Prelude.{ℕ};

    // For how many more passes it has permits.
    ghost left: { Self → ℕ };

    // The line that was issued last, 0 where none was.
    ghost last: { Self → ℕ };

    /// A pass of the next line. It has met all records, of which none is of its line. One permit is used up, and only at
    /// `Ok`.
    ///
    /// # Errors
    ///
    /// `NoLines` only where the last line was issued, 65,535.
    fn issue<R: Wait>(&mut self, rt: &R) -> Result<D::Pass, PassFault>
        ensures legal { IfOk result (λ p. IsLegal D.policy (D.observed p).front) }
        ensures own { IfOk result (λ p. mine (D.observed p) ≡ []) }
        ensures adds_none { IfOk result (λ p. D.added p ≡ 0) }
        ensures line { IfOk result (λ p. (D.observed p).line ≡ last self.new) }
        ensures next { OnOk result (last self.new ≡ last self.old + 1) }
        ensures same { OnErr result (last self.new ≡ last self.old) }
        ensures no_lines { IfErr result (λ e. e ≡ faults.NoLines → last self.old ≡ 65535) }
        ensures one_less { OnOk result (left self.new + 1 ≡ left self.old) }
        ensures none_less { OnErr result (left self.new ≡ left self.old) };
}
