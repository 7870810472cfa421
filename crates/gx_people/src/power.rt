//! The powers that commands ask for.

ghost use Rattle.std.specs.Prelude.{◌≡◌, Option};
ghost use Rattle.gx_policy.specs.declared.policy.Role.{Role};
ghost use Rattle.gx_history.specs.Asking.{has_power};
ghost use Rattle.gx_people.specs.Entitled.{has_in_role, includes, power_of};

use gx_desk::Action;
use gx_policy::Powers;

/// What an officer may be given, each for the commands of its name.
#[derive(Clone, Copy, PartialEq, Eq)]
pub enum Power {
    /// Kill.
    Kill,
    /// Lift.
    Lift,
    /// Set Limit.
    Limits,
    /// Restrict and Unrestrict.
    Symbols,
    /// Grant and Revoke.
    People,
    /// Close Day.
    Close,
}

impl Power {
    /// The power that the command asks for: a role that has it has what the rules ask of the command.
    #[tactic(auto, using(crate::proofs::Users_laws::power_for_is))]
    pub fn of(action: &Action) -> Power
        ensures power { result ≡ power_of action.now }
        ensures asked { (role : Option Role)
            → has_in_role role result ≡ has_power role action.now }
    {
        match action {
            Action::Kill(_) => Power::Kill,
            Action::Lift(_) => Power::Lift,
            Action::SetLimit(_, _) => Power::Limits,
            Action::Restrict(_, _) | Action::Unrestrict(_, _) => Power::Symbols,
            Action::Grant(_, _) | Action::Revoke(_, _) => Power::People,
            Action::CloseDay => Power::Close,
        }
    }

    /// Whether it is one of these.
    pub fn is_among(self, his: Powers) -> bool
        ensures { result ≡ includes his self }
    {
        match self {
            Power::Kill => his.kill,
            Power::Lift => his.lift,
            Power::Limits => his.limits,
            Power::Symbols => his.symbols,
            Power::People => his.people,
            Power::Close => his.close,
        }
    }
}
