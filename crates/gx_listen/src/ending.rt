//! How a server ended.

ghost use Rattle.std.specs.Prelude.{◌≡◌, None, Some};
ghost use Rattle.gx_listen.specs.Endings.{fault_of, IsHalted};

use crate::fault::ServeFault;
use gx_control::ShutdownAsked;
use std::marker::Model;

/// Why a server takes no connection any more, before it has taken as many as it was to.
#[derive(Drop)]
pub(crate) enum Halt {
    /// The end was asked for.
    Asked(ShutdownAsked),
    /// The server gave up.
    Fault(ServeFault),
}

/// How a server ended. The server alone makes it. Contracts see why it gave up, if it did.
#[derive(Drop)]
pub struct Ending {
    fault: Option<ServeFault>,
}

impl Model for Ending {
    ghost use Rattle.std.specs.Prelude.{Option};
    ghost use Rattle.gx_listen.specs.declared.fault.ServeFault.{ServeFault};

    ghost Value = { Option ServeFault };

    ghost view = { λ e. e.fault };
}

impl Ending {
    /// It has taken as many connections as it was to.
    pub(crate) fn of_all_taken() -> Ending
        ensures { result ≡ None }
    {
        Ending { fault: None }
    }

    /// It takes no connection any more.
    pub(crate) fn of_halt(halt: Halt) -> Ending
        requires { IsHalted halt }
        ensures { result ≡ fault_of halt }
    {
        match halt {
            Halt::Asked(_) => Ending { fault: None },
            Halt::Fault(fault) => Ending { fault: Some(fault) },
        }
    }

    /// Why the server gave up, if it did.
    pub fn fault(self) -> Option<ServeFault>
        ensures { result ≡ self }
    {
        let Ending { fault } = self;
        fault
    }
}

/// That a server took no connection at all, and why. The server alone makes it. Contracts see why.
#[derive(Drop)]
pub struct Unserved {
    fault: ServeFault,
}

impl Model for Unserved {
    ghost use Rattle.gx_listen.specs.declared.fault.ServeFault.{ServeFault};

    ghost Value = { ServeFault };

    ghost view = { λ u. u.fault };
}

impl Unserved {
    /// It gave up before.
    pub(crate) fn of_fault(fault: ServeFault) -> Unserved
        ensures { result ≡ fault }
    {
        Unserved { fault }
    }

    /// Why it gave up.
    pub fn fault(self) -> ServeFault
        ensures { result ≡ self }
    {
        let Unserved { fault } = self;
        fault
    }

    /// How it ended.
    pub fn ending(self) -> Ending
        ensures { result ≡ Some self }
    {
        let Unserved { fault } = self;
        Ending { fault: Some(fault) }
    }
}
