//! What is asked of a gate on the one line of a connection over standard input, or of a script.

ghost use Rattle.std.specs.Prelude.{◌≡◌, IsTrue};
ghost use Rattle.gx_history.specs.Showing.{has_its_first, is_askable};
ghost use Rattle.gx_access_gate.specs.Asking.{request_on_line_1};

use gx_history::record::{Asked, Request};
use gx_units::UserName;

/// The one line of a connection over standard input, and of a script.
const LINE: u16 = 1;

/// A request of the user on the one line, handed in at this moment.
pub fn asked(user: UserName, request: Request, moment: u64) -> Asked
    requires { IsTrue (has_its_first request) }
    ensures asked { result ≡ request_on_line_1 user request moment }
    ensures askable { IsTrue (is_askable result) }
{
    Asked {
        line: LINE,
        user: user.folded(),
        request,
        handed: moment,
    }
}
