//! The sample policy.

ghost use Rattle.std.specs.Prelude.{◌≡◌, Ok, IfOk, IfErr};
ghost use Rattle.gx_policyvalues.specs.declared.fault.FaultKind.TheVariants.{OutOfMemory};
ghost use Rattle.gx_policyfile.specs.Policies.{means};
ghost use Rattle.gx_policy.specs.Samples as specs;

use crate::reading::read_policy;
use gx_policy::Policy;
use gx_policyvalues::PolicyFault;
use std::alloc::Global;

/// The text of the sample policy.
pub const SAMPLE: &str = "version = 1
session = \"GATE01\"

[[account]]
name = \"ALFA\"
firm = \"ALF\"

[[account]]
name = \"BETA\"
firm = \"BET\"

[[stock]]
name = \"TEST\"
reference = 100000

[[user]]
name = \"ALICE\"
password = \"apple\"
role = \"trader\"
account = \"ALFA\"

[[user]]
name = \"BOB\"
password = \"banana\"
role = \"trader\"
account = \"BETA\"

[[user]]
name = \"OLGA\"
password = \"orange\"
role = \"officer\"
powers = [\"kill\", \"lift\", \"limits\", \"symbols\", \"people\", \"close\"]

[[user]]
name = \"OTTO\"
password = \"olive\"
role = \"officer\"
powers = [\"kill\"]

[[user]]
name = \"RITA\"
password = \"raisin\"
role = \"reader\"

[[rule]]
name = \"SIZE\"
kind = \"order_shares\"
limit = 500000

[[rule]]
name = \"GROSS\"
kind = \"gross_value\"
limit = 10000000
count = \"each\"
";

/// The sample policy.
///
/// # Errors
///
/// `OutOfMemory` where memory was refused.
pub fn sample(alloc: Global) -> Result<Policy, PolicyFault>
    ensures text { means SAMPLE.now ≡ Ok specs.sample }
    ensures policy { IfOk result (λ p. p ≡ specs.sample) }
    ensures err { IfErr result (λ e. e.kind ≡ OutOfMemory) }
{
    read_policy(alloc, SAMPLE.as_bytes())
}
