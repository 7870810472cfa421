//! Commands of officers, read from bytes.

ghost use Rattle.std.specs.{Prelude.{◌≡◌, length, Some}, Int.{w64, from_be_bytes}};
ghost use Rattle.gx_desk.specs.{Names.command_type, Reading.command_of};

use crate::{Action, Command, Tag, WrittenName};
use gx_ouch::text;
use gx_units::{AccountName, RuleId, Symbol};

impl Action {
    /// The type byte of its command.
    pub fn command_type(&self) -> u8
        ensures { result ≡ command_type self.now }
    {
        match self {
            Action::Kill(_) => b'K',
            Action::Lift(_) => b'L',
            Action::SetLimit(_, _) => b'M',
            Action::Restrict(_, _) => b'R',
            Action::Unrestrict(_, _) => b'N',
            Action::Grant(_, _) => b'G',
            Action::Revoke(_, _) => b'V',
            Action::CloseDay => b'Z',
        }
    }
}

impl Command {
    /// The command that these bytes are, whatever its fields hold. None where their type and length are no command's:
    /// Kill `K` and Lift `L` have 23 bytes, Set Limit `M`, Restrict `R` and Unrestrict `N` 31, Grant `G` and Revoke `V`
    /// 29, Close Day `Z` 15. Takes no memory.
    #[tactic(auto, unfolding(crate::specs::Reading::command_of))]
    pub fn read(bytes: &[u8]) -> Option<Command>
        ensures { result ≡ command_of bytes.now }
    {
        let action = match (bytes.first()?, bytes.len()) {
            (b'K', 23) => Action::Kill(account(&bytes[15..])),
            (b'L', 23) => Action::Lift(account(&bytes[15..])),
            (b'M', 31) => Action::SetLimit(rule(&bytes[15..23]), limit(&bytes[23..])),
            (b'R', 31) => Action::Restrict(rule(&bytes[15..23]), stock(&bytes[23..])),
            (b'N', 31) => Action::Unrestrict(rule(&bytes[15..23]), stock(&bytes[23..])),
            (b'G', 29) => Action::Grant(reader(&bytes[15..21]), account(&bytes[21..])),
            (b'V', 29) => Action::Revoke(reader(&bytes[15..21]), account(&bytes[21..])),
            (b'Z', 15) => Action::CloseDay,
            _ => return None,
        };
        Some(Command {
            tag: Tag {
                bytes: text(&bytes[1..15]),
            },
            action,
        })
    }
}

fn account(field: &[u8]) -> AccountName
    requires { length field.now ≡ 8 }
    ensures { result ≡ record { bytes = field.now } }
{
    AccountName { bytes: text(field) }
}

fn rule(field: &[u8]) -> RuleId
    requires { length field.now ≡ 8 }
    ensures { result ≡ record { bytes = field.now } }
{
    RuleId { bytes: text(field) }
}

fn stock(field: &[u8]) -> Symbol
    requires { length field.now ≡ 8 }
    ensures { result ≡ record { bytes = field.now } }
{
    Symbol { bytes: text(field) }
}

fn reader(field: &[u8]) -> WrittenName
    requires { length field.now ≡ 6 }
    ensures { result ≡ record { bytes = field.now } }
{
    WrittenName { bytes: text(field) }
}

fn limit(field: &[u8]) -> u64
    requires { length field.now ≡ 8 }
    ensures { result ≡ from_be_bytes w64 field.now }
{
    u64::from_be_bytes(text(field))
}
