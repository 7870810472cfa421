//! The names of the rules.

ghost use Rattle.std.specs.Prelude.{◌≡◌, ◌++◌, ◌≤◌, codes, length, take};
ghost use Rattle.gx_policy.specs.RuleNames.{NameFits, is_built_in, rule_id, written_rule};

use gx_units::RuleId;

/// The rule that a denial names, in the order in which the rules are asked: the file's stand between `P12` and `Q1`.
#[derive(Clone, Copy, PartialEq, Eq)]
pub enum RuleName {
    /// Login: the user is unknown or the password wrong.
    L1,
    /// Login: the user is logged in.
    L2,
    /// Login: the session or the number is not available.
    L3,
    /// All but Login: the user is not logged in on this line.
    G1,
    /// Orders and commands: not of the user's role.
    G2,
    /// Unreadable: always.
    G3,
    /// Enter, Replace: the new token is used.
    I1,
    /// Replace, Cancel: no live order under the token.
    I2,
    /// Cancel: shares at or above the present total.
    I3,
    /// Enter, Replace: the day is closed.
    P1,
    /// Enter, Replace: the account is killed.
    P2,
    /// Enter: the firm is not blank and not that of the account.
    P3,
    /// Enter: the stock is not listed.
    P4,
    /// Enter, Replace: shares 0 or at least 1,000,000.
    P5,
    /// Enter, Replace: no order may have this price.
    P6,
    /// Enter, Replace: the display is neither `A` nor `Y`.
    P7,
    /// Enter, Replace: the time in force is not 0, 99998 or 99999.
    P8,
    /// Enter, Replace: the minimum quantity is not 0.
    P9,
    /// Enter: the cross type is not `N`.
    P10,
    /// Enter: the side is not `B`, `S`, `T` or `E`.
    P11,
    /// Replace: shares at or below those that the chain has executed.
    P12,
    /// Command: a name is unknown, or the rule has no such setting.
    Q1,
    /// Command: the officer lacks the power.
    Q2,
    /// Command: an account that it concerns is not the officer's.
    Q3,
    /// Command: nothing would change.
    Q4,
    /// Enter, Replace: a rule of the policy file.
    File(RuleId),
}

/// The built-in rules, in the order in which they are asked: the file's stand between the first 21 and the last 4, which are
/// for commands.
pub const BUILT_IN: [RuleName; 25] = [
    RuleName::L1,
    RuleName::L2,
    RuleName::L3,
    RuleName::G1,
    RuleName::G2,
    RuleName::G3,
    RuleName::I1,
    RuleName::I2,
    RuleName::I3,
    RuleName::P1,
    RuleName::P2,
    RuleName::P3,
    RuleName::P4,
    RuleName::P5,
    RuleName::P6,
    RuleName::P7,
    RuleName::P8,
    RuleName::P9,
    RuleName::P10,
    RuleName::P11,
    RuleName::P12,
    RuleName::Q1,
    RuleName::Q2,
    RuleName::Q3,
    RuleName::Q4,
];

/// Whether a built-in rule has this name, so that no rule of the file may have it.
#[tactic(auto, unfolding(crate::specs::RuleNames::rules_before, crate::specs::RuleNames::rules_behind))]
pub fn is_built_in(name: RuleId) -> bool
    ensures { result ≡ is_built_in name }
{
    BUILT_IN.iter().any(|rule| rule.id() == name)
}

#[tactic(auto, using(crate::proofs::Name_whole::take_whole))]
fn padded(name: RuleId) -> RuleId
    ensures { result.bytes ≡ take 8 (name.bytes ++ codes "        ") }
{
    name
}

impl RuleName {
    /// The name as the audit and the policy file write it. That of a rule of the file keeps the spaces of its field.
    pub fn written(&self) -> &[u8]
        ensures name { result.now ≡ written_rule self.now }
        ensures short { length result.now ≤ 8 }
    {
        match self {
            RuleName::L1 => b"L1",
            RuleName::L2 => b"L2",
            RuleName::L3 => b"L3",
            RuleName::G1 => b"G1",
            RuleName::G2 => b"G2",
            RuleName::G3 => b"G3",
            RuleName::I1 => b"I1",
            RuleName::I2 => b"I2",
            RuleName::I3 => b"I3",
            RuleName::P1 => b"P1",
            RuleName::P2 => b"P2",
            RuleName::P3 => b"P3",
            RuleName::P4 => b"P4",
            RuleName::P5 => b"P5",
            RuleName::P6 => b"P6",
            RuleName::P7 => b"P7",
            RuleName::P8 => b"P8",
            RuleName::P9 => b"P9",
            RuleName::P10 => b"P10",
            RuleName::P11 => b"P11",
            RuleName::P12 => b"P12",
            RuleName::Q1 => b"Q1",
            RuleName::Q2 => b"Q2",
            RuleName::Q3 => b"Q3",
            RuleName::Q4 => b"Q4",
            RuleName::File(name) => &name.bytes,
        }
    }

    /// The name in its field of eight bytes, with the spaces that fill it.
    pub fn id(self) -> RuleId
        ensures is { result ≡ rule_id self }
        ensures fits { NameFits self }
    {
        let bytes = match self {
            RuleName::L1 => *b"L1      ",
            RuleName::L2 => *b"L2      ",
            RuleName::L3 => *b"L3      ",
            RuleName::G1 => *b"G1      ",
            RuleName::G2 => *b"G2      ",
            RuleName::G3 => *b"G3      ",
            RuleName::I1 => *b"I1      ",
            RuleName::I2 => *b"I2      ",
            RuleName::I3 => *b"I3      ",
            RuleName::P1 => *b"P1      ",
            RuleName::P2 => *b"P2      ",
            RuleName::P3 => *b"P3      ",
            RuleName::P4 => *b"P4      ",
            RuleName::P5 => *b"P5      ",
            RuleName::P6 => *b"P6      ",
            RuleName::P7 => *b"P7      ",
            RuleName::P8 => *b"P8      ",
            RuleName::P9 => *b"P9      ",
            RuleName::P10 => *b"P10     ",
            RuleName::P11 => *b"P11     ",
            RuleName::P12 => *b"P12     ",
            RuleName::Q1 => *b"Q1      ",
            RuleName::Q2 => *b"Q2      ",
            RuleName::Q3 => *b"Q3      ",
            RuleName::Q4 => *b"Q4      ",
            RuleName::File(name) => padded(name).bytes,
        };
        RuleId { bytes }
    }
}
