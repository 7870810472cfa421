//! The steps of a scenario, a line each.

use gx_test_devices::halves;

/// What a step does, by the words that the cases have for it.
#[derive(Clone, Copy)]
pub(crate) enum Deed {
    /// The clock shows a moment from now on.
    Clock,
    /// A peer connects.
    Open,
    /// A peer sends bytes, in hex; waits until the server has read them.
    Gives,
    /// A peer sends bytes, in hex.
    Sends,
    /// A peer sends bytes, in hex, and no more.
    Ends,
    /// Writes to a peer wait from now on.
    TakesNothing,
    /// Writes to a peer wait no longer.
    TakesAll,
    /// A peer's requests wait at the door from now on.
    AsksNothing,
    /// A peer's requests wait no longer.
    AsksAll,
    /// Waits until a peer was sent so many packets in all.
    Hears,
    /// Waits until the server has said that it writes no more to a peer.
    IsFinished,
    /// Waits until the server has hung up on a peer.
    IsCut,
    /// Waits until there are so many records.
    Records,
    /// The server is asked to end.
    Stop,
}

/// The steps that begin with a word and no peer's name.
const COMMON: [(&str, Deed); 4] = [
    ("clock", Deed::Clock),
    ("open", Deed::Open),
    ("records", Deed::Records),
    ("stop", Deed::Stop),
];

/// The steps of a peer: what stands behind his name.
const OF_A_PEER: [(&str, Deed); 10] = [
    ("gives ", Deed::Gives),
    ("sends ", Deed::Sends),
    ("ends", Deed::Ends),
    ("takes nothing", Deed::TakesNothing),
    ("takes all", Deed::TakesAll),
    ("asks nothing", Deed::AsksNothing),
    ("asks all", Deed::AsksAll),
    ("hears ", Deed::Hears),
    ("is finished", Deed::IsFinished),
    ("is cut", Deed::IsCut),
];

/// A step of a scenario: what it does, its first word, and what stands behind.
#[derive(Clone, Copy)]
pub(crate) struct ScenarioStep<'a> {
    pub(crate) deed: Deed,
    /// The peer's name, where it is the step of one.
    pub(crate) name: &'a str,
    pub(crate) words: &'a str,
}

impl<'a> ScenarioStep<'a> {
    /// The step of a line; `None` where the line is none.
    pub(crate) fn read(line: &'a str) -> Option<ScenarioStep<'a>> {
        let (name, rest) = halves(line, " ");
        for (word, deed) in &COMMON {
            if *word == name {
                let deed = *deed;
                return Some(ScenarioStep {
                    deed,
                    name: rest,
                    words: rest,
                });
            }
        }
        for (word, deed) in &OF_A_PEER {
            if let Some(words) = rest.strip_prefix(*word) {
                let deed = *deed;
                return Some(ScenarioStep { deed, name, words });
            }
        }
        None
    }

    /// The number that its words are; 0 where they are none.
    pub(crate) fn number(&self) -> u64 {
        self.words.parse().unwrap_or(0)
    }
}
