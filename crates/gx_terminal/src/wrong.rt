//! What is wrong with a line, for who wrote it.

use std::fmt;

/// What a place in a line wants.
#[derive(Clone, Copy, PartialEq, Eq)]
pub enum ExpectedInput {
    /// The word that names the form of a line.
    Form,
    /// The name of an account.
    Account,
    /// An account, or `--all`.
    AccountOrAll,
    /// The name of a rule.
    Rule,
    /// The limit of a rule.
    Value,
    /// The name of a stock.
    Stock,
    /// The name of a reader.
    Reader,
    /// `--yes`, without which the day is not closed.
    Yes,
    /// A number of shares.
    Shares,
    /// A price in dollars.
    Price,
    /// `day` or `ioc`, or the end of the line.
    Lifetime,
    /// The token of an order.
    Token,
    /// No word more.
    End,
}

impl ExpectedInput {
    fn text(self) -> &'static str {
        match self {
            ExpectedInput::Form => {
                "kill, lift, limit, restrict, unrestrict, grant, revoke, close, buy, sell, replace, cancel, watch, help or quit"
            }
            ExpectedInput::Account => "ACCOUNT, 1 to 8 of the characters ! to ~",
            ExpectedInput::AccountOrAll => "ACCOUNT, 1 to 8 of the characters ! to ~, or --all",
            ExpectedInput::Rule => "RULE, 1 to 8 of the characters ! to ~",
            ExpectedInput::Value => {
                "VALUE, a number below 2^64, or money as $30,000 or 30000.00, at most $922,337,203,685,477.5807"
            }
            ExpectedInput::Stock => "STOCK, 1 to 8 of the characters ! to ~",
            ExpectedInput::Reader => "READER, 1 to 6 of the characters ! to ~",
            ExpectedInput::Yes =>
                "--yes: closing ends the day for everybody, and nobody can undo it",
            ExpectedInput::Shares => "SHARES, a number below 2^32",
            ExpectedInput::Price => {
                "PRICE, dollars with at most four decimals, as 10, 10.5 or 10.0001, below 429496.7296"
            }
            ExpectedInput::Lifetime => "day, ioc or the end of the line",
            ExpectedInput::Token => "TOKEN, 1 to 14 of the characters ! to ~",
            ExpectedInput::End => "the end of the line",
        }
    }
}

/// Which word of a line is wrong, counted from 1, and what was wanted there. Where the line ends too early it is the word
/// behind its last one.
#[derive(Clone, Copy, PartialEq, Eq)]
pub struct WrongWord {
    /// Which word it is.
    pub word: usize,
    /// What was wanted there.
    pub wanted: ExpectedInput,
}

impl fmt::Display for WrongWord {
    fn fmt<W: fmt::Write>(&self, f: &mut fmt::Formatter<W>) -> fmt::Result {
        let word = self.word;
        let text = self.wanted.text();
        write!(f, "word {word}: wanted {text}")
    }
}
