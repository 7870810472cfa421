//! Which tables there are, and their columns.

/// A table of the report.
#[derive(Clone, Copy, PartialEq, Eq)]
pub enum TableKind {
    /// What the report is of, in one row: the moment of the first record and of the last, and whether the day is
    /// closed.
    Day,
    /// A row for each account of the policy: how many orders, replaces and cancels its traders were granted, how many
    /// of these were denied, fills (each side of one), what it bought and sold, its live orders at the end, and whether
    /// it is killed.
    Accounts,
    /// A row for each gross rule and account, or all accounts `together`: the most that was used of the limit, the
    /// moment and the record after which it first stood, the limit in force then, the used share of it in percent, and
    /// the first record after which more was used than the limit then in force, if there is one.
    GrossPeaks,
    /// As of gross rules, for each net rule, account, stock and side on which anything was used.
    NetPeaks,
    /// A row for each account and stock in which it executed anything: what it bought, what it sold, and the net.
    Positions,
    /// A row for each command that an officer asked for: what it is of and about, what stood before it (a limit;
    /// `killed` or `live` of an account) and after, `granted` or the rule that denied it, and the orders and shares
    /// that it ended.
    Commands,
    /// A row for each rule and account whose requests it denied; no account where an officer or a stranger asked.
    Denials,
    /// A row for each 48th part of the time from the first record to the last: orders and replaces granted, fills and
    /// denials.
    Spans,
}

impl TableKind {
    /// Its name, as a program reads it.
    pub fn name(self) -> &'static str {
        match self {
            TableKind::Day => "day",
            TableKind::Accounts => "accounts",
            TableKind::GrossPeaks => "gross",
            TableKind::NetPeaks => "net",
            TableKind::Positions => "positions",
            TableKind::Commands => "commands",
            TableKind::Denials => "denials",
            TableKind::Spans => "spans",
        }
    }

    /// What a person reads above it.
    pub fn title(self) -> &'static str {
        match self {
            TableKind::Day => "The day",
            TableKind::Accounts => "Accounts",
            TableKind::GrossPeaks => "Gross limits: the most that was used",
            TableKind::NetPeaks => "Net limits: the most that was used, by stock and side",
            TableKind::Positions => "Executed, by account and stock",
            TableKind::Commands => "Officers' commands",
            TableKind::Denials => "Denials, by rule and account",
            TableKind::Spans => "Orders, fills and denials over the day",
        }
    }

    /// The names of its columns.
    pub fn columns(self) -> &'static [&'static str] {
        match self {
            TableKind::Day => &["session", "records", "first", "last", "closed"],
            TableKind::Accounts => &[
                "account",
                "orders",
                "replaces",
                "cancels",
                "denied",
                "fills",
                "bought",
                "bought_value",
                "sold",
                "sold_value",
                "live",
                "killed",
            ],
            TableKind::GrossPeaks => &[
                "rule",
                "account",
                "peak",
                "at",
                "record",
                "limit",
                "share",
                "past_since",
            ],
            TableKind::NetPeaks => &[
                "rule",
                "account",
                "stock",
                "side",
                "peak",
                "at",
                "record",
                "limit",
                "share",
                "past_since",
            ],
            TableKind::Positions => &[
                "account",
                "stock",
                "bought",
                "bought_value",
                "sold",
                "sold_value",
                "net",
            ],
            TableKind::Commands => &[
                "record",
                "at",
                "officer",
                "command",
                "of",
                "about",
                "before",
                "after",
                "verdict",
                "ended_orders",
                "ended_shares",
            ],
            TableKind::Denials => &["rule", "account", "denied"],
            TableKind::Spans => &["from", "orders", "fills", "denied"],
        }
    }
}
