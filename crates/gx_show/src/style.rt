//! How records are shown.

/// The form of the lines.
#[derive(Clone, Copy, PartialEq, Eq)]
pub enum ShownForm {
    /// Lines of a script, with what became of each behind them.
    Text,
    /// A line of CSV for each record, below a line of the names of its cells.
    Csv,
    /// An object of JSON for each record.
    Json,
}

/// How records are shown.
#[derive(Clone, Copy)]
pub struct Style {
    /// Text, CSV or JSON.
    pub form: ShownForm,
    /// In text, whether the moment stands in front as a clock shows it. CSV and JSON have it anyhow.
    pub has_clock: bool,
    /// In text, whether a denial says in words why. CSV and JSON have it anyhow.
    pub has_words: bool,
}

impl Style {
    /// The lines of a script, and nothing beside.
    pub const PLAIN: Style = Style {
        form: ShownForm::Text,
        has_clock: false,
        has_words: false,
    };
}
