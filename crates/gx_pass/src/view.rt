//! What seats know, and the rule of the table. Its one word is the length of the history.
//!
//! A call of the keeper or of a pass is one step of the table, and `enter` is two:
//!
//! ```text
//! issue   Keeping                  makes  Keeping, one more line issued, and Holding
//! enter   Keeping and a Holding    make   Meeting and Consumed; then Meeting makes Keeping
//! note    Keeping                  makes  Keeping, with one more record
//! leave   Keeping                  makes  Keeping without the line, and Holding
//! length  Holding                  makes  Holding, which was told the length
//! ```

use atomic_table::{Join, Play, Seat, Split, Table, TableRule};
use gx_history::record::RecordData;
use std::alloc::Global;
use std::collections::LinkedList;
use std::marker::{Brand, PhantomData};

/// What the keeper knows: the history, the lines of the passes that were entered and not left, the last first, and how
/// many lines were issued. No value of it is made.
pub struct KeeperView {
    /// The records of the day, in their order.
    pub list: LinkedList<RecordData>,
    /// The lines of the passes that are entered, the last first.
    pub entered: LinkedList<u16>,
    /// How many lines were issued.
    pub issued: u16,
}

/// What a pass knows: its line, a beginning of the history, and a length that it was told. No value of it is made.
pub struct LineView {
    /// The line that it speaks for.
    pub line: u16,
    /// The records that it knows: the first ones of the day.
    pub front: LinkedList<RecordData>,
    /// A number of records that it was told, which the day has at least.
    pub told: u64,
}

/// What a seat knows. The keeper meets a pass between taking it in and comparing it.
pub enum View {
    /// That of the keeper.
    Keeping(KeeperView),
    /// That of the keeper while it meets a pass.
    Meeting(KeeperView, LineView),
    /// That of a pass.
    Holding(LineView),
    /// That of a seat that is of no more use.
    Consumed,
}

/// The rule of the table: what its word and its seats know agree.
pub struct Law;

impl TableRule<u8, View, ()> for Law {
    ghost use Rattle.gx_pass.specs.Rules.{IsKept};
    ghost use Rattle.gx_pass.specs.Views.{first_view};

    ghost holds = { λ _ s. IsKept s.words s.views };

    ghost first = { λ _. first_view };
}

/// The table that the keeper and the passes share.
pub type ViewTable = Table<u8, View, (), Law, Global>;

/// A seat of the table.
pub type ViewSeat = Seat<u8, View>;

/// A load by a pass, which is told the length.
pub struct LoadLength;

impl Play<u8, View> for LoadLength {
    ghost use Rattle.gx_pass.specs.Rules.{HasTold};

    ghost then = { λ _ m n w. HasTold m n w };
}

/// A load by the keeper, which compares the pass that it took in.
pub struct ComparePass;

impl Play<u8, View> for ComparePass {
    ghost use Rattle.gx_pass.specs.Rules.{HasMet};

    ghost then = { λ _ m n w. HasMet m w };
}

/// A load by the keeper, which sees that each line of the history was issued.
pub struct CheckLines;

impl Play<u8, View> for CheckLines {
    ghost use Rattle.gx_pass.specs.Rules.{HasLooked};

    ghost then = { λ _ m n w. HasLooked m w };
}

/// Names one record. The caller of a step picks it.
pub trait RecordName {
    ghost use Rattle.gx_history.specs.declared.record.RecordData.{RecordData};

    ghost entry: { RecordData };
}

impl RecordName for Brand {
    ghost use Rattle.gx_pass.specs.Views.{no_record};

    ghost entry = { no_record };
}

/// The step by which the history takes the record.
pub struct AppendRecord<E: RecordName> {
    of: PhantomData<E>,
}

impl<E: RecordName> Play<u8, View> for AppendRecord<E> {
    ghost use Rattle.gx_pass.specs.Rules.{HasTaken};

    ghost then = { λ _ m n w. HasTaken E.entry m w };
}

/// The keeper makes a pass with a new line.
pub struct IssueLine;

impl Split<View> for IssueLine {
    ghost use Rattle.gx_pass.specs.Views.{with_line_issued, view_of_issued};

    ghost left = { with_line_issued };

    ghost right = { view_of_issued };
}

/// Names one line. The caller of a step picks it.
pub trait LineName {
    ghost use Rattle.std.specs.Prelude.{ℕ};

    ghost line: { ℕ };
}

impl LineName for Brand {
    ghost line = { 0 };
}

/// The keeper lets go a line.
pub struct LeaveLine<L: LineName> {
    of: PhantomData<L>,
}

impl<L: LineName> Split<View> for LeaveLine<L> {
    ghost use Rattle.gx_pass.specs.Views.{view_without_line, view_of_line};

    ghost left = { view_without_line L.line };

    ghost right = { view_of_line L.line };
}

/// The keeper takes in a pass.
pub struct EnterLine;

impl Join<View> for EnterLine {
    ghost use Rattle.gx_pass.specs.Views.{view_of_meeting};
    ghost use Rattle.gx_pass.specs.declared.view.View.TheVariants.{Consumed};

    ghost both = { view_of_meeting };

    ghost spent = { Consumed };
}
