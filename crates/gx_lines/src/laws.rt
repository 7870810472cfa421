//! What is so of every line.

ghost use Rattle.gx_lines.specs.{NameLaws.{NamesAreVisible, JsonNamesArePrinted}, LineLaws.{AnswersAreOneLine, EarlierAnswersAreOneLine, OrdersAreOneLine, CopiesAreOneLine}};

use gx_text::shown_bytes_are_visible;

/// Whatever bytes a peer put into a name, visible characters alone are shown of it, and in JSON spaces: none ends a line, and
/// none speaks to a terminal.
pub fn names_are_visible()
    ensures text { NamesAreVisible }
    ensures json { JsonNamesArePrinted }
{
    shown_bytes_are_visible();
}

/// Each line is one line, whatever its message holds: visible characters and spaces, and an LF at its end.
pub fn lines_are_whole()
    ensures answers { AnswersAreOneLine }
    ensures earlier_answers { EarlierAnswersAreOneLine }
    ensures orders { OrdersAreOneLine }
    ensures copies { CopiesAreOneLine }
{
    shown_bytes_are_visible();
}
