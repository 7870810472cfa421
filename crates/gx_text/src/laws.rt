//! Laws of the definitions, each as what a function without a body ensures.

ghost use Rattle.gx_text.specs.Laws.{JsonIsPrinted, ShownIsVisible, StringsEnd};

/// Whatever bytes a peer chose, nothing is shown of them but characters that are seen, and in JSON spaces: no end of a
/// line, no control character.
pub fn shown_bytes_are_visible()
    ensures text { ShownIsVisible }
    ensures json { JsonIsPrinted }
{}

/// Whatever bytes a peer chose, a JSON string of them ends at its own last quote.
pub fn strings_end()
    ensures { StringsEnd }
{}
