//! Laws of the definitions, each as what a function without a body ensures.

ghost use Rattle.gx_book.specs.Laws.{EachSideShows, OtherSideStays, OtherStocksStay, OwnSideShows};

/// A change of a side, or of each, is seen on that side, or on each, and nowhere else.
pub fn sides_show_a_change()
    ensures each { EachSideShows }
    ensures own { OwnSideShows }
    ensures side { OtherSideStays }
    ensures stocks { OtherStocksStay }
{}
