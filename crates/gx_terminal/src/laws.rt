//! What prices that are typed and prices that are shown have to do with each other.

ghost use Rattle.gx_terminal.specs.PriceLaws.{PricesAreReadBack};

/// A price that is typed as `gx_lines` shows it is the same price.
pub fn prices_are_read_back()
    ensures { PricesAreReadBack }
{}
