//! Terms that no order may have.

ghost use Rattle.std.specs.Prelude.{◌≡◌, ◌∷◌, [], ◌==◌, ◌||◌, not, nat_le};
ghost use Rattle.gx_units.specs.Money.{is_bad_price};
ghost use Rattle.gx_history.specs.{OuchValues.{display_anonymous, display_attributable, immediate_or_cancel, market_hours, system_hours, side_buy, side_sell, side_sell_short, side_sell_short_exempt}, Rules.is_one_of};

use gx_units::Price;

/// Shares are 0, or 1,000,000 or more.
pub fn are_bad_shares(shares: u32) -> bool
    ensures { result ≡ (shares == 0 || nat_le 1000000 shares) }
{
    shares == 0 || shares >= 1_000_000
}

/// No order may have this price, in ten-thousandths of a dollar.
pub fn is_bad_price(price: u32) -> bool
    ensures { result ≡ is_bad_price price }
{
    Price::checked(price).is_none()
}

/// Display is neither `A` nor `Y`.
pub fn is_bad_display(display: u8) -> bool
    ensures { result
        ≡ not (is_one_of (display_attributable ∷ display_anonymous ∷ []) display) }
{
    display != b'A' && display != b'Y'
}

/// Time in Force is none of 0, 99,998 and 99,999.
pub fn is_bad_time(time_in_force: u32) -> bool
    ensures { result ≡
        not (is_one_of (immediate_or_cancel ∷ market_hours ∷ system_hours ∷ []) time_in_force) }
{
    !matches!(time_in_force, 0 | 99_998 | 99_999)
}

/// Buy/Sell Indicator is none of `B`, `S`, `T` and `E`.
pub fn is_bad_side(side: u8) -> bool
    ensures { result ≡ not (is_one_of
        (side_buy ∷ side_sell ∷ side_sell_short ∷ side_sell_short_exempt ∷ []) side) }
{
    !matches!(side, b'B' | b'S' | b'T' | b'E')
}
