//! Serials: the tags of commands, and the tokens of orders.

ghost use Rattle.std.specs.Prelude.{◌≡◌, ◌<◌};
ghost use Rattle.gx_operator.specs.Asking.{digit_of, serial_of};

/// The digit of a number whose unit this is.
fn digit(number: u64, unit: u64) -> u8
    requires { 0 < unit }
    ensures { result ≡ digit_of number unit }
{
    b'0' + (number / unit % 10) as u8
}

/// The number in 14 digits.
#[tactic(auto, unfolding(crate::specs::Asking::serial_of))]
pub(crate) fn serial(number: u64) -> [u8; 14]
    ensures { result ≡ serial_of number }
{
    [
        digit(number, 10_000_000_000_000),
        digit(number, 1_000_000_000_000),
        digit(number, 100_000_000_000),
        digit(number, 10_000_000_000),
        digit(number, 1_000_000_000),
        digit(number, 100_000_000),
        digit(number, 10_000_000),
        digit(number, 1_000_000),
        digit(number, 100_000),
        digit(number, 10_000),
        digit(number, 1_000),
        digit(number, 100),
        digit(number, 10),
        digit(number, 1),
    ]
}
