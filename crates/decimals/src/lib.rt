// Numbers in decimal, as lines and terms have them.
#![tactic(auto)]

ghost use Rattle.std.specs.Prelude.{◌≡◌, ◌<◌};
ghost use Rattle.decimals.specs.Decimal.{digit as Decimal·digit};

// The sign of a digit, put by whoever writes into a lent array: std prints to what may refuse.
pub fn digit(x: u32) -> u8
    requires { x < 10 }
    ensures { result ≡ Decimal·digit x }
{
    b'0' + x as u8
}
