// Charging for rings: an issue line is priced by a price list and booked in a till, all by value. Zeroed memory is the till at first.
ghost use Rattle.std.specs.Prelude.{◌≡◌};
ghost use Rattle.charges.specs.Charges.{price_line};

use charges::Prices;
use tills::{Priced, Till, answer};

// Prices an issue line, its line feed included, and gives its charge and the till afterwards, which is the one handed in where the call is refused.
// Checks 13, 16, 19 and 22.
#[unsafe(no_mangle)]
pub extern "C" fn pevghazo_price(till: Till, prices: Prices, line: &[u8]) -> Priced
    ensures { result ≡ price_line prices till line.now }
{
    answer(till, charges::price(till, prices, line))
}
