ghost use Rattle.std.specs.Prelude.{◌≡◌};

use crate::refusal::PriceCode;

/// The first fault of a price file, with its places.
#[derive(Clone, Copy)]
pub struct Fault {
    pub code: PriceCode,
    pub at: u64,
    pub item: u64,
}

impl Fault {
    /// A fault at these places.
    pub fn at(code: PriceCode, at: u64, item: usize) -> Fault
        ensures { result ≡ record { code = code; at = at; item = item } }
    {
        Fault {
            code,
            at,
            item: item as u64,
        }
    }
}
