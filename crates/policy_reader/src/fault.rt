ghost use Rattle.std.specs.Prelude.{◌≡◌, Err};

use crate::refusal::PolicyCode;

/// The first fault of a policy, with its places.
#[derive(Clone, Copy)]
pub struct Fault {
    pub code: PolicyCode,
    pub at: u64,
    pub item: u64,
}

impl Fault {
    /// A fault at these places.
    pub fn at(code: PolicyCode, at: usize, item: usize) -> Fault
        ensures { result ≡ record { code = code; at = at; item = item } }
    {
        Fault {
            code,
            at: at as u64,
            item: item as u64,
        }
    }
}
