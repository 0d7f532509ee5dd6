ghost use Rattle.std.specs.Prelude.{◌≡◌};
ghost use Rattle.query_bind.specs.declared.refusal.BindNo.TheVariants.{Refused};
ghost use Rattle.query_bind.specs.Faults.{fault_if};
ghost use Rattle.query_bind.specs.inside.Results.{fault_of};

use crate::refusal::{BindCode, BindNo};

/// The first fault of a query, with its place.
#[derive(Clone, Copy)]
pub struct Fault {
    code: BindCode,
    at: u32,
}

impl Fault {
    /// This fault at this place.
    pub fn new(code: BindCode, at: u32) -> Fault
        ensures { result ≡ record { code = code; at = at } }
    {
        Fault { code, at }
    }
}

/// This fault at this place, where the test says that there is one.
pub fn refuse_if(wrong: bool, code: BindCode, at: u32) -> Result<(), Fault>
    ensures { fault_of result ≡ fault_if wrong code at }
{
    if wrong {
        return Err(Fault::new(code, at));
    }
    Ok(())
}

impl From<Fault> for BindNo {
    ghost from_gives = { λ fault e. e ≡ Refused fault.code fault.at };

    fn from(fault: Fault) -> BindNo {
        BindNo::Refused {
            code: fault.code,
            at: fault.at,
        }
    }
}
