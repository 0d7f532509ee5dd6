ghost use Rattle.std.specs.Prelude.{◌≡◌, ◌<◌};
ghost use Rattle.mq_base.specs.Schemes as schemes_spec;

use mq_base::{AttrId, CmpOp, Scheme};

// Whether cells under a scheme support a comparison.
fn supports(scheme: Scheme, cmp: CmpOp) -> bool
    ensures { result ≡ schemes_spec.supports scheme cmp }
{
    match scheme {
        Scheme::Rnd => false,
        Scheme::Det => cmp == CmpOp::Eq || cmp == CmpOp::Ne,
        Scheme::Ope => true,
    }
}

// Whether the scheme of an attribute supports a comparison.
pub fn offers(schemes: &[Scheme; 64], cmp: CmpOp, a: AttrId) -> bool
    requires { a.0 < 64 }
    ensures { result ≡ schemes_spec.offers schemes.now cmp a.0 }
{
    supports(schemes[a.0 as usize], cmp)
}
