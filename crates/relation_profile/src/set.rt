ghost use Rattle.std.specs.Prelude.{◌≡◌, ◌<◌, IsTrue};
ghost use Rattle.base_laws.specs.Sets.{has};

use mq_base::{AttrId, AttrSet};

/// Whether an attribute of any id is a member, which one from 64 on never is.
pub fn holds(set: AttrSet, a: AttrId) -> bool
    ensures small { IsTrue result → a.0 < 64 }
    ensures found { result ≡ has set.0 a.0 }
{
    if a.0 >= 64 {
        return false;
    }
    set.has(a)
}
