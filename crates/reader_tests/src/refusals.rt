//! The refusals of the readers, each as its number and its places.
use mq_base::Refusing;

/// The number of a refusal and its two places.
pub(crate) type Places = (u16, u64, u64);

/// What stands in place of a refusal where there is none.
pub(crate) const ACCEPTED: Places = (0, 0, 0);

/// The number and the places of a refusal. Want of memory has the number 999, which no refusal has.
pub(crate) fn places_of<E: Refusing>(no: &E) -> Places {
    match no.refusal() {
        Some(refusal) => (refusal.code, refusal.at, refusal.item),
        None => (999, 0, 0),
    }
}
