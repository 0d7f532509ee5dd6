use mq_base::AttrId;

/// Why a subject may not hold a table: the first of the three conditions that fails, and an attribute that breaks it.
/// docs/MODEL.md, "Authorised".
#[derive(Clone, Copy, Debug, PartialEq, Eq)]
pub struct Breach {
    /// The number of the condition, from 1.
    pub rule: u8,
    /// Under the first and the second condition the least attribute that breaks it. Under the third one, of the first set of
    /// equivalent attributes that breaks it, the least member that the subject may not see plain.
    pub attr: AttrId,
}
