use mq_base::AttrSet;

/// What the steps so far made of a node's table: which attributes are sealed in it, and by which ones its rows were chosen or
/// grouped. At a node of a plan it stands for the profile whose visible encrypted set is `enc`, whose visible plaintext set
/// is the rest of the node's visible set, and whose equivalent sets are the node's. It is a view of the node where `enc` is
/// within the node's visible set. docs/MODEL.md, "Relation profile".
#[derive(Clone, Copy, Debug, PartialEq, Eq, PartialOrd, Ord, Hash)]
pub struct View {
    /// The visible encrypted attributes.
    pub enc: AttrSet,
    /// The implicit plaintext attributes.
    pub ip: AttrSet,
    /// The implicit encrypted attributes.
    pub ie: AttrSet,
}
