/// How many rows each node of a plan is reckoned to give, at its place, and 0 past the last node.
/// docs/MODEL.md, "Estimates and costs".
#[derive(Clone, Copy)]
pub struct Estimates {
    pub rows: [u64; 64],
}
