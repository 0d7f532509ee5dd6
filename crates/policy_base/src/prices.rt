/// The prices and sizes that a price file states for a policy. Each number is within 64 bits.
/// docs/FORMATS.md, "Price file", says what is accepted, and docs/MODEL.md what is reckoned from it.
#[derive(Clone, Copy)]
pub struct Prices {
    /// What each subject asks for a unit of work, and 0 past the last subject.
    pub cpu: [u64; 16],
    /// What sending a byte costs, from each subject to each other one: the link's price, or else the default; and 0 from
    /// a subject to itself, and past the last subject.
    pub net: [[u64; 16]; 16],
    /// The number of rows that is stated for each table, and 0 past the last table.
    pub rows: [u64; 8],
    /// The number of distinct values that is stated for each attribute, at least 1, and 0 past the last attribute.
    pub distinct: [u64; 64],
}
