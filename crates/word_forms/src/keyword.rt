ghost use Rattle.std.specs.Prelude.{◌≡◌};
ghost use Rattle.std.specs.Str.{str_eq_ignore_ascii_case};
ghost use Rattle.word_forms.specs.Keywords.{keyword_of};

/// A keyword of a query. docs/FORMATS.md, "Query", lists them.
#[derive(Clone, Copy, Debug, PartialEq, Eq)]
pub enum Keyword {
    Select,
    From,
    Join,
    On,
    Where,
    And,
    Group,
    By,
    Having,
    Sum,
    Min,
    Max,
    Count,
}

// Whether the text is this keyword, in any case of letters.
fn is_spelt(text: &[u8], keyword: &str) -> bool
    ensures { result ≡ str_eq_ignore_ascii_case text.now keyword.now }
{
    text.eq_ignore_ascii_case(keyword.as_bytes())
}

impl Keyword {
    /// The keyword that a text is, in any case of letters; or none, where it is no keyword.
    #[tactic(auto, unfolding(crate::specs::Keywords::keyword_of))]
    pub fn of(text: &[u8]) -> Option<Keyword>
        ensures { result ≡ keyword_of text.now }
    {
        if is_spelt(text, "SELECT") {
            Some(Keyword::Select)
        } else if is_spelt(text, "FROM") {
            Some(Keyword::From)
        } else if is_spelt(text, "JOIN") {
            Some(Keyword::Join)
        } else if is_spelt(text, "ON") {
            Some(Keyword::On)
        } else if is_spelt(text, "WHERE") {
            Some(Keyword::Where)
        } else if is_spelt(text, "AND") {
            Some(Keyword::And)
        } else if is_spelt(text, "GROUP") {
            Some(Keyword::Group)
        } else if is_spelt(text, "BY") {
            Some(Keyword::By)
        } else if is_spelt(text, "HAVING") {
            Some(Keyword::Having)
        } else if is_spelt(text, "SUM") {
            Some(Keyword::Sum)
        } else if is_spelt(text, "MIN") {
            Some(Keyword::Min)
        } else if is_spelt(text, "MAX") {
            Some(Keyword::Max)
        } else if is_spelt(text, "COUNT") {
            Some(Keyword::Count)
        } else {
            None
        }
    }
}
