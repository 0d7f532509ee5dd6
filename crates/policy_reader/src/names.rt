ghost use Rattle.std.specs.Prelude.{◌≡◌, bytes_eq};
ghost use Rattle.policy_base.specs.Names.{is_one_of};
ghost use Rattle.policy_reader.specs.Names.{is_name, is_subject_name, any_subject};

use mq_base::Text;
use word_forms::{Keyword, is_word};

/// Whether the text is a name. docs/FORMATS.md, "Policy file", says the rule.
pub fn is_name(text: &Text) -> bool
    ensures { result ≡ is_name text.now }
{
    let bytes = text.as_bytes();
    bytes.len() <= 32 && is_word(bytes) && Keyword::of(bytes).is_none()
}

/// Whether the text is `any`, the subject of a rule that speaks of all.
pub fn is_any(text: &Text) -> bool
    ensures { result ≡ bytes_eq text.now any_subject }
{
    text.as_bytes() == "any".as_bytes()
}

/// Whether the text is the name of a subject.
pub fn is_subject_name(text: &Text) -> bool
    ensures { result ≡ is_subject_name text.now }
{
    is_name(text) && !is_any(text)
}

/// Whether the text is one of the names.
pub fn is_one_of(text: &Text, names: &[Text]) -> bool
    ensures { result ≡ is_one_of text.now names.now }
{
    names.iter().any(|name| name == text)
}
