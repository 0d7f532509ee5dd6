ghost use Rattle.std.specs.Prelude.{◌≡◌, option_copied, slice_get};
ghost use Rattle.std.specs.Str.{IsUtf8};
ghost use Rattle.policy_base.specs.Accepted.{IsAccepted};
ghost use Rattle.policy_base.specs.Names.{attribute_name, subject_name, table_name};

use crate::policy::Policy;
use mq_base::{AttrId, SubjectId, TableId, Text};
use std::str;

impl Policy {
    /// The name of a table, empty where there is no such table. It takes no memory.
    pub fn table_name(&self, t: TableId) -> &str
        requires { IsAccepted self.now }
        ensures { result.now ≡ table_name self.now t }
    {
        match item_at(self.schema.tables.as_slice(), t.0 as usize) {
            Some(info) => name_text(&info.name),
            None => "",
        }
    }

    /// The name of an attribute, empty where there is no such attribute. It takes no memory.
    pub fn attribute_name(&self, a: AttrId) -> &str
        requires { IsAccepted self.now }
        ensures { result.now ≡ attribute_name self.now.schema a }
    {
        match item_at(self.schema.attrs.as_slice(), a.0 as usize) {
            Some(info) => name_text(&info.name),
            None => "",
        }
    }

    /// The name of a subject, empty where there is no such subject. It takes no memory.
    pub fn subject_name(&self, s: SubjectId) -> &str
        requires { IsAccepted self.now }
        ensures { result.now ≡ subject_name self.now s }
    {
        match item_at(self.subjects.as_slice(), s.0 as usize) {
            Some(name) => name_text(name),
            None => "",
        }
    }
}

// The bytes of a name as text.
fn name_text(name: &Text) -> &str
    requires { IsUtf8 name.now }
    ensures { result.now ≡ name.now }
{
    str::from_utf8(name.as_bytes()).unwrap()
}

// The item at a place, where there is one.
fn item_at<T>(items: &[T], at: usize) -> Option<&T>
    ensures { option_copied result ≡ slice_get items.now at }
{
    items.get(at)
}
