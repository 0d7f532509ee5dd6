ghost use Rattle.std.specs.Prelude.{◌≡◌, ◌<◌};
ghost use Rattle.policy_base.specs.Accepted.{plain_of, sealed_of};

use mq_base::{AttrSet, Schema, Scheme, Seq, SubjectId, Text};

/// An accepted policy. Subjects, tables and attributes have their ids in the order of the file.
/// docs/FORMATS.md, "Policy file", says what is accepted, and docs/MODEL.md, "Grants", what each subject may see.
#[derive(Drop)]
pub struct Policy {
    /// The tables, and all their columns.
    pub schema: Schema,
    /// The names of the subjects, at most 16.
    pub subjects: Seq<Text>,
    /// The subject that asks.
    pub user: SubjectId,
    /// What each subject may see plain, and empty sets past the last subject.
    pub plain: [AttrSet; 16],
    /// What each subject may see sealed, and empty sets past the last subject.
    pub sealed: [AttrSet; 16],
    /// The subject that stores each table.
    pub store: Seq<SubjectId>,
    /// The attributes that are sealed where they are stored.
    pub rest: AttrSet,
    /// The most revealing scheme that each attribute may be sealed under, and Ope past the last attribute.
    pub ceiling: [Scheme; 64],
}

impl Policy {
    /// The attributes that the subject may see plain. It takes no memory.
    pub fn plain(&self, s: SubjectId) -> AttrSet
        requires { s.0 < 16 }
        ensures { result.0 ≡ plain_of self.now s.0 }
    {
        self.plain[s.0 as usize]
    }

    /// The attributes that the subject may see sealed. It takes no memory.
    pub fn sealed(&self, s: SubjectId) -> AttrSet
        requires { s.0 < 16 }
        ensures { result.0 ≡ sealed_of self.now s.0 }
    {
        self.sealed[s.0 as usize]
    }
}
