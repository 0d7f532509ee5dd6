ghost use Rattle.std.specs.Prelude.{◌≡◌, Some};
ghost use Rattle.toml.specs.View.{view};
ghost use Rattle.mq_base.specs.Refusal.{Answers};
ghost use Rattle.toml_tree.specs.Form.{ReadsTree};
ghost use Rattle.toml_tree.specs.Outcome.{told, tree_of, tree_outcome, lists_outcome};

use crate::error::{DocumentNo, ReadError};
use crate::form::FromValue;
use std::alloc::Global;
use toml::Value;

/// The lists that the bytes of a file give, by the form that their type asks for. docs/FORMATS.md says the form of
/// each file.
///
/// `Err(Syntax)` says that the bytes are no UTF-8 or no TOML document, `Err(Shape)` that the document has not the
/// form, and `Err(NoMemory)` that the allocator refused a request.
pub fn read_document<L: FromValue>(alloc: Global, bytes: &[u8]) -> Result<L, DocumentNo>
    ensures { Answers told result (lists_outcome L.from_data bytes.now) }
{
    match parse(alloc, bytes) {
        Ok(tree) => read_tree(alloc, &tree),
        Err(ReadError::Malformed) => Err(DocumentNo::Syntax),
        Err(ReadError::NoMemory) => Err(DocumentNo::NoMemory),
    }
}

// The lists of a tree.
fn read_tree<L: FromValue>(alloc: Global, tree: &Value) -> Result<L, DocumentNo>
    ensures { Answers told result (tree_outcome L.from_data (Some (view tree.now))) }
{
    match L::read(alloc, tree) {
        Ok(lists) => Ok(lists),
        Err(ReadError::Malformed) => Err(DocumentNo::Shape),
        Err(ReadError::NoMemory) => Err(DocumentNo::NoMemory),
    }
}

// The tree of a file.
#[tactic(auto, using(crate::proofs::TreeLaws::trees), unfolding(crate::specs::Outcome::tree_of))]
fn parse(alloc: Global, bytes: &[u8]) -> Result<Value, ReadError>
    ensures { ReadsTree result (tree_of bytes.now) }
{
    let Ok(text) = std::str::from_utf8(bytes) else {
        return Err(ReadError::Malformed);
    };
    match toml::table_from_str(alloc, text) {
        Ok(table) => Ok(Value::Table(table)),
        Err(e) => {
            if e.is_memory() {
                return Err(ReadError::NoMemory);
            }
            Err(ReadError::Malformed)
        }
    }
}
