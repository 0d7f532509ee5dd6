//! Lists that grow by what is kept.

ghost use Rattle.std.specs.Prelude.{◌≡◌, ◌++◌, ◌∷◌, [], OnOk, if◌then◌else◌};

use mq_base::NoMemory;

// Adds an item where it is kept.
pub(crate) fn push_if<T: Drop>(items: &mut Vec<T>, keep: bool, item: T) -> Result<(), NoMemory>
    ensures { OnOk result (items.new.items ≡ items.old.items ++ (if keep then item ∷ [] else [])) }
{
    if keep {
        items.push(item)?;
    }
    Ok(())
}
