//! The laws of the encoded run, for the layers that run and watch extended plans. Each is a call that takes nothing and does nothing.

ghost use Rattle.provider_engine.specs.Agreement.{HiddenColumnsDoNotMatter};
ghost use Rattle.provider_engine.specs.Decoding.{RunsDecode, SealsAreShared};
ghost use Rattle.provider_engine.specs.Subterms.{HiddenColumnsDoNotMatterToHolders, ValidPlansDecode};
ghost use Rattle.provider_engine.specs.Typed.{PlansAreTyped};
ghost use Rattle.provider_engine.specs.Wide.{NodesAreNarrow};

/// The table of each subterm of a valid extended plan, decoded, has exactly the rows of its node, in their order, where no node of that
/// node's subtree is wide. docs/MODEL.md, "Encoded run".
pub fn valid_plans_decode()
    ensures { ValidPlansDecode }
{}

/// So has the table of any term of which each step is runnable, whoever holds it and wherever in a list its steps stand.
/// docs/MODEL.md, "Encoded run".
pub fn runs_decode()
    ensures { RunsDecode }
{}

/// The plan of a bound query is typed, as decoding asks: its operations compare values of one type, and it groups once at most.
/// docs/MODEL.md, "Encoded run".
pub fn plans_are_typed()
    ensures { PlansAreTyped }
{}

/// Attributes that a node compares are sealed under one scheme and one key, as decoding asks, since they have one cluster.
/// docs/MODEL.md, "Encoded run".
pub fn seals_are_shared()
    ensures { SealsAreShared }
{}

/// Where no node of a plan is wide, none of the subtree of any node is. docs/MODEL.md, "Encoded run".
pub fn nodes_are_narrow()
    ensures { NodesAreNarrow }
{}

/// The table of each subterm of a valid extended plan is the same, cell by cell, over any two contents that agree for its holder: columns
/// that the holder may see in no form do not matter to it, whatever seals are used. docs/MODEL.md, "Encoded run".
pub fn hidden_columns_do_not_matter_to_holders()
    ensures { HiddenColumnsDoNotMatterToHolders }
{}

/// So is the table of any term that stands at a node, wherever in a list its steps stand. docs/MODEL.md, "Encoded run".
pub fn hidden_columns_do_not_matter()
    ensures { HiddenColumnsDoNotMatter }
{}
