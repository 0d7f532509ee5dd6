//! The laws of extended plans, for the layers that search, check and run them. Each is a call that takes nothing and does nothing.

ghost use Rattle.extended_plan.specs.Laws.{ClosedLabelsBound, CryptsAreAcross, EntriesTellLeast, GainsAreTerms, LeastCostsAreEntries, LeastHasCertificate, LeastIsShown, LeastLabelsAreClosed, NoneHasCertificate, NoneIsShown, SpellingDetermines, TermsAreGained, TermsAreSeen};

/// A runnable extended plan that gives a node is held by a subject of the policy; its view is one of the node, and stands there for its
/// profile. docs/MODEL.md, "States".
pub fn terms_are_seen()
    ensures { TermsAreSeen }
{}

/// In a state that its holder may hold, the attributes that the holder sees plain are encrypted, or decrypted where they are encrypted, and
/// no other ones. docs/MODEL.md, "States".
pub fn crypts_are_across()
    ensures { CryptsAreAcross }
{}

/// What the last step of an extended plan gains from the states of its operands is the plan's state, at what the step costs.
/// docs/MODEL.md, "States".
pub fn gains_are_terms()
    ensures { GainsAreTerms }
{}

/// Each extended plan that stands at a node is gained there by its last step. docs/MODEL.md, "States".
pub fn terms_are_gained()
    ensures { TermsAreGained }
{}

/// Closed labels list the state of each extended plan that stands at a node, with a label of at most its cost, cut at 2^128 - 1.
/// docs/MODEL.md, "Certificate".
pub fn closed_labels_bound()
    ensures { ClosedLabelsBound }
{}

/// No valid extended plan costs less than what a certificate shows as the least. docs/MODEL.md, "Certificate".
pub fn least_is_shown()
    ensures { LeastIsShown }
{}

/// There is no valid extended plan where a certificate shows that there is none. docs/MODEL.md, "Certificate".
pub fn none_is_shown()
    ensures { NoneIsShown }
{}

/// The least costs of the states that are reached, cut, are closed labels. docs/MODEL.md, "Certificate".
pub fn least_labels_are_closed()
    ensures { LeastLabelsAreClosed }
{}

/// The label of an entry of such labels is the least cost of its state, cut; below 2^128 - 1 it is that cost. A state with its least
/// cost, cut, is such an entry. docs/MODEL.md, "Certificate".
pub fn entries_tell_least()
    ensures tells { EntriesTellLeast }
    ensures made { LeastCostsAreEntries }
{}

/// A least valid extended plan has a certificate, with those labels, where its cost is below 2^128. docs/MODEL.md, "Certificate".
pub fn least_has_certificate()
    ensures { LeastHasCertificate }
{}

/// Where there is no valid extended plan, those labels are a certificate of that. docs/MODEL.md, "Certificate".
pub fn none_has_certificate()
    ensures { NoneHasCertificate }
{}

/// Two extended plans with one spelling are one. docs/MODEL.md, "Extended plans".
pub fn spelling_determines()
    ensures { SpellingDetermines }
{}
