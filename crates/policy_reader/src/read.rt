ghost use Rattle.std.specs.Prelude.{◌≡◌, IfOk};
ghost use Rattle.mq_base.specs.Refusal.{Answers};
ghost use Rattle.base_laws.specs.Firsts.{judged};
ghost use Rattle.policy_base.specs.Accepted.{IsAccepted};
ghost use Rattle.policy_reader.specs.Granted.{IsGranted, IsStoredByOwners, SeesAsFiled};
ghost use Rattle.policy_reader.specs.Codes.{told};
ghost use Rattle.policy_reader.specs.Outcome.{policy_outcome, policy_value};
ghost use Rattle.policy_reader.specs.Rules.{first_fault};
ghost use Rattle.policy_reader.specs.inside.Checks.{fault_of};

use crate::build::build;
use crate::check::{check_limits, check_names, check_owners, check_user};
use crate::fault::Fault;
use crate::raw::RawPolicy;
use crate::refusal::PolicyNo;
use crate::rules::check_rules;
use mq_base::Refusing;
use policy_base::Policy;
use std::alloc::Global;
use toml_tree::read_document;

/// The policy that the bytes of a policy file stand for. docs/FORMATS.md, "Policy file", says the form, the
/// limits and each refusal; the first refusal in the order written there is the one answered.
///
/// An `Err(Refused)` is that refusal, and `Err(NoMemory)` says that the allocator refused a request.
pub fn read_policy(alloc: Global, bytes: &[u8]) -> Result<Policy, PolicyNo>
    ensures read { Answers ⟦<PolicyNo as Refusing>⟧.told result (policy_outcome bytes.now) }
    ensures accepted { IfOk result IsAccepted }
    ensures granted { IfOk result (SeesAsFiled bytes.now) }
    ensures version_1 { IfOk result IsStoredByOwners }
{
    match read_document::<RawPolicy>(alloc, bytes) {
        Ok(raw) => judge(alloc, raw),
        Err(no) => Err(PolicyNo::from(no)),
    }
}

// The policy of lists that have the form, or their first fault.
#[tactic(auto, using(crate::proofs::AcceptedLaws::accepts))]
fn judge(alloc: Global, raw: RawPolicy) -> Result<Policy, PolicyNo>
    ensures read { Answers told result (judged (first_fault raw) (policy_value raw)) }
    ensures accepted { IfOk result IsAccepted }
    ensures granted { IfOk result (IsGranted raw) }
    ensures version_1 { IfOk result IsStoredByOwners }
{
    match check(&raw) {
        Ok(()) => Ok(build(alloc, raw)?),
        Err(fault) => Err(PolicyNo::from(fault)),
    }
}

// The lists have no fault.
#[tactic(auto, using(crate::proofs::AcceptedLaws::limits))]
fn check(raw: &RawPolicy) -> Result<(), Fault>
    ensures { fault_of result ≡ first_fault raw.now }
{
    let subjects = raw.subjects.as_slice();
    let tables = raw.tables.as_slice();
    check_limits(subjects, tables)?;
    check_names(subjects, tables)?;
    check_owners(subjects, tables)?;
    check_user(subjects, &raw.user)?;
    check_rules(subjects, tables, raw.rules.as_slice())
}
