//! Extended plans: the query's plan with encryptions, decryptions and sends, their states and costs, and the laws that bound every
//! one of them. It stands on the profiles, the authority and the costs of single steps; search, certificates and providers stand on it.
#![tactic(auto)]

mod job;
mod laws;
mod list_laws;
mod planned;
mod state;
mod step;
mod step_no;

pub use job::Job;
pub use laws::{
    closed_labels_bound, crypts_are_across, entries_tell_least, gains_are_terms,
    least_has_certificate, least_is_shown, least_labels_are_closed, none_has_certificate,
    none_is_shown, spelling_determines, terms_are_gained, terms_are_seen,
};
pub use list_laws::outcomes_are_exact;
pub use state::{Entry, Found, Labels, PlanTotals, State};
pub use step::{
    after_cross, after_send, after_step, crossable, leaf_at, leaf_of, leaf_state, run_step, work_of,
};
pub use step_no::{StepNo, StepWhy};
