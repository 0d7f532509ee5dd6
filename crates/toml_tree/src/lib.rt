//! Reads a TOML document into lists of the caller's own types, or answers that it is no document or has not the
//! form. The readers of the policy file and of the price file stand on it.
#![tactic(auto)]

mod document;
mod error;
mod form;

pub use document::read_document;
pub use error::{DocumentNo, ReadError};
pub use form::{FromValue, check_version, filled, has_only, list_at, read_at, value_at};
