//! What an audit is asked for.
use sw_json::Release;

/// What an audit is asked for.
#[derive(Clone, Copy)]
pub struct AuditOptions<'a> {
    /// One JSON object in place of a line for each file.
    pub json: bool,
    /// Only files whose status is not 0 are told.
    pub quiet: bool,
    /// The certificate of each free network is kept.
    pub certificates: bool,
    /// What the program is, for the JSON object.
    pub release: Release<'a>,
}
