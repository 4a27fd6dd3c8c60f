//! The files that a call names.
use sw_args::Call;

/// The one network file that a call reads, if it reads one.
pub(crate) fn file_of<'a>(call: &Call<'a>) -> Option<&'a str> {
    match call {
        Call::Route { file, .. }
        | Call::Decide { file, .. }
        | Call::Check { file, .. }
        | Call::Report { file, .. }
        | Call::Replay { file, .. }
        | Call::Run { file, .. }
        | Call::Migrate { file }
        | Call::Explain { file, .. }
        | Call::Draw { file, .. }
        | Call::Rmap { file, .. }
        | Call::Mend { file, .. }
        | Call::Margin { file, .. }
        | Call::Witness { file, .. } => Some(file),
        Call::Audit { .. } | Call::Init { .. } => None,
    }
}

/// The other file that a call reads, if it reads two.
pub(crate) fn second_of<'a>(call: &Call<'a>) -> Option<&'a str> {
    match call {
        Call::Check { certificate, .. } => Some(certificate),
        Call::Replay { schedule, .. } => Some(schedule),
        Call::Run { load, .. } => Some(load),
        _ => None,
    }
}
