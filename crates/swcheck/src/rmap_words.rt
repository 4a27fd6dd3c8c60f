//! What the words of `rmap` ask for.
ghost use Rattle.std.specs.Prelude.{IfNone, IfSome};
ghost use Rattle.swcheck.specs.Accesses.{IsAccess, IsNoAccess};

use sw_app_rmap::Access;

/// What an RMAP command does: it reads so many bytes, or writes these. A read without its reply brings nothing, and there is no third.
pub(crate) fn access_of<'a>(
    action: &str,
    value: &'a str,
    unacknowledged: bool,
) -> Option<Access<'a>>
    ensures some { IfSome result (IsAccess action.now value.entry.now unacknowledged) }
    ensures none { IfNone result (IsNoAccess action.now unacknowledged) }
{
    if action == "write" {
        return Some(Access::Write {
            data: value,
            acknowledged: !unacknowledged,
        });
    }
    if action != "read" {
        return None;
    }
    if unacknowledged {
        return None;
    }
    Some(Access::Read { length: value })
}
