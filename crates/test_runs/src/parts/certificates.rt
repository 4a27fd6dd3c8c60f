//! Certificates that are made.

use std::alloc::Global;
use sw_cert::Certificate;
use sw_flow::Place;
use sw_topo::Chan;

const TEXT: &[u8] =
    b"swcert 1\nchannels 2\nnumber 0\nnumber 65535\nflows 2\nflow 1\nplace 0 0\nflow 0\nend\n";

/// The text of a certificate of two numbers and two flows, the first of which has one place so often; or there is no such certificate.
fn has_text(alloc: Global, times: usize, wanted: Option<&[u8]>) -> bool {
    let start = Place {
        channel: Chan::new(0),
        deleted: 0,
    };
    let mut numbers = Vec::new(alloc);
    let mut lists = Vec::new(alloc);
    let has_numbers = numbers.extend_from_slice(&[0, 65535]).is_ok();
    let has_lists = match vec![in alloc; start; times] {
        Ok(first) => lists.push(first).is_ok() && lists.push(Vec::new(alloc)).is_ok(),
        Err(_) => false,
    };
    let is_right = match Certificate::new(numbers, lists) {
        Some(certificate) => certificate.write(alloc).ok().as_deref() == wanted,
        None => wanted.is_none(),
    };
    has_numbers && has_lists && is_right
}

/// A certificate is written, and lists no place twice.
pub(crate) fn are_written(alloc: Global) -> bool {
    has_text(alloc, 1, Some(TEXT)) && has_text(alloc, 2, None)
}
