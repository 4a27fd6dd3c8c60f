//! The sample `housekeeping`: the text of examples/networks/housekeeping.toml.

/// A housekeeping unit, and what it polls.
pub(crate) const HOUSEKEEPING: &str = r#"#:schema ../../schema/network.schema.json
# Verdict: free height 5.
#
# An instrument control unit (ICU) reads eight sensors by RMAP, and is itself read by
# the on-board computer (OBC). Path addresses only.
#
#   OBC --1 RA 3--1 RB 2..5-- S1 S2 S3 S4
#   ICU-I --2  4--1 RC 2..5-- S5 S6 S7 S8
#   ICU-T --5
#
# The ICU has one link for what it asks (ICU-I, the initiator) and one for what it is
# asked (ICU-T, the target). With one link for both (housekeeping-cyclic.toml) the
# network can lock up: the ICU takes no reply of a sensor while it has a reply of its
# own to send, that reply waits behind a command of the ICU for a sensor, and that
# command waits for the sensor, whose last reply the ICU does not take.
#
# `path` is the reply's path address; in the RMAP command it is padded in front with
# zeros to a multiple of four bytes: path = [1, 2] is 00 00 01 02.
version = 2
node = [
  { name = "OBC" },
  { name = "ICU-I" }, { name = "ICU-T", target = { logical = 0x60, size = 8192 } },
  { name = "S1", target = { logical = 0x71, size = 256 } },
  { name = "S2", target = { logical = 0x72, size = 256 } },
  { name = "S3", target = { logical = 0x73, size = 256 } },
  { name = "S4", target = { logical = 0x74, size = 256 } },
  { name = "S5", target = { logical = 0x75, size = 256 } },
  { name = "S6", target = { logical = 0x76, size = 256 } },
  { name = "S7", target = { logical = 0x77, size = 256 } },
  { name = "S8", target = { logical = 0x78, size = 256 } },
]
switch = [ { name = "RA" }, { name = "RB" }, { name = "RC" } ]
link = [
  { a = "OBC", b = "RA", b_port = 1 },
  { a = "ICU-I", b = "RA", b_port = 2 },
  { a = "ICU-T", b = "RA", b_port = 5 },
  { a = "RA", a_port = 3, b = "RB", b_port = 1 },
  { a = "RA", a_port = 4, b = "RC", b_port = 1 },
  { a = "RB", a_port = 2, b = "S1" },
  { a = "RB", a_port = 3, b = "S2" },
  { a = "RB", a_port = 4, b = "S3" },
  { a = "RB", a_port = 5, b = "S4" },
  { a = "RC", a_port = 2, b = "S5" },
  { a = "RC", a_port = 3, b = "S6" },
  { a = "RC", a_port = 4, b = "S7" },
  { a = "RC", a_port = 5, b = "S8" },
]
flow = [
  { name = "icu-s1", from = "ICU-I", to = "S1", address = [3, 2], reply = { path = [1, 2], initiator = 0x60 } },
  { name = "icu-s2", from = "ICU-I", to = "S2", address = [3, 3], reply = { path = [1, 2], initiator = 0x60 } },
  { name = "icu-s3", from = "ICU-I", to = "S3", address = [3, 4], reply = { path = [1, 2], initiator = 0x60 } },
  { name = "icu-s4", from = "ICU-I", to = "S4", address = [3, 5], reply = { path = [1, 2], initiator = 0x60 } },
  { name = "icu-s5", from = "ICU-I", to = "S5", address = [4, 2], reply = { path = [1, 2], initiator = 0x60 } },
  { name = "icu-s6", from = "ICU-I", to = "S6", address = [4, 3], reply = { path = [1, 2], initiator = 0x60 } },
  { name = "icu-s7", from = "ICU-I", to = "S7", address = [4, 4], reply = { path = [1, 2], initiator = 0x60 } },
  { name = "icu-s8", from = "ICU-I", to = "S8", address = [4, 5], reply = { path = [1, 2], initiator = 0x60 } },
  { name = "obc-icu", from = "OBC", to = "ICU-T", address = [5], reply = { path = [1], initiator = 0x40 } },
]
"#;
