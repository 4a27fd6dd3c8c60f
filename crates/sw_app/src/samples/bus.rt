//! The sample `bus`: the text of examples/networks/instrument-bus.toml.

/// An instrument bus with nominal and redundant routers.
pub(crate) const BUS: &str = r#"#:schema ../../schema/network.schema.json
# Verdict: free height 8.
#
# An instrument bus with nominal and redundant routers (8 ports each, after the
# common 8-port router chips: ports 1 to 8 are SpaceWire, port 0 is configuration).
#
#   CAM  SPEC  MAG  PLAS     each instrument has a nominal and a redundant link
#    |N    |N    |N    |N
#   [1     2     3     4 ]   RTR-N   5: OBC-N   6,7: mass memory   8: cross-strap
#   [1     2     3     4 ]   RTR-R   5: OBC-R   6,7: mass memory   8: cross-strap
#    |R    |R    |R    |R
#
# How a unit with several links is written: as several nodes, one a link
# (CAM-N, CAM-R). The mass memory takes ONE stream from four links (a group of
# two at each router), so its front end is written as a switch, MM-FE, with one
# node MM behind it: a group needs a switch at which its links join again.
#
# All flows of the nominal AND of the redundant configuration stand in one file:
# what holds for all of them together holds for any part of them.
version = 1

node = [
  { name = "OBC-N" },
  { name = "OBC-R" },
  # instruments: RMAP targets for housekeeping, 4 kB of registers
  { name = "CAM-N",  target = { logical = 0x61, size = 4096 } },
  { name = "CAM-R",  target = { logical = 0x61, size = 4096 } },
  { name = "SPEC-N", target = { logical = 0x62, size = 4096 } },
  { name = "SPEC-R", target = { logical = 0x62, size = 4096 } },
  { name = "MAG-N",  target = { logical = 0x63, size = 4096 } },
  { name = "MAG-R",  target = { logical = 0x63, size = 4096 } },
  { name = "PLAS-N", target = { logical = 0x64, size = 4096 } },
  { name = "PLAS-R", target = { logical = 0x64, size = 4096 } },
  { name = "MM",     target = { logical = 0x50, start = 0x40000000, size = 65536 } },
  # the routers' configuration ports
  { name = "CFG-N",  target = { logical = 0xFE, size = 4096 } },
  { name = "CFG-R",  target = { logical = 0xFE, size = 4096 } },
]

switch = [
  # 0x50 is the mass memory, by either of two links (group adaptive routing).
  # Putting the cross-strap (port 8) into the group of BOTH routers makes the
  # network cyclic: a packet could be handed to and fro. See instrument-bus-loop.toml.
  { name = "RTR-N", route = [{ address = 0x50, ports = [6, 7] }] },
  { name = "RTR-R", route = [{ address = 0x50, ports = [6, 7] }] },
  { name = "MM-FE", route = [{ address = 0x50, ports = [5] }] },
]

link = [
  { a = "CAM-N",  b = "RTR-N", b_port = 1 },
  { a = "SPEC-N", b = "RTR-N", b_port = 2 },
  { a = "MAG-N",  b = "RTR-N", b_port = 3 },
  { a = "PLAS-N", b = "RTR-N", b_port = 4 },
  { a = "OBC-N",  b = "RTR-N", b_port = 5 },
  { a = "CFG-N",  b = "RTR-N", b_port = 0 },
  { a = "CAM-R",  b = "RTR-R", b_port = 1 },
  { a = "SPEC-R", b = "RTR-R", b_port = 2 },
  { a = "MAG-R",  b = "RTR-R", b_port = 3 },
  { a = "PLAS-R", b = "RTR-R", b_port = 4 },
  { a = "OBC-R",  b = "RTR-R", b_port = 5 },
  { a = "CFG-R",  b = "RTR-R", b_port = 0 },
  { a = "RTR-N", a_port = 6, b = "MM-FE", b_port = 1 },
  { a = "RTR-N", a_port = 7, b = "MM-FE", b_port = 2 },
  { a = "RTR-R", a_port = 6, b = "MM-FE", b_port = 3 },
  { a = "RTR-R", a_port = 7, b = "MM-FE", b_port = 4 },
  { a = "RTR-N", a_port = 8, b = "RTR-R", b_port = 8 },
  { a = "MM", b = "MM-FE", b_port = 5 },
]

flow = [
  # science: RMAP writes without acknowledgement (no `reply`), so that nothing
  # flows back from the mass memory to an instrument
  { name = "cam-sci-n",  from = "CAM-N",  to = "MM", address = [0x50], left = 1 },
  { name = "cam-sci-r",  from = "CAM-R",  to = "MM", address = [0x50], left = 1 },
  { name = "spec-sci-n", from = "SPEC-N", to = "MM", address = [0x50], left = 1 },
  { name = "spec-sci-r", from = "SPEC-R", to = "MM", address = [0x50], left = 1 },
  { name = "mag-sci-n",  from = "MAG-N",  to = "MM", address = [0x50], left = 1 },
  { name = "mag-sci-r",  from = "MAG-R",  to = "MM", address = [0x50], left = 1 },
  { name = "plas-sci-n", from = "PLAS-N", to = "MM", address = [0x50], left = 1 },
  { name = "plas-sci-r", from = "PLAS-R", to = "MM", address = [0x50], left = 1 },

  # housekeeping by the nominal computer: RMAP reads, path addresses there and
  # back. The last address byte is the target's logical address, which is left.
  { name = "hk-cam",  from = "OBC-N", to = "CAM-N",  address = [1, 0x61], left = 1, reply = { path = [5], initiator = 0x40 } },
  { name = "hk-spec", from = "OBC-N", to = "SPEC-N", address = [2, 0x62], left = 1, reply = { path = [5], initiator = 0x40 } },
  { name = "hk-mag",  from = "OBC-N", to = "MAG-N",  address = [3, 0x63], left = 1, reply = { path = [5], initiator = 0x40 } },
  { name = "hk-plas", from = "OBC-N", to = "PLAS-N", address = [4, 0x64], left = 1, reply = { path = [5], initiator = 0x40 } },
  # an instrument that was switched to its redundant link, over the cross-strap
  { name = "hk-cam-x", from = "OBC-N", to = "CAM-R", address = [8, 1, 0x61], left = 1, reply = { path = [8, 5], initiator = 0x40 } },
  # the redundant computer, and the same over the cross-strap the other way
  { name = "hk-cam-r",   from = "OBC-R", to = "CAM-R",  address = [1, 0x61], left = 1, reply = { path = [5], initiator = 0x41 } },
  { name = "hk-spec-r",  from = "OBC-R", to = "SPEC-R", address = [2, 0x62], left = 1, reply = { path = [5], initiator = 0x41 } },
  { name = "hk-mag-r",   from = "OBC-R", to = "MAG-R",  address = [3, 0x63], left = 1, reply = { path = [5], initiator = 0x41 } },
  { name = "hk-plas-r",  from = "OBC-R", to = "PLAS-R", address = [4, 0x64], left = 1, reply = { path = [5], initiator = 0x41 } },

  # the computers read the mass memory for downlink
  { name = "mm-n", from = "OBC-N", to = "MM", address = [6, 5, 0x50], left = 1, reply = { path = [1, 5], initiator = 0x40 } },
  { name = "mm-r", from = "OBC-R", to = "MM", address = [6, 5, 0x50], left = 1, reply = { path = [3, 5], initiator = 0x41 } },

  # each computer configures its own router (port 0); if each also configured the
  # other one over the cross-strap, there would be answering targets on both sides
  # of one link, and that is a cycle: try it
  { name = "cfg-n",   from = "OBC-N", to = "CFG-N", address = [0, 0xFE],    left = 1, reply = { path = [5],    initiator = 0x40 } },
  { name = "cfg-r",   from = "OBC-R", to = "CFG-R", address = [0, 0xFE],    left = 1, reply = { path = [5],    initiator = 0x41 } },
]
"#;
