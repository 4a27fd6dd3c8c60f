//! The sample `ring`: the text of examples/networks/boards-ring.toml.

/// A ring of boards.
pub(crate) const RING: &str = r#"#:schema ../../schema/network.schema.json
# Verdict: free height 6.
#
# Six processing boards, each a processor (P) and a four-port router (R); the routers
# form a ring: port 2 of each goes to port 3 of the next. Every board sends to every
# other one, by path addresses.
#
# No packet passes the link from R5 to R0: the ring is used as a line, and the sixth
# link is a spare. Sent the shorter way round (boards-ring-cyclic.toml), packets that
# go on over a second link wait for one another all round the ring.
version = 1
node = [ { name = "P0" }, { name = "P1" }, { name = "P2" }, { name = "P3" }, { name = "P4" }, { name = "P5" } ]
switch = [ { name = "R0" }, { name = "R1" }, { name = "R2" }, { name = "R3" }, { name = "R4" }, { name = "R5" } ]
link = [
  { a = "P0", b = "R0", b_port = 1 },
  { a = "P1", b = "R1", b_port = 1 },
  { a = "P2", b = "R2", b_port = 1 },
  { a = "P3", b = "R3", b_port = 1 },
  { a = "P4", b = "R4", b_port = 1 },
  { a = "P5", b = "R5", b_port = 1 },
  { a = "R0", a_port = 2, b = "R1", b_port = 3 },
  { a = "R1", a_port = 2, b = "R2", b_port = 3 },
  { a = "R2", a_port = 2, b = "R3", b_port = 3 },
  { a = "R3", a_port = 2, b = "R4", b_port = 3 },
  { a = "R4", a_port = 2, b = "R5", b_port = 3 },
  { a = "R5", a_port = 2, b = "R0", b_port = 3 },
]
flow = [
  { name = "P0-P1", from = "P0", to = "P1", address = [2, 1] },
  { name = "P0-P2", from = "P0", to = "P2", address = [2, 2, 1] },
  { name = "P0-P3", from = "P0", to = "P3", address = [2, 2, 2, 1] },
  { name = "P0-P4", from = "P0", to = "P4", address = [2, 2, 2, 2, 1] },
  { name = "P0-P5", from = "P0", to = "P5", address = [2, 2, 2, 2, 2, 1] },
  { name = "P1-P0", from = "P1", to = "P0", address = [3, 1] },
  { name = "P1-P2", from = "P1", to = "P2", address = [2, 1] },
  { name = "P1-P3", from = "P1", to = "P3", address = [2, 2, 1] },
  { name = "P1-P4", from = "P1", to = "P4", address = [2, 2, 2, 1] },
  { name = "P1-P5", from = "P1", to = "P5", address = [2, 2, 2, 2, 1] },
  { name = "P2-P0", from = "P2", to = "P0", address = [3, 3, 1] },
  { name = "P2-P1", from = "P2", to = "P1", address = [3, 1] },
  { name = "P2-P3", from = "P2", to = "P3", address = [2, 1] },
  { name = "P2-P4", from = "P2", to = "P4", address = [2, 2, 1] },
  { name = "P2-P5", from = "P2", to = "P5", address = [2, 2, 2, 1] },
  { name = "P3-P0", from = "P3", to = "P0", address = [3, 3, 3, 1] },
  { name = "P3-P1", from = "P3", to = "P1", address = [3, 3, 1] },
  { name = "P3-P2", from = "P3", to = "P2", address = [3, 1] },
  { name = "P3-P4", from = "P3", to = "P4", address = [2, 1] },
  { name = "P3-P5", from = "P3", to = "P5", address = [2, 2, 1] },
  { name = "P4-P0", from = "P4", to = "P0", address = [3, 3, 3, 3, 1] },
  { name = "P4-P1", from = "P4", to = "P1", address = [3, 3, 3, 1] },
  { name = "P4-P2", from = "P4", to = "P2", address = [3, 3, 1] },
  { name = "P4-P3", from = "P4", to = "P3", address = [3, 1] },
  { name = "P4-P5", from = "P4", to = "P5", address = [2, 1] },
  { name = "P5-P0", from = "P5", to = "P0", address = [3, 3, 3, 3, 3, 1] },
  { name = "P5-P1", from = "P5", to = "P1", address = [3, 3, 3, 3, 1] },
  { name = "P5-P2", from = "P5", to = "P2", address = [3, 3, 3, 1] },
  { name = "P5-P3", from = "P5", to = "P3", address = [3, 3, 1] },
  { name = "P5-P4", from = "P5", to = "P4", address = [3, 1] },
]
"#;
