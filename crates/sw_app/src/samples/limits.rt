//! The sample `limits`: the text of examples/guide/bus-limited.toml.

/// An instrument bus with limits on unanswered commands.
pub(crate) const LIMITS: &str = r#"#:schema ../../schema/network.schema.json
# Verdict: free height 2.
#
# A camera whose image writes are acknowledged, and a computer that reads the camera.
# Without limits that can lock up: targets that answer stand on both sides of the
# link between the routers.
#
#   CAM --1 R1 2----1 R2 2-- OBC
#                        3-- MM
#
# Each `reply` has `outstanding = 1`: no further command of the flow is begun before the
# last one is answered; a retry after a time-out is one more. So at most one command is
# unanswered at each target. MM always takes what comes, with the one slot that it has,
# since nothing else ends there. CAM sends commands too, and their replies end there: to
# take always it needs a slot more than commands may be unanswered, and has it.
# For the verdict one of the two would be enough.
version = 3
node = [
  { name = "OBC" },
  { name = "CAM", target = { logical = 0x61, size = 4096, slots = 2 } },
  { name = "MM", target = { logical = 0x50, start = 0x40000000, size = 65536 } },
]
switch = [{ name = "R1" }, { name = "R2" }]
link = [
  { a = "CAM", b = "R1", b_port = 1 },
  { a = "R1", a_port = 2, b = "R2", b_port = 1 },
  { a = "OBC", b = "R2", b_port = 2 },
  { a = "MM", b = "R2", b_port = 3 },
]
flow = [
  # housekeeping: the computer reads the camera
  { name = "hk", from = "OBC", to = "CAM", address = [1, 1, 0x61], left = 1, reply = { path = [2, 2], initiator = 0x40, outstanding = 1 } },
  # images: the camera writes to the mass memory, which answers each write
  { name = "image", from = "CAM", to = "MM", address = [2, 3, 0x50], left = 1, reply = { path = [1, 1], initiator = 0x61, outstanding = 1 } },
]
"#;
