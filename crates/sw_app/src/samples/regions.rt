//! The sample `regions`: the text of examples/networks/regions.toml.

/// Units in regions, by regional addresses.
pub(crate) const REGIONS: &str = r#"#:schema ../../schema/network.schema.json
# Verdict: free height 7.
#
# Forty units in three regions (platform P, payloads A and B), each with a router of
# 18 ports; the routers are joined pairwise.
#
#            RP 16 ---- 16 RA 17 ---- 17 RB 16 ---- 17 RP
#
# Addresses: 0xE0, 0xE1 and 0xE2 name the regions; that byte is deleted at the router
# which sends the packet into the region (`delete = true`). 0x40 to 0x8C name units,
# within their region only; that byte is kept (`left = 1`). Some flows go by path
# addresses through a third region, to keep load off the direct link.
#
# The science of the payloads is written to the mass memory without acknowledgement:
# with it, targets on both sides of one link would answer over it (see
# camera-downlink.toml). Each new flow that goes through a third region should be
# checked: see regions-cyclic.toml.
version = 2

# ---- flows -------------------------------------------------------------
flow = [
  # housekeeping: the OBC reads every unit (regional logical addresses: region byte, unit byte)
  { name = "hk-STR-1", from = "OBC", to = "STR-1", address = [0x51], left = 1, reply = { path = [], initiator = 0x40 } },
  { name = "hk-STR-2", from = "OBC", to = "STR-2", address = [0x52], left = 1, reply = { path = [], initiator = 0x40 } },
  { name = "hk-GPS", from = "OBC", to = "GPS", address = [0x53], left = 1, reply = { path = [], initiator = 0x40 } },
  { name = "hk-GYRO", from = "OBC", to = "GYRO", address = [0x54], left = 1, reply = { path = [], initiator = 0x40 } },
  { name = "hk-RW-1", from = "OBC", to = "RW-1", address = [0x55], left = 1, reply = { path = [], initiator = 0x40 } },
  { name = "hk-RW-2", from = "OBC", to = "RW-2", address = [0x56], left = 1, reply = { path = [], initiator = 0x40 } },
  { name = "hk-RW-3", from = "OBC", to = "RW-3", address = [0x57], left = 1, reply = { path = [], initiator = 0x40 } },
  { name = "hk-RW-4", from = "OBC", to = "RW-4", address = [0x58], left = 1, reply = { path = [], initiator = 0x40 } },
  { name = "hk-PCDU", from = "OBC", to = "PCDU", address = [0x59], left = 1, reply = { path = [], initiator = 0x40 } },
  { name = "hk-A-I01", from = "OBC", to = "A-I01", address = [0xE1, 0x61], left = 1, reply = { path = [0xE0], initiator = 0x40 } },
  { name = "hk-A-I02", from = "OBC", to = "A-I02", address = [0xE1, 0x62], left = 1, reply = { path = [0xE0], initiator = 0x40 } },
  { name = "hk-A-I03", from = "OBC", to = "A-I03", address = [0xE1, 0x63], left = 1, reply = { path = [0xE0], initiator = 0x40 } },
  { name = "hk-A-I04", from = "OBC", to = "A-I04", address = [0xE1, 0x64], left = 1, reply = { path = [0xE0], initiator = 0x40 } },
  { name = "hk-A-I05", from = "OBC", to = "A-I05", address = [0xE1, 0x65], left = 1, reply = { path = [0xE0], initiator = 0x40 } },
  { name = "hk-A-I06", from = "OBC", to = "A-I06", address = [0xE1, 0x66], left = 1, reply = { path = [0xE0], initiator = 0x40 } },
  { name = "hk-A-I07", from = "OBC", to = "A-I07", address = [0xE1, 0x67], left = 1, reply = { path = [0xE0], initiator = 0x40 } },
  { name = "hk-A-I08", from = "OBC", to = "A-I08", address = [0xE1, 0x68], left = 1, reply = { path = [0xE0], initiator = 0x40 } },
  { name = "hk-A-I09", from = "OBC", to = "A-I09", address = [0xE1, 0x69], left = 1, reply = { path = [0xE0], initiator = 0x40 } },
  { name = "hk-A-I10", from = "OBC", to = "A-I10", address = [0xE1, 0x6A], left = 1, reply = { path = [0xE0], initiator = 0x40 } },
  { name = "hk-A-I11", from = "OBC", to = "A-I11", address = [0xE1, 0x6B], left = 1, reply = { path = [0xE0], initiator = 0x40 } },
  { name = "hk-A-I12", from = "OBC", to = "A-I12", address = [0xE1, 0x6C], left = 1, reply = { path = [0xE0], initiator = 0x40 } },
  { name = "hk-B-I01", from = "OBC", to = "B-I01", address = [0xE2, 0x81], left = 1, reply = { path = [0xE0], initiator = 0x40 } },
  { name = "hk-B-I02", from = "OBC", to = "B-I02", address = [0xE2, 0x82], left = 1, reply = { path = [0xE0], initiator = 0x40 } },
  { name = "hk-B-I03", from = "OBC", to = "B-I03", address = [0xE2, 0x83], left = 1, reply = { path = [0xE0], initiator = 0x40 } },
  { name = "hk-B-I04", from = "OBC", to = "B-I04", address = [0xE2, 0x84], left = 1, reply = { path = [0xE0], initiator = 0x40 } },
  { name = "hk-B-I05", from = "OBC", to = "B-I05", address = [0xE2, 0x85], left = 1, reply = { path = [0xE0], initiator = 0x40 } },
  { name = "hk-B-I06", from = "OBC", to = "B-I06", address = [0xE2, 0x86], left = 1, reply = { path = [0xE0], initiator = 0x40 } },
  { name = "hk-B-I07", from = "OBC", to = "B-I07", address = [0xE2, 0x87], left = 1, reply = { path = [0xE0], initiator = 0x40 } },
  { name = "hk-B-I08", from = "OBC", to = "B-I08", address = [0xE2, 0x88], left = 1, reply = { path = [0xE0], initiator = 0x40 } },
  { name = "hk-B-I09", from = "OBC", to = "B-I09", address = [0xE2, 0x89], left = 1, reply = { path = [0xE0], initiator = 0x40 } },
  { name = "hk-B-I10", from = "OBC", to = "B-I10", address = [0xE2, 0x8A], left = 1, reply = { path = [0xE0], initiator = 0x40 } },
  { name = "hk-B-I11", from = "OBC", to = "B-I11", address = [0xE2, 0x8B], left = 1, reply = { path = [0xE0], initiator = 0x40 } },
  { name = "hk-B-I12", from = "OBC", to = "B-I12", address = [0xE2, 0x8C], left = 1, reply = { path = [0xE0], initiator = 0x40 } },
  # each data processing unit configures and reads its own instruments
  { name = "A-cfg-I01", from = "A-DPU", to = "A-I01", address = [0x61], left = 1, reply = { path = [], initiator = 0x60 } },
  { name = "A-cfg-I02", from = "A-DPU", to = "A-I02", address = [0x62], left = 1, reply = { path = [], initiator = 0x60 } },
  { name = "A-cfg-I03", from = "A-DPU", to = "A-I03", address = [0x63], left = 1, reply = { path = [], initiator = 0x60 } },
  { name = "A-cfg-I04", from = "A-DPU", to = "A-I04", address = [0x64], left = 1, reply = { path = [], initiator = 0x60 } },
  { name = "A-cfg-I05", from = "A-DPU", to = "A-I05", address = [0x65], left = 1, reply = { path = [], initiator = 0x60 } },
  { name = "A-cfg-I06", from = "A-DPU", to = "A-I06", address = [0x66], left = 1, reply = { path = [], initiator = 0x60 } },
  { name = "A-cfg-I07", from = "A-DPU", to = "A-I07", address = [0x67], left = 1, reply = { path = [], initiator = 0x60 } },
  { name = "A-cfg-I08", from = "A-DPU", to = "A-I08", address = [0x68], left = 1, reply = { path = [], initiator = 0x60 } },
  { name = "A-cfg-I09", from = "A-DPU", to = "A-I09", address = [0x69], left = 1, reply = { path = [], initiator = 0x60 } },
  { name = "A-cfg-I10", from = "A-DPU", to = "A-I10", address = [0x6A], left = 1, reply = { path = [], initiator = 0x60 } },
  { name = "A-cfg-I11", from = "A-DPU", to = "A-I11", address = [0x6B], left = 1, reply = { path = [], initiator = 0x60 } },
  { name = "A-cfg-I12", from = "A-DPU", to = "A-I12", address = [0x6C], left = 1, reply = { path = [], initiator = 0x60 } },
  { name = "B-cfg-I01", from = "B-DPU", to = "B-I01", address = [0x81], left = 1, reply = { path = [], initiator = 0x80 } },
  { name = "B-cfg-I02", from = "B-DPU", to = "B-I02", address = [0x82], left = 1, reply = { path = [], initiator = 0x80 } },
  { name = "B-cfg-I03", from = "B-DPU", to = "B-I03", address = [0x83], left = 1, reply = { path = [], initiator = 0x80 } },
  { name = "B-cfg-I04", from = "B-DPU", to = "B-I04", address = [0x84], left = 1, reply = { path = [], initiator = 0x80 } },
  { name = "B-cfg-I05", from = "B-DPU", to = "B-I05", address = [0x85], left = 1, reply = { path = [], initiator = 0x80 } },
  { name = "B-cfg-I06", from = "B-DPU", to = "B-I06", address = [0x86], left = 1, reply = { path = [], initiator = 0x80 } },
  { name = "B-cfg-I07", from = "B-DPU", to = "B-I07", address = [0x87], left = 1, reply = { path = [], initiator = 0x80 } },
  { name = "B-cfg-I08", from = "B-DPU", to = "B-I08", address = [0x88], left = 1, reply = { path = [], initiator = 0x80 } },
  { name = "B-cfg-I09", from = "B-DPU", to = "B-I09", address = [0x89], left = 1, reply = { path = [], initiator = 0x80 } },
  { name = "B-cfg-I10", from = "B-DPU", to = "B-I10", address = [0x8A], left = 1, reply = { path = [], initiator = 0x80 } },
  { name = "B-cfg-I11", from = "B-DPU", to = "B-I11", address = [0x8B], left = 1, reply = { path = [], initiator = 0x80 } },
  { name = "B-cfg-I12", from = "B-DPU", to = "B-I12", address = [0x8C], left = 1, reply = { path = [], initiator = 0x80 } },
  # science to the mass memory, by RMAP writes without acknowledgement
  { name = "A-sci", from = "A-DPU", to = "SSMM", address = [0xE0, 0x50], left = 1 },
  { name = "B-sci", from = "B-DPU", to = "SSMM", address = [0xE0, 0x50], left = 1 },
  # the downlink formatters read the mass memory
  { name = "dl-1", from = "DFT-1", to = "SSMM", address = [0x50], left = 1, reply = { path = [], initiator = 0x41 } },
  { name = "dl-2", from = "DFT-2", to = "SSMM", address = [0x50], left = 1, reply = { path = [], initiator = 0x42 } },
  { name = "obc-mm", from = "OBC", to = "SSMM", address = [0x50], left = 1, reply = { path = [], initiator = 0x40 } },
  # the payloads exchange triggers; detours by path addresses keep load off the direct links
  { name = "trig-A-B", from = "A-DPU", to = "B-DPU", address = [0xE2, 0x80], left = 1 },
  { name = "trig-B-A", from = "B-DPU", to = "A-DPU", address = [0xE1, 0x60], left = 1 },
  { name = "bulk-A", from = "A-DPU", to = "SSMM", address = [17, 16, 2] },
  { name = "boot-B", from = "OBC", to = "B-DPU", address = [16, 17, 1] },
  # router configuration port
  { name = "cfg-RP", from = "OBC", to = "RP-CFG", address = [0, 0xFE], left = 1, reply = { path = [1], initiator = 0x40 } },
]

# ---- links -------------------------------------------------------------
link = [
  { a = "OBC", b = "RP", b_port = 1 },
  { a = "SSMM", b = "RP", b_port = 2, buffer_a = 4096 },
  { a = "DFT-1", b = "RP", b_port = 3 },
  { a = "DFT-2", b = "RP", b_port = 4 },
  { a = "STR-1", b = "RP", b_port = 5 },
  { a = "STR-2", b = "RP", b_port = 6 },
  { a = "GPS", b = "RP", b_port = 7 },
  { a = "GYRO", b = "RP", b_port = 8 },
  { a = "RW-1", b = "RP", b_port = 9 },
  { a = "RW-2", b = "RP", b_port = 10 },
  { a = "RW-3", b = "RP", b_port = 11 },
  { a = "RW-4", b = "RP", b_port = 12 },
  { a = "PCDU", b = "RP", b_port = 13 },
  { a = "A-DPU", b = "RA", b_port = 1 },
  { a = "A-I01", b = "RA", b_port = 2 },
  { a = "A-I02", b = "RA", b_port = 3 },
  { a = "A-I03", b = "RA", b_port = 4 },
  { a = "A-I04", b = "RA", b_port = 5 },
  { a = "A-I05", b = "RA", b_port = 6 },
  { a = "A-I06", b = "RA", b_port = 7 },
  { a = "A-I07", b = "RA", b_port = 8 },
  { a = "A-I08", b = "RA", b_port = 9 },
  { a = "A-I09", b = "RA", b_port = 10 },
  { a = "A-I10", b = "RA", b_port = 11 },
  { a = "A-I11", b = "RA", b_port = 12 },
  { a = "A-I12", b = "RA", b_port = 13 },
  { a = "B-DPU", b = "RB", b_port = 1 },
  { a = "B-I01", b = "RB", b_port = 2 },
  { a = "B-I02", b = "RB", b_port = 3 },
  { a = "B-I03", b = "RB", b_port = 4 },
  { a = "B-I04", b = "RB", b_port = 5 },
  { a = "B-I05", b = "RB", b_port = 6 },
  { a = "B-I06", b = "RB", b_port = 7 },
  { a = "B-I07", b = "RB", b_port = 8 },
  { a = "B-I08", b = "RB", b_port = 9 },
  { a = "B-I09", b = "RB", b_port = 10 },
  { a = "B-I10", b = "RB", b_port = 11 },
  { a = "B-I11", b = "RB", b_port = 12 },
  { a = "B-I12", b = "RB", b_port = 13 },
  { a = "RP", a_port = 0, b = "RP-CFG" },
  { a = "RP", a_port = 16, b = "RA", b_port = 16 },
  { a = "RP", a_port = 17, b = "RB", b_port = 16 },
  { a = "RA", a_port = 17, b = "RB", b_port = 17 },
]

# ---- nodes -------------------------------------------------------------
node = [
  { name = "OBC" },
  { name = "SSMM", target = { logical = 0x50, size = 65536, slots = 4 } },
  { name = "DFT-1" },
  { name = "DFT-2" },
  { name = "STR-1", target = { logical = 0x51, size = 1024 } },
  { name = "STR-2", target = { logical = 0x52, size = 1024 } },
  { name = "GPS", target = { logical = 0x53, size = 1024 } },
  { name = "GYRO", target = { logical = 0x54, size = 1024 } },
  { name = "RW-1", target = { logical = 0x55, size = 1024 } },
  { name = "RW-2", target = { logical = 0x56, size = 1024 } },
  { name = "RW-3", target = { logical = 0x57, size = 1024 } },
  { name = "RW-4", target = { logical = 0x58, size = 1024 } },
  { name = "PCDU", target = { logical = 0x59, size = 1024 } },
  { name = "A-DPU" },
  { name = "A-I01", target = { logical = 0x61, size = 1024 } },
  { name = "A-I02", target = { logical = 0x62, size = 1024 } },
  { name = "A-I03", target = { logical = 0x63, size = 1024 } },
  { name = "A-I04", target = { logical = 0x64, size = 1024 } },
  { name = "A-I05", target = { logical = 0x65, size = 1024 } },
  { name = "A-I06", target = { logical = 0x66, size = 1024 } },
  { name = "A-I07", target = { logical = 0x67, size = 1024 } },
  { name = "A-I08", target = { logical = 0x68, size = 1024 } },
  { name = "A-I09", target = { logical = 0x69, size = 1024 } },
  { name = "A-I10", target = { logical = 0x6A, size = 1024 } },
  { name = "A-I11", target = { logical = 0x6B, size = 1024 } },
  { name = "A-I12", target = { logical = 0x6C, size = 1024 } },
  { name = "B-DPU" },
  { name = "B-I01", target = { logical = 0x81, size = 1024 } },
  { name = "B-I02", target = { logical = 0x82, size = 1024 } },
  { name = "B-I03", target = { logical = 0x83, size = 1024 } },
  { name = "B-I04", target = { logical = 0x84, size = 1024 } },
  { name = "B-I05", target = { logical = 0x85, size = 1024 } },
  { name = "B-I06", target = { logical = 0x86, size = 1024 } },
  { name = "B-I07", target = { logical = 0x87, size = 1024 } },
  { name = "B-I08", target = { logical = 0x88, size = 1024 } },
  { name = "B-I09", target = { logical = 0x89, size = 1024 } },
  { name = "B-I10", target = { logical = 0x8A, size = 1024 } },
  { name = "B-I11", target = { logical = 0x8B, size = 1024 } },
  { name = "B-I12", target = { logical = 0x8C, size = 1024 } },
  { name = "RP-CFG", target = { logical = 0xFE, size = 4096 } },
]

# ---- routers, 18 ports -------------------------------------------------
switch = [
  { name = "RP", arbiter = "round-robin", route = [
    { address = 0x40, ports = [1] },
    { address = 0x50, ports = [2] },
    { address = 0x41, ports = [3] },
    { address = 0x42, ports = [4] },
    { address = 0x51, ports = [5] },
    { address = 0x52, ports = [6] },
    { address = 0x53, ports = [7] },
    { address = 0x54, ports = [8] },
    { address = 0x55, ports = [9] },
    { address = 0x56, ports = [10] },
    { address = 0x57, ports = [11] },
    { address = 0x58, ports = [12] },
    { address = 0x59, ports = [13] },
    { address = 0xE1, ports = [16], delete = true },   # to region A
    { address = 0xE2, ports = [17], delete = true },   # to region B
  ] },
  { name = "RA", arbiter = "round-robin", route = [
    { address = 0x60, ports = [1] },
    { address = 0x61, ports = [2] },
    { address = 0x62, ports = [3] },
    { address = 0x63, ports = [4] },
    { address = 0x64, ports = [5] },
    { address = 0x65, ports = [6] },
    { address = 0x66, ports = [7] },
    { address = 0x67, ports = [8] },
    { address = 0x68, ports = [9] },
    { address = 0x69, ports = [10] },
    { address = 0x6A, ports = [11] },
    { address = 0x6B, ports = [12] },
    { address = 0x6C, ports = [13] },
    { address = 0xE0, ports = [16], delete = true },   # to region P
    { address = 0xE2, ports = [17], delete = true },   # to region B
  ] },
  { name = "RB", arbiter = "round-robin", route = [
    { address = 0x80, ports = [1] },
    { address = 0x81, ports = [2] },
    { address = 0x82, ports = [3] },
    { address = 0x83, ports = [4] },
    { address = 0x84, ports = [5] },
    { address = 0x85, ports = [6] },
    { address = 0x86, ports = [7] },
    { address = 0x87, ports = [8] },
    { address = 0x88, ports = [9] },
    { address = 0x89, ports = [10] },
    { address = 0x8A, ports = [11] },
    { address = 0x8B, ports = [12] },
    { address = 0x8C, ports = [13] },
    { address = 0xE0, ports = [16], delete = true },   # to region P
    { address = 0xE1, ports = [17], delete = true },   # to region A
  ] },
]
"#;
