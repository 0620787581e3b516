/// The largest number of nodes that a network may have.
pub const MAX_NODES: u32 = 16_777_216;

/// The largest number of arcs that a network may have, closed ones counted.
pub const MAX_ARCS: u32 = 134_217_728;
