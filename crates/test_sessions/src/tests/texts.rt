//! Problem texts that tests begin with.

/// Five arcs from node 1 to node 4.
pub const NETWORK_A: &[u8] =
    b"p max 4 5\nn 1 s\nn 4 t\na 1 2 3\na 1 3 2\na 2 3 5\na 2 4 2\na 3 4 3\n";

/// Two paths of three arcs from node 1 to node 5, which share their last arc.
pub const NETWORK_B: &[u8] =
    b"p max 5 5\nn 1 s\nn 5 t\na 1 2 1\na 1 3 1\na 2 4 1\na 3 4 1\na 4 5 1\n";

/// One arc, with the largest capacity.
pub const FULL_ARC: &[u8] = b"p max 2 1\nn 1 s\nn 2 t\na 1 2 18446744073709551615\n";

/// Unusual forms that the reader accepts: a comment glued to its letter, blank lines, runs of blanks, carriage returns, the sink
/// before the source, a self loop, an arc into the source, parallel arcs, leading zeros, and no end of the last line.
pub const LENIENT: &[u8] =
    b"cNote\r\n\r\np  max\t3   5\r\nn 3 t\r\nn 1 s\r\na 1 2 4\r\n  a 2 2 9\r\na 1 2 007 \r\na 2 1 6\r\na 2 3 9";

/// Parallel arcs by node 2, which also has a self loop, and two arcs by node 3.
pub const PARALLEL: &[u8] =
    b"p max 4 6\nn 1 s\nn 4 t\na 1 2 1\na 2 2 5\na 1 2 2\na 2 4 3\na 1 3 2\na 3 4 2\n";

/// Two paths of the same length lead from the source to the sink, by node 3 and by node 2. The arc to node 3 has the smaller number.
pub const TWO_SHORTEST: &[u8] =
    b"p max 5 5\nn 1 s\nn 5 t\na 1 3 1\na 1 2 1\na 2 4 1\na 3 4 1\na 4 5 1\n";

/// No arcs.
pub const NO_ARCS: &[u8] = b"p max 2 0\nn 1 s\nn 2 t\n";
