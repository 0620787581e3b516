//! What a text that is no problem text looks like.

/// What the first bytes of a text show.
pub fn look_of(text: &[u8]) -> Option<&'static str> {
    if text.starts_with(b"\xef\xbb\xbf") {
        Some("the text begins with a byte order mark: save it as UTF-8 without one")
    } else if text.starts_with(b"\xff\xfe") || text.starts_with(b"\xfe\xff") {
        Some("the text is UTF-16: save it as UTF-8 without a byte order mark")
    } else if text.starts_with(b"\x1f\x8b") {
        Some("the text is compressed by gzip: gunzip -c FILE writes it as it was")
    } else if is_packed(text) {
        Some("the text is compressed: unpack it first")
    } else if text.starts_with(b"{") || text.starts_with(b"[") || text.starts_with(b"<") {
        Some("this looks like JSON or XML: a problem has lines that begin with c, p, n or a")
    } else {
        None
    }
}

/// Whether the text begins as a file of zip, bzip2, xz or zstd does.
fn is_packed(text: &[u8]) -> bool {
    text.starts_with(b"PK\x03\x04")
        || text.starts_with(b"BZh")
        || text.starts_with(b"\xfd7zXZ")
        || text.starts_with(b"\x28\xb5\x2f\xfd")
}

/// Whether a line looks like a row of a table, with commas or semicolons between its columns.
pub fn is_of_table(line: &[u8]) -> bool {
    line.contains(&b',') || line.contains(&b';')
}
