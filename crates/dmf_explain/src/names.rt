//! Names that comments of a problem text give to its nodes and arcs (docs/FORMATS.md, Names).
use crate::fields::count;
use dmf_text::{Fields, Lines, number};

/// What a comment names.
#[derive(Clone, Copy, PartialEq, Eq)]
pub enum Thing {
    Node,
    Arc,
}

/// What a name stands for: the number of the first thing with this name in the text, and whether it is the only one.
#[derive(Clone, Copy)]
pub struct Named {
    pub number: u64,
    pub is_only: bool,
}

/// The thing to which the comments of a problem text give this name. A thing keeps its first name.
pub fn find_named(text: &[u8], thing: Thing, name: &[u8]) -> Option<Named> {
    let mut found: Option<Named> = None;
    for (_, line) in Lines::new(text) {
        if let Some(number) = numbered_as(line, thing, name) {
            found = Some(also(found, number));
        }
    }
    found
}

/// The result so far, with one more thing of this name.
fn also(found: Option<Named>, number: u64) -> Named {
    match found {
        None => Named {
            number,
            is_only: true,
        },
        Some(first) => Named {
            number: first.number,
            is_only: first.is_only && first.number == number,
        },
    }
}

/// The number of the thing to which this line gives the name, if the line is a comment that names such a thing.
fn numbered_as(line: &[u8], thing: Thing, name: &[u8]) -> Option<u64> {
    let mut fields = Fields::new(line);
    if !names(&mut fields, thing) {
        return None;
    }
    let number = number(fields.next()?).ok()?;
    if behind(line, 3) == name {
        Some(number)
    } else {
        None
    }
}

/// Takes the first two fields of a line, and returns whether they begin a comment that names such a thing.
fn names(fields: &mut Fields<'_>, thing: Thing) -> bool {
    fields.next() == Some(b"c".as_slice()) && fields.next() == Some(thing.word())
}

impl Thing {
    /// The word for such a thing in comments.
    fn word(self) -> &'static [u8] {
        match self {
            Thing::Node => b"node",
            Thing::Arc => b"arc",
        }
    }
}

/// The two nodes of an arc: from the tail to the head.
#[derive(Clone, Copy)]
pub struct ArcEnds {
    pub tail: u64,
    pub head: u64,
}

/// Two names of together more fields than this are not taken apart.
const MOST_FIELDS: u64 = 12;

/// The two nodes whose names or numbers stand one after the other, if there is just one way to take them apart.
pub fn find_ends(text: &[u8], names: &[u8]) -> Option<ArcEnds> {
    let mut found: Option<ArcEnds> = None;
    for fields in 1..count(names).min(MOST_FIELDS) {
        if let Some(ends) = ends_at(text, names, fields as usize) {
            if found.is_some() {
                return None;
            }
            found = Some(ends);
        }
    }
    found
}

/// The two nodes, if the name of the first has so many fields.
fn ends_at(text: &[u8], names: &[u8], fields: usize) -> Option<ArcEnds> {
    let head = behind(names, fields);
    let end = names.len().saturating_sub(head.len());
    let tail = (&names[..end]).trim_ascii();
    Some(ArcEnds {
        tail: node_of(text, tail)?,
        head: node_of(text, head)?,
    })
}

/// The only node with this name or number.
fn node_of(text: &[u8], name: &[u8]) -> Option<u64> {
    if let Ok(number) = number(name) {
        return Some(number);
    }
    let named = find_named(text, Thing::Node, name)?;
    if named.is_only {
        Some(named.number)
    } else {
        None
    }
}

/// What stands before the last field, without leading and trailing blanks.
pub fn without_last_field(bytes: &[u8]) -> &[u8] {
    let mut end = 0;
    for (i, byte) in bytes.iter().enumerate() {
        if *byte == b' ' || *byte == b'\t' {
            end = i;
        }
    }
    let end = end.min(bytes.len());
    (&bytes[..end]).trim_ascii()
}

/// What stands after so many fields of a line, without leading and trailing blanks.
pub fn behind(line: &[u8], fields: usize) -> &[u8] {
    let mut rest = line.trim_ascii();
    for _ in 0..fields {
        rest = without_field(rest);
    }
    rest
}

/// The bytes after the field with which these bytes begin.
fn without_field(bytes: &[u8]) -> &[u8] {
    for (i, byte) in bytes.iter().enumerate() {
        if *byte == b' ' || *byte == b'\t' {
            return (&bytes[i..]).trim_ascii();
        }
    }
    &[]
}
