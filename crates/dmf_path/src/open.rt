//! Which links a search may follow: by their flags, or by their rooms, or by the marks of the nodes to which they lead.
ghost use Rattle.std.specs.Prelude.{◌≡◌, ◌<◌, ℕ, length, slice_index};
ghost use Rattle.dmf_node.specs.Node.{IsNode};

/// A test for open links, by their places.
pub trait OpenLinks {
    ghost use Rattle.std.specs.Prelude.{◌≡◌, ◌==◌, ◌<◌, ℕ, List, length, slice_index};

    // A flag for each link: 1 if it is open.
    ghost flags: { Self → List ℕ };

    /// Whether the link at a place is open.
    fn is_open(&self, place: usize) -> bool
        requires { place < length (flags self.now) }
        ensures { result ≡ (slice_index (flags self.now) place == 1) };
}

/// The links whose flags are 1.
#[derive(Clone, Copy, Drop)]
pub struct Flagged<'a>(pub &'a [u8]);

impl OpenLinks for Flagged<'_> {
    ghost flags = { λ opens. opens.0.now };

    fn is_open(&self, place: usize) -> bool {
        self.0[place] == 1
    }
}

/// The links with room.
#[derive(Clone, Copy, Drop)]
pub struct OpenByRoom<'a>(pub &'a [u64]);

impl OpenLinks for OpenByRoom<'_> {
    ghost use Rattle.std.specs.Prelude.{map};
    ghost use Rattle.dmf_links.specs.Links.{open_flag};

    ghost flags = { λ opens. map open_flag opens.0.now };

    fn is_open(&self, place: usize) -> bool {
        self.0[place] > 0
    }
}

/// The open links that lead to nodes with a mark, or to those without one. The first mark belongs to node 1.
#[derive(Drop)]
pub struct LedTo<'a, O: OpenLinks> {
    /// Which links are open.
    pub opens: O,
    /// The node to which each link leads.
    pub heads: &'a [u32],
    /// For each node whether it is marked.
    pub marks: &'a [bool],
    /// The mark of the nodes to which links may lead.
    pub mark: bool,
    ghost nodes: { (p : ℕ) → p < length heads.now → IsNode (length marks.now) (slice_index heads.now p) },
    ghost one_flag_each: { length (O.flags opens) ≡ length heads.now },
}

impl<O: OpenLinks> OpenLinks for LedTo<'_, O> {
    ghost use Rattle.dmf_path.specs.Through.{flags_to};

    ghost flags = { λ to. flags_to to.mark to.marks.now to.heads.now (O.flags to.opens) };

    fn is_open(&self, place: usize) -> bool {
        let marked = self.marks[self.heads[place] as usize - 1];
        self.opens.is_open(place) && (if self.mark { marked } else { !marked })
    }
}
