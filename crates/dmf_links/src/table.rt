//! The links of all nodes, without their rooms.
ghost use Rattle.dmf_links.specs.Links.{AreLinks, ends_of};

use std::ops::Range;

/// The links of all nodes, side by side, in the order of their ranks at each node.
#[derive(Drop)]
pub struct LinkTable {
    /// The number of nodes.
    pub nodes: u32,
    /// The place where the links of each node begin, those of node 0 first, and then the place where the last ones end.
    pub first: Vec<u32>,
    /// At index `v + 1` the place where the links of node `v` end that belong to pairs. Those behind them are spare. `None` if no link is.
    pub ends: Option<Vec<u32>>,
    /// For each link the node to which it leads.
    pub heads: Vec<u32>,
    /// For each link the place of the opposite link.
    pub partners: Vec<u32>,
    // The links of a node lie side by side, and each link has an opposite one.
    ghost are: { AreLinks (record {
      nodes = nodes;
      first = first.items;
      ends = ends_of first.items ends;
      heads = heads.items;
      partners = partners.items;
    }) },
}

impl LinkTable {
    ghost use Rattle.std.specs.Bool.{Decides};
    ghost use Rattle.std.specs.Prelude.{◌≡◌, ◌+◌, ◌<◌, ◌≤◌, length, slice_index};
    ghost use Rattle.dmf_links.specs.Links.{tail_of, AreUsed};
    ghost use Rattle.dmf_links.specs.LinkTable.{links_of};

    /// The places of the links of a node.
    pub fn places_at(&self, node: u32) -> Range<usize>
        requires { node ≤ self.now.nodes }
        ensures start { result.start ≡ slice_index self.now.first.items node }
        ensures end { result.end ≡ slice_index self.now.first.items (node + 1) }
        ensures order { result.start ≤ result.end }
        ensures within { result.end ≤ length self.now.heads.items }
    {
        self.first[node as usize] as usize..self.first[node as usize + 1] as usize
    }

    /// The places of the links of a node that belong to pairs.
    pub fn used_at(&self, node: u32) -> Range<usize>
        requires { node ≤ self.now.nodes }
        ensures order { result.start ≤ result.end }
        ensures within { result.end ≤ length self.now.heads.items }
        ensures used { AreUsed (links_of self.now) node result.start result.end }
    {
        let all = self.places_at(node);
        let end = self.ends()[node as usize + 1] as usize;
        all.start..end.min(all.end)
    }

    /// The place of the opposite of the link at this place.
    pub fn opposite(&self, place: u32) -> u32
        requires { place < length self.now.heads.items }
        ensures is { result ≡ slice_index self.now.partners.items place }
        ensures within { result < length self.now.heads.items }
    {
        self.partners[place as usize]
    }

    /// The tail of the link at this place.
    pub fn tail(&self, place: u32) -> u32
        requires { place < length self.now.heads.items }
        ensures { result ≡ tail_of (links_of self.now) place }
    {
        self.heads[self.opposite(place) as usize]
    }

    /// Where the links end that belong to pairs: those of node `v` at index `v + 1`.
    pub(crate) fn ends(&self) -> &[u32]
        ensures { result.now ≡ (links_of self.now).ends }
    {
        match &self.ends {
            Some(ends) => ends,
            None => &self.first,
        }
    }

    /// Whether another table has the same links. The call does not compare the heads: a link leads to the node at which its opposite lies.
    pub fn is(&self, other: &LinkTable) -> bool
        ensures { Decides result (links_of self.now ≡ links_of other.now) }
    {
        self.nodes == other.nodes
            && self.first == other.first
            && self.ends() == other.ends()
            && self.partners == other.partners
    }
}
