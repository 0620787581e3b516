//! A search comes apart into what it shares with others and what it has of its own, and is put together over other links.
ghost use Rattle.std.specs.Prelude.{◌≡◌, Some, IfSome};
ghost use Rattle.dmf_path.specs.Apart.{AreShared, IsApart};
ghost use Rattle.dmf_links.specs.LinkTable.{links_of};
ghost use Rattle.dmf_path.specs.Search.{Searched};

use crate::aside::Aside;
use crate::ball::Ball;
use crate::levels::Levels;
use crate::phase::Phase;
use crate::residual::Residual;
use crate::search::Search;
use crate::trail::Trail;
use dmf_links::{LinkTable, Places, share_known};
use std::rc::Rc;

/// Links, and what goes with them. Searches can share all of it.
#[derive(Drop)]
pub struct Shared {
    /// The links, without their rooms.
    pub table: Rc<LinkTable>,
    /// The places of the pairs.
    pub places: Rc<Places>,
    /// The numbers of the links, once they are numbered.
    pub numbers: Option<Rc<Vec<u32>>>,
}

/// What a search that has begun anew has of its own: of each link, and beside its links.
#[derive(Drop)]
pub struct Own {
    /// Whether a push along a link can be pushed back along its opposite.
    pub takes_back: bool,
    /// The room of each link.
    pub rooms: Vec<u64>,
    /// For each link 1 if its opposite has room, else 0.
    pub flags: Vec<u8>,
    /// Its labels and current links.
    pub levels: Levels,
    /// The nodes near its goal.
    pub ball: Ball,
    /// Other labels, which do not stay.
    pub asides: Vec<Aside>,
    /// Its trail.
    pub trail: Trail,
}

impl Search {
    /// The search begins anew, and comes apart. Takes no memory.
    pub fn begun(mut self) -> (Shared, Own)
        ensures shared { AreShared result.0 }
        ensures apart { IsApart (links_of result.0.table.value) result.0.places.value result.1 self }
    {
        self.phase.begin_anew();
        let phase = self.phase;
        let links = phase.links;
        let shared = Shared {
            table: links.table,
            places: self.places,
            numbers: self.numbers,
        };
        let own = Own {
            takes_back: links.takes_back,
            rooms: links.rooms,
            flags: links.flags,
            levels: phase.levels,
            ball: phase.ball,
            asides: self.asides,
            trail: phase.trail,
        };
        (shared, own)
    }
}

/// What a search has of its own, if one is given: it begins anew, and comes apart. What it shares is let go. `None` if its links are not
/// these, at the places of as many pairs. Takes no memory, and time for a look at each link.
pub fn begun_over(search: Option<Search>, shared: &Shared) -> Option<Own>
    ensures { IfSome result (λ own. (s : Searched) × ((search ≡ Some s)
        × IsApart (links_of shared.now.table.value) shared.now.places.value own s)) }
{
    let (others, own) = search?.begun();
    if others.table.is(&shared.table) && others.places.are(&shared.places) {
        Some(own)
    } else {
        None
    }
}

impl Shared {
    /// A handle on it for another search. `None` if more searches share it than can be counted. Takes no memory.
    pub fn share(&self) -> Option<Shared>
        ensures shared { AreShared self.now → IfSome result AreShared }
        ensures table { IfSome result (λ shared. shared.table.value ≡ self.now.table.value) }
        ensures places { IfSome result (λ shared. shared.places.value ≡ self.now.places.value) }
    {
        Some(Shared {
            table: self.table.clone().ok()?,
            places: self.places.clone().ok()?,
            numbers: share_known(&self.numbers),
        })
    }
}

impl Own {
    /// The search over these links. Takes no memory.
    pub fn over(mut self, shared: Shared) -> Search
        requires shared { AreShared shared }
        requires apart { (s : Searched) × IsApart (links_of shared.table.value) shared.places.value self s }
        ensures { (s : Searched) → IsApart (links_of shared.table.value) shared.places.value self s → result ≡ s }
    {
        self.asides.clear();
        self.ball.forget();
        let links = Residual {
            table: shared.table,
            takes_back: self.takes_back,
            rooms: self.rooms,
            flags: self.flags,
        };
        let phase = Phase {
            links,
            levels: self.levels,
            ball: self.ball,
            trail: self.trail,
        };
        Search {
            phase,
            places: shared.places,
            numbers: shared.numbers,
            asides: self.asides,
            is_fresh: true,
        }
    }
}
