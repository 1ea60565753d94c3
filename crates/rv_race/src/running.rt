ghost use Rattle.std.specs.Prelude.{◌≡◌, ◌≤◌, ◌<◌, true};
ghost use Rattle.rv_race.specs.Rulings.{narrowed_by};
ghost use Rattle.rv_race.specs.Ways.{advanced, begun, first_two, followed, has_next, joined, lower, turned};

use rv_jscan::Lane;
use rv_keylist::KeyList;
use std::alloc::Global;
use std::mem;

/// A scan under way: its position among the planned scans, and where it stands in its index.
#[derive(Drop)]
pub struct Runner {
    pub scan: u32,
    pub lane: Lane,
}

impl Runner {
    /// A scan that has read nothing. It takes no memory.
    fn begin(alloc: Global, scan: u32) -> Runner
        ensures { result ≡ begun scan }
    {
        Runner {
            scan,
            lane: Lane::new(alloc),
        }
    }
}

/// The scans under way: the one whose turn it is, the other one where two race, and the position of the one that would
/// begin next.
#[derive(Drop)]
pub struct Running {
    pub turn: Runner,
    pub other: Option<Runner>,
    pub next: u32,
}

impl Running {
    /// The first two planned scans, before their first pieces. It takes no memory.
    pub fn begin(alloc: Global) -> Running
        ensures { result ≡ first_two }
    {
        Running {
            turn: Runner::begin(alloc, 0),
            other: Some(Runner::begin(alloc, 1)),
            next: 2,
        }
    }

    /// The other scan, where there is one, has the next turn.
    pub fn pass_turn(&mut self)
        ensures { self.new ≡ turned self.old }
    {
        match self.other.take() {
            Some(other) => {
                let before = mem::replace(&mut self.turn, other);
                drop(self.other.replace(before));
            }
            None => {}
        }
    }

    /// The scan whose turn it was is over: the other one goes on alone, or where there is none the next one begins.
    fn follow(&mut self, alloc: Global)
        requires { self.old.next ≤ 8 }
        ensures { self.new ≡ followed self.old }
    {
        match self.other.take() {
            Some(other) => {
                drop(mem::replace(&mut self.turn, other));
            }
            None => {
                drop(mem::replace(&mut self.turn, Runner::begin(alloc, self.next)));
                self.next += 1;
            }
        }
    }

    /// The next scan begins beside the one whose turn it is.
    fn join(&mut self, alloc: Global)
        requires { self.old.next ≤ 8 }
        ensures { self.new ≡ joined self.old }
    {
        drop(self.other.replace(Runner::begin(alloc, self.next)));
        self.next += 1;
    }

    /// The scan whose turn it was is over. While no list is complete two scans race.
    pub fn advance(&mut self, alloc: Global, listed: bool, planned: u32)
        requires next { self.old.next ≤ 8 }
        requires few { planned ≤ 8 }
        ensures { self.new ≡ advanced listed planned self.old }
    {
        self.follow(alloc);
        if !listed && self.next < planned {
            self.join(alloc);
        }
    }

    /// Whether a scan goes on behind the one whose turn it is.
    pub fn has_next(&self, planned: u32) -> bool
        ensures { result ≡ has_next planned self.now }
    {
        self.other.is_some() || self.next < planned
    }

    /// The lower position of the scans under way.
    pub fn lower(&self) -> u32
        ensures { result ≡ lower self.now }
    {
        match &self.other {
            Some(other) => self.turn.scan.min(other.scan),
            None => self.turn.scan,
        }
    }
}

/// Of the kept rows of a scan, where there is one, only those stay that a finished list may have.
pub fn narrow(other: &mut Option<Runner>, list: &KeyList)
    requires ready { list.now.finished ≡ true }
    ensures { other.new ≡ narrowed_by list.now.keys other.old }
{
    match other {
        Some(other) => other.lane.narrow(list),
        None => {}
    }
}
