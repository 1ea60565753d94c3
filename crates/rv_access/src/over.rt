//! The memory of an access that is over, in which another one is opened.
ghost use Rattle.std.specs.Prelude.{◌≡◌, [], None};
ghost use Rattle.rv_access.specs.Memory.{kept, only_of};

use crate::access::Access;
use rv_choice::Candidate;
use rv_restrict::Restriction;
use rv_retrieval::Retrieval;
use std::alloc::Global;
use std::mem;

/// The memory of an access that is over, in which another one is opened. What an access is does not rest on it.
#[derive(Drop)]
pub struct Over {
    alloc: Global,
    retrieval: Option<Box<Retrieval>>,
    candidates: Vec<Candidate>,
}

impl Over {
    /// No memory.
    pub fn new(alloc: Global) -> Over
        ensures retrieval { result.retrieval ≡ None }
        ensures candidates { result.candidates.items ≡ [] }
    {
        Over {
            alloc,
            retrieval: None,
            candidates: Vec::new(alloc),
        }
    }

    /// Keeps the memory of an access that is over, where it is a retrieval.
    pub fn keep(&mut self, access: Access)
        ensures { self.new ≡ record self.old { retrieval = kept access self.old.retrieval } }
    {
        match access {
            Access::Competing(retrieval) => self.retrieval = Some(retrieval),
            Access::Racing(raced) => drop(raced),
            Access::Uniting(united) => drop(united),
        }
    }

    /// Takes out the restriction of the retrieval that is kept, for its memory.
    pub fn take_only(&mut self) -> Restriction
        ensures only { result ≡ only_of self.old.retrieval }
        ensures candidates { self.new.candidates ≡ self.old.candidates }
    {
        match &mut self.retrieval {
            Some(retrieval) => retrieval.take_only(),
            None => Restriction::from_groups(Vec::new(self.alloc)),
        }
    }

    /// Takes out the retrieval that is kept, for its memory.
    pub(crate) fn take_retrieval(&mut self) -> Option<Box<Retrieval>> {
        self.retrieval.take()
    }

    /// Takes out the candidates that are kept, for their memory.
    pub(crate) fn take_candidates(&mut self) -> Vec<Candidate> {
        mem::replace(&mut self.candidates, Vec::new(self.alloc))
    }

    /// Keeps the memory of candidates.
    pub(crate) fn keep_candidates(&mut self, candidates: Vec<Candidate>) {
        self.candidates = candidates;
    }
}
