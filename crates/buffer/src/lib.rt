// Buffers made and freed, as small machines over the questions allocate, map, unmap and free.
#![tactic(auto)]

ghost use Rattle.std.specs.Prelude.{◌≡◌};
ghost use Rattle.dma.specs.declared.Buffer.{Buffer};
ghost use Rattle.pci.specs.Refusals.{refusal};
ghost use Rattle.buffer.specs.Buffer.{fault};
ghost use Rattle.buffer.specs.Steps.{pages_in, in_phase, allocated, spotted, map_step, unmapped, freed, make_asks, make_step_of, make_of};
ghost use Rattle.buffer.specs.Steps.{start_free, free_on, free_asks, free_step_of};
ghost use Rattle.buffer.specs.declared.MakeStep.TheVariants.{More};

use dma::Buffer;
use pci::{Answer, NoReply, Question, Refusal};

// Why there is no buffer: memory was not to be had, or its device address cannot be used.
#[derive(Clone, Copy)]
pub enum Fault {
    Memory,
    Address,
}

impl Fault {
    // The refusal: 5 or 18.
    pub fn refusal(self) -> Refusal
        ensures { refusal {A = Buffer} result ≡ fault self }
    {
        match self {
            Fault::Memory => Refusal::Memory,
            Fault::Address => Refusal::Address,
        }
    }
}

// A buffer, or why there is none.
#[derive(Clone, Copy)]
pub enum Made {
    Ready(Buffer),
    Refused(Fault),
}

// The open question while a buffer is made: pages are asked for, then mapped; or what was had under a handle is given up.
#[derive(Clone, Copy)]
pub enum MakePhase {
    Allocate,
    Map(u64),
    Unmap(u64, Fault),
    Free(u64, Fault),
}

// A buffer that is being made, and its bytes, a whole number of pages.
#[derive(Clone, Copy)]
pub struct Making {
    pub bytes: u64,
    pub phase: MakePhase,
}

// Where a step leads.
#[derive(Clone, Copy)]
pub enum MakeStep {
    More(Making),
    Ended(Made),
}

// The open question while a buffer is freed.
#[derive(Clone, Copy)]
pub enum FreePhase {
    Unmap,
    Free,
}

// A buffer that is being freed.
#[derive(Clone, Copy)]
pub struct Freeing {
    pub handle: u64,
    pub pages: u64,
    pub phase: FreePhase,
}

// Where a step leads.
#[derive(Clone, Copy)]
pub enum FreeStep {
    More(Freeing),
    Freed,
}

impl Making {
    // The making of a buffer begins with its first question, or is refused before it.
    pub fn start(bytes: u64) -> MakeStep
        ensures { result ≡ make_of bytes }
    {
        match dma::pages_of(bytes) {
            Ok(n) => MakeStep::More(Making {
                bytes: n * dma::PAGE,
                phase: MakePhase::Allocate,
            }),
            Err(_) => MakeStep::Ended(Made::Refused(Fault::Address)),
        }
    }

    fn page_count(self) -> u64
        ensures { result ≡ pages_in self }
    {
        self.bytes / dma::PAGE
    }

    // The same buffer at another question.
    fn at(self, phase: MakePhase) -> MakeStep
        ensures { result ≡ More (in_phase self phase) }
    {
        MakeStep::More(Making { phase, ..self })
    }

    // The open question.
    pub fn asks(self) -> Question
        ensures { result ≡ make_asks self }
    {
        let pages = self.page_count();
        match self.phase {
            MakePhase::Allocate => Question::Allocate(pages),
            MakePhase::Map(handle) => Question::Map(handle, pages * dma::PAGE),
            MakePhase::Unmap(handle, _) => Question::Unmap(handle),
            MakePhase::Free(handle, _) => Question::Free(handle, pages),
        }
    }

    // The pages were handed over, or not.
    fn granted(self, r: Result<u64, NoReply>) -> MakeStep
        ensures { result ≡ allocated self r }
    {
        match r {
            Ok(handle) => self.at(MakePhase::Map(handle)),
            Err(NoReply::Failed) => MakeStep::Ended(Made::Refused(Fault::Memory)),
            Err(NoReply::Wrong) => MakeStep::More(self),
        }
    }

    // The pages were mapped: the address is looked at, then the size.
    fn placed(self, handle: u64, address: u64, bytes: u64) -> MakeStep
        ensures { result ≡ spotted self handle address bytes }
    {
        let pages = self.page_count();
        match dma::accept(address, pages) {
            Ok(()) => {
                if bytes == pages * dma::PAGE {
                    return MakeStep::Ended(Made::Ready(Buffer {
                        handle,
                        dev: address,
                        pages,
                    }));
                }
                self.at(MakePhase::Unmap(handle, Fault::Memory))
            }
            Err(_) => self.at(MakePhase::Unmap(handle, Fault::Address)),
        }
    }

    fn mapped(self, handle: u64, r: Result<(u64, u64), NoReply>) -> MakeStep
        ensures { result ≡ map_step self handle r }
    {
        match r {
            Ok((address, bytes)) => self.placed(handle, address, bytes),
            Err(NoReply::Failed) => self.at(MakePhase::Free(handle, Fault::Memory)),
            Err(NoReply::Wrong) => MakeStep::More(self),
        }
    }

    fn unmap(self, handle: u64, fault: Fault, r: Result<(), NoReply>) -> MakeStep
        ensures { result ≡ unmapped self handle fault r }
    {
        match r {
            Ok(()) | Err(NoReply::Failed) => self.at(MakePhase::Free(handle, fault)),
            Err(NoReply::Wrong) => MakeStep::More(self),
        }
    }

    fn free(self, fault: Fault, r: Result<(), NoReply>) -> MakeStep
        ensures { result ≡ freed self fault r }
    {
        match r {
            Ok(()) | Err(NoReply::Failed) => MakeStep::Ended(Made::Refused(fault)),
            Err(NoReply::Wrong) => MakeStep::More(self),
        }
    }

    // The making takes the answer to its open question; an answer of another kind leaves it as it is.
    pub fn step(self, a: Answer) -> MakeStep
        ensures { result ≡ make_step_of self a }
    {
        match self.phase {
            MakePhase::Allocate => self.granted(pci::as_handle(a)),
            MakePhase::Map(handle) => self.mapped(handle, pci::as_map(a)),
            MakePhase::Unmap(handle, fault) => self.unmap(handle, fault, pci::as_done(a)),
            MakePhase::Free(_, fault) => self.free(fault, pci::as_done(a)),
        }
    }
}

impl Freeing {
    // A buffer's freeing begins.
    pub fn start(b: Buffer) -> Freeing
        ensures { result ≡ start_free b }
    {
        Freeing {
            handle: b.handle,
            pages: b.pages,
            phase: FreePhase::Unmap,
        }
    }

    // The open question.
    pub fn asks(self) -> Question
        ensures { result ≡ free_asks self }
    {
        match self.phase {
            FreePhase::Unmap => Question::Unmap(self.handle),
            FreePhase::Free => Question::Free(self.handle, self.pages),
        }
    }

    // What follows a call whose failure is passed over.
    fn goes(self, next: FreeStep, r: Result<(), NoReply>) -> FreeStep
        ensures { result ≡ free_on self next r }
    {
        match r {
            Ok(()) | Err(NoReply::Failed) => next,
            Err(NoReply::Wrong) => FreeStep::More(self),
        }
    }

    // The freeing takes the answer to its open question; an answer of another kind leaves it as it is.
    pub fn step(self, a: Answer) -> FreeStep
        ensures { result ≡ free_step_of self a }
    {
        let next = Freeing {
            phase: FreePhase::Free,
            ..self
        };
        match self.phase {
            FreePhase::Unmap => self.goes(FreeStep::More(next), pci::as_done(a)),
            FreePhase::Free => self.goes(FreeStep::Freed, pci::as_done(a)),
        }
    }
}
