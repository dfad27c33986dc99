// A question of a task as it is compared and written.
use pci::Question;
use stored::question::{Asked, Kind};

fn of(kind: Kind, values: [u64; 3]) -> Asked {
    Asked { kind, values }
}

pub(crate) fn nothing() -> Asked {
    of(Kind::Finished, [0, 0, 0])
}

pub(crate) fn asked(q: Question) -> Asked {
    match q {
        Question::ConfigRead16(at) => of(Kind::ConfigRead16, [at as u64, 0, 0]),
        Question::ConfigRead32(at) => of(Kind::ConfigRead32, [at as u64, 0, 0]),
        Question::ConfigWrite16(at, v) => of(Kind::ConfigWrite16, [at as u64, v as u64, 0]),
        Question::ConfigWrite32(at, v) => of(Kind::ConfigWrite32, [at as u64, v as u64, 0]),
        Question::RegRead(bar, at) => of(Kind::RegRead, [bar as u64, at, 0]),
        Question::RegWrite(bar, at, v) => of(Kind::RegWrite, [bar as u64, at, v as u64]),
        Question::Attributes(operation, v) => of(Kind::Attributes, [operation as u64, v, 0]),
        Question::Resource(index) => of(Kind::Resource, [index as u64, 0, 0]),
        Question::Stall(us) => of(Kind::Stall, [us as u64, 0, 0]),
        Question::Allocate(pages) => of(Kind::Allocate, [pages, 0, 0]),
        Question::Map(handle, bytes) => of(Kind::Map, [handle, bytes, 0]),
        Question::Unmap(handle) => of(Kind::Unmap, [handle, 0, 0]),
        Question::Free(handle, pages) => of(Kind::Free, [handle, pages, 0]),
        Question::Fence => of(Kind::Fence, [0, 0, 0]),
        Question::Finished => nothing(),
    }
}
