// What each machine starts with: the words of a record.
use crate::machine::{Machine, Task};
use crate::record::Head;
use crate::{machine, record};
use buffer::{Freeing, Making};
use command::{Catas, Cmd};
use hcr::Post;
use reset::Reset;
use tasks::{Attr, Claim, Parting};
use uar::FindBar;

// Opcode, its modifier, input modifier, the two parameters.
fn post(h: Head, body: &[u8]) -> Post {
    Post {
        op: (record::word(h, body, 0) % 65536) as u16,
        op_mod: (record::word(h, body, 1) % 256) as u8,
        in_mod: (record::word(h, body, 2) % 4294967296) as u32,
        in_param: record::word(h, body, 3),
        out_param: record::word(h, body, 4),
    }
}

// Whether the catastrophic buffer is known, its BAR and its offset.
fn catas(h: Head, body: &[u8]) -> Catas {
    if record::word(h, body, 7) == 0 {
        return Catas::Unknown;
    }
    Catas::Known(
        (record::word(h, body, 8) % 256) as u8,
        record::word(h, body, 9),
    )
}

// The toggle stands behind what is posted.
fn command(h: Head, body: &[u8]) -> Cmd {
    Cmd::new(post(h, body), record::word(h, body, 5) != 0, catas(h, body))
}

fn freeing(h: Head, body: &[u8]) -> Freeing {
    Freeing::start(dma::Buffer {
        handle: record::word(h, body, 0),
        dev: record::word(h, body, 1),
        pages: record::word(h, body, 2),
    })
}

// Release, restore with its value, or the tail of a quiesce.
fn parting(h: Head, body: &[u8]) -> Parting {
    let part = record::word(h, body, 0);
    match part {
        0 => Parting::Disown,
        1 => Parting::Restore(record::word(h, body, 1)),
        _ => Parting::Owner,
    }
}

// The machine of a record, by its number.
fn begun(h: Head, body: &[u8]) -> Task {
    let which = h.machine;
    match which {
        0 => Task::Command(command(h, body)),
        1 => Task::Reset,
        2 => machine::made(Making::start(record::word(h, body, 0))),
        3 => Task::Freeing(freeing(h, body)),
        4 => Task::Attr(Attr::Get),
        5 => Task::Claim(Claim::Command),
        6 => Task::Parting(parting(h, body)),
        _ => Task::Find,
    }
}

pub(crate) fn start(h: Head, body: &[u8]) -> Machine {
    Machine {
        task: begun(h, body),
        told: record::word(h, body, 6) != 0,
        reset: Reset::start(),
        find: FindBar::start(),
    }
}
