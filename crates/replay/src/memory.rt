// The leaves 19 to 23: pages, addresses, blocks, page mailbox.
ghost use Rattle.std.specs.Prelude.{◌≤◌};

use crate::words;
use dma::{Block, Cutter, Listed};

pub(crate) const END: usize = 24;

const MAILBOX_AT: usize = 8;

const MAILBOX_END: usize = 4104;

pub(crate) fn answer(leaf: usize, args: &[u8], out: &mut [u8]) -> bool {
    match leaf {
        19 => {
            leaves::memory::leaf_pages_of(words::word(args, 0), out);
        }
        20 => words::put(
            out,
            0,
            leaves::memory::leaf_accept(words::word(args, 0), words::word(args, 1)) as u64,
        ),
        21 => blocks(args, out),
        22 => first_block(args, out),
        _ => fill(args, out),
    }
    true
}

fn virt(args: &[u8]) -> Option<u64> {
    if words::is_set(args, 0) {
        return Some(words::word(args, 1));
    }
    None
}

// The refusal's number, or 0 and every block.
fn blocks(args: &[u8], out: &mut [u8]) {
    match Cutter::new(virt(args), words::word(args, 2), words::word(args, 3)) {
        Ok(c) => cut_all(c, out),
        Err(_) => words::put(out, 0, 18),
    }
}

fn cut_all(start: Cutter, out: &mut [u8]) {
    let mut c = start;
    for i in 0..180 {
        let Some((b, rest)) = c.cut(Block::LOG_MAX) else {
            return;
        };
        put_block(out, 3 * i + 1, b);
        c = rest;
    }
}

fn put_block(out: &mut [u8], k: usize, b: Block)
    requires { k ≤ 900 }
{
    words::put(out, k, b.virt);
    words::put(out, k + 1, b.phys);
    words::put(out, k + 2, b.log as u64);
}

fn rest_of(args: &[u8], left: u64) -> Cutter {
    Cutter {
        virt: virt(args),
        phys: words::word(args, 2),
        left,
    }
}

fn first_block(args: &[u8], out: &mut [u8]) {
    if let Some((b, _)) = rest_of(args, words::word(args, 3)).cut(Block::LOG_MAX) {
        words::put(out, 0, 1);
        put_block(out, 1, b);
    }
}

// How many entries, then the mailbox.
fn fill(args: &[u8], out: &mut [u8]) {
    if out.len() < MAILBOX_END {
        return;
    }
    let pages = words::word(args, 3) % 65536;
    let c = rest_of(args, pages * dma::PAGE);
    let filled = dma::fill(
        &mut out[MAILBOX_AT..MAILBOX_END],
        Block::LOG_MAX,
        c,
        Listed::CAPACITY,
    );
    if let Ok(m) = filled {
        words::put(out, 0, m.entries as u64);
    }
}
