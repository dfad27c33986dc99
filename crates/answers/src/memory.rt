// Memory that the card reads and writes: pages of a buffer, blocks of a range, the page list of a mailbox.
ghost use Rattle.std.specs.Prelude.{◌≡◌};
ghost use Rattle.fields.specs.Outcome.{number_of};
ghost use Rattle.dma.specs.Buffers.{page_count, accepted};
ghost use Rattle.dma.specs.Blocks.{started, piece};
ghost use Rattle.dma.specs.PageList.{page_list};
ghost use Rattle.answers.specs.Words.{number_words};
ghost use Rattle.answers.specs.Memory.{virt_from, cutter_from, cutter_words, started_words, piece_words, listed_words};

use dma::{BadAddress, Block, Cutter, Listed};
use fields::Short;

pub fn pages_words(p: Result<u64, BadAddress>) -> [u64; 2]
    ensures { result ≡ number_words (page_count p) }
{
    match p {
        Ok(n) => [0, n],
        Err(_) => [18, 0],
    }
}

pub fn accepted_number(a: Result<(), BadAddress>) -> u32
    ensures { result ≡ number_of (accepted a) }
{
    match a {
        Ok(()) => 0,
        Err(_) => 18,
    }
}

pub fn virt_from(has: bool, at: u64) -> Option<u64>
    ensures { result ≡ virt_from has at }
{
    has.then_some(at)
}

// What is left of a range: whether it has a card address, that address, the host address and the bytes.
fn cutter_words(c: Cutter) -> [u64; 4]
    ensures { result ≡ cutter_words c }
{
    [c.virt.is_some() as u64, c.virt.unwrap_or(0), c.phys, c.left]
}

pub fn started_words(s: Result<Cutter, BadAddress>) -> [u64; 5]
    ensures { result ≡ started_words (started s) }
{
    match s {
        Ok(c) => {
            let w = cutter_words(c);
            [0, w[0], w[1], w[2], w[3]]
        }
        Err(_) => [18, 0, 0, 0, 0],
    }
}

pub fn cutter_from(has: bool, virt: u64, phys: u64, left: u64) -> Cutter
    ensures { result ≡ cutter_from has virt phys left }
{
    Cutter {
        virt: virt_from(has, virt),
        phys,
        left,
    }
}

pub fn piece_words(p: Option<(Block, Cutter)>) -> [u64; 8]
    ensures { result ≡ piece_words (piece p) }
{
    match p {
        Some((b, c)) => {
            let w = cutter_words(c);
            [1, b.virt, b.phys, b.log as u64, w[0], w[1], w[2], w[3]]
        }
        None => [0; 8],
    }
}

pub fn listed_words(l: Result<Listed, Short>) -> [u64; 6]
    ensures { result ≡ listed_words (page_list l) }
{
    match l {
        Ok(m) => {
            let w = cutter_words(m.rest);
            [0, m.entries as u64, w[0], w[1], w[2], w[3]]
        }
        Err(_) => [21, 0, 0, 0, 0, 0],
    }
}
