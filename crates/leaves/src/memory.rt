// Memory that the card reads and writes: pages of a buffer, blocks of a range, the page list of a mailbox.
ghost use Rattle.std.specs.Prelude.{◌≡◌};
ghost use Rattle.fields.specs.Outcome.{number_of, pick};
ghost use Rattle.dma.specs.Buffers.{pages_for, accept_at};
ghost use Rattle.dma.specs.Blocks.{start_at, cut_of};
ghost use Rattle.dma.specs.PageList.{fill_at, filled_at};
ghost use Rattle.answers.specs.Words.{said, answer, holds, number_words};
ghost use Rattle.answers.specs.Memory.{virt_from, cutter_from, started_words, piece_words, listed_words};

use answers::words;

pub fn leaf_pages_of(bytes: u64, out: &mut [u8]) -> u32
    ensures value { result ≡ said 2 out.old }
    ensures out_after { out.new ≡ answer 2 out.old (number_words (pages_for bytes)) }
{
    let w = answers::memory::pages_words(dma::pages_of(bytes));
    words::give(out, &w)
}

pub fn leaf_accept(dev: u64, pages: u64) -> u32
    ensures { result ≡ number_of (accept_at dev pages) }
{
    answers::memory::accepted_number(dma::accept(dev, pages))
}

// A range, with a card address or none, ready to be cut.
pub fn leaf_blocks(has: bool, virt: u64, phys: u64, size: u64, out: &mut [u8]) -> u32
    ensures value { result ≡ said 5 out.old }
    ensures out_after { out.new ≡ answer 5 out.old (started_words (start_at (virt_from has virt) phys size)) }
{
    let w = answers::memory::started_words(dma::Cutter::new(
        answers::memory::virt_from(has, virt),
        phys,
        size,
    ));
    words::give(out, &w)
}

// The next block of what is left of a range.
pub fn leaf_cut(largest: u32, has: bool, virt: u64, phys: u64, left: u64, out: &mut [u8]) -> u32
    ensures value { result ≡ said 8 out.old }
    ensures out_after { out.new ≡ answer 8 out.old (piece_words (cut_of largest (cutter_from has virt phys left))) }
{
    let c = answers::memory::cutter_from(has, virt, phys, left);
    let w = answers::memory::piece_words(c.cut(largest));
    words::give(out, &w)
}

// Fills a mailbox with the page list of what is left of a range.
pub fn leaf_fill(
    inbox: &mut [u8],
    largest: u32,
    has: bool,
    virt: u64,
    phys: u64,
    left: u64,
    capacity: usize,
    out: &mut [u8],
) -> u32
    ensures value { result ≡ said 6 out.old }
    ensures inbox_after { inbox.new ≡ pick (holds 6 out.old) (filled_at largest capacity (cutter_from has virt phys left) inbox.old) inbox.old }
    ensures out_after { out.new ≡ answer 6 out.old (listed_words (fill_at largest capacity (cutter_from has virt phys left) inbox.old)) }
{
    if out.len() < 48 {
        return words::SHORT;
    }
    let w = answers::memory::listed_words(dma::fill(
        inbox,
        largest,
        answers::memory::cutter_from(has, virt, phys, left),
        capacity,
    ));
    words::give(out, &w)
}
