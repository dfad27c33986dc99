// Memory that the card reads and writes: the record of a buffer, the blocks that a range is cut into, and the page list of one mailbox.
#![tactic(auto)]

ghost use Rattle.std.specs.Prelude.{◌≡◌, ◌+◌, ◌-◌, ◌*◌, ◌^◌, ◌<◌, ◌≤◌, length};
ghost use Rattle.dma.specs.Buffers.{pages_for, page_count, accept_at, accepted, ends_within};
ghost use Rattle.dma.specs.Blocks.{virt_of, stands, exponent_of, after_of, cut_of, piece, start_at, started};
ghost use Rattle.dma.specs.PageList.{word_of, entry_at, list_at, first_blocks, listed_of, fill_at, filled_at, page_list};

use fields::Short;

// The bytes of a page; the most bytes that a buffer may have, and the pages in 2^64 bytes.
pub const PAGE: u64 = 4096;

const BYTES_MAX: u64 = u64::MAX - 4095;

const PAGES_MAX: u64 = 4503599627370496;

// Refusal 18: an address that no page starts at, an end above 2^64, or too many bytes.
#[derive(Clone, Copy)]
pub struct BadAddress;

// Pages that the host handed over, and where the device sees them.
#[derive(Clone, Copy)]
pub struct Buffer {
    pub handle: u64,
    pub dev: u64,
    pub pages: u64,
}

// A range that is still to be cut: its card address (the firmware and auxiliary areas have none), its host address, and the bytes left.
#[derive(Clone, Copy)]
pub struct Cutter {
    pub virt: Option<u64>,
    pub phys: u64,
    pub left: u64,
}

// A block of 2^log bytes at a card address (0 if absent) and a host address.
#[derive(Clone, Copy)]
pub struct Block {
    pub virt: u64,
    pub phys: u64,
    pub log: u32,
}

// The blocks of one mailbox: how many, and what is left behind them.
#[derive(Clone, Copy)]
pub struct Listed {
    pub entries: usize,
    pub rest: Cutter,
}

impl Listed {
    // The bytes of a mailbox and of an entry, and the most blocks that a mailbox carries.
    pub const BYTES: usize = 4096;

    pub const ENTRY: usize = 16;

    pub const CAPACITY: usize = 256;
}

// The pages of a buffer of that many bytes.
pub fn pages_of(bytes: u64) -> Result<u64, BadAddress>
    ensures { page_count result ≡ pages_for bytes }
{
    if BYTES_MAX < bytes {
        return Err(BadAddress);
    }
    Ok(bytes.div_ceil(PAGE).max(1))
}

// A buffer of that many pages can be used at that device address. Nothing is multiplied or added, so nothing overflows.
pub fn accept(dev: u64, pages: u64) -> Result<(), BadAddress>
    ensures { accepted result ≡ accept_at dev pages }
{
    if dev % PAGE == 0 && pages < PAGES_MAX && dev / PAGE <= PAGES_MAX - pages {
        return Ok(());
    }
    Err(BadAddress)
}

// A range ends at 2^64 or below, and has no more bytes than a buffer may have.
fn ends_within(at: u64, bytes: u64) -> bool
    ensures { result ≡ ends_within at bytes }
{
    bytes <= BYTES_MAX && at <= u64::MAX - bytes.saturating_sub(1)
}

impl Cutter {
    // The range of size bytes at a host address and perhaps a card address, ready to be cut into blocks.
    pub fn new(virt: Option<u64>, phys: u64, size: u64) -> Result<Cutter, BadAddress>
        ensures { started result ≡ start_at virt phys size }
    {
        if phys % PAGE == 0 && ends_within(phys, size) && ends_within(virt.unwrap_or(0), size) {
            return Ok(Cutter {
                virt,
                phys,
                left: size,
            });
        }
        Err(BadAddress)
    }

    // A block of size bytes, 2^log, can stand at the addresses.
    fn can_stand(self, largest: u32, log: u32, size: u64) -> bool
        requires { size ≡ 2 ^ log }
        ensures { result ≡ stands largest (virt_of self.virt) self.phys self.left log }
    {
        if largest < log {
            return false;
        }
        if self.left < size {
            return false;
        }
        let virt = self.virt.unwrap_or(0);
        self.phys % size == 0 && virt % size == 0
    }

    // The exponent of the next block. The size is halved beside it: a shift at each exponent takes half as long again.
    fn next_log(self, largest: u32) -> u32
        ensures { result ≡ exponent_of largest (virt_of self.virt) self.phys self.left }
    {
        let mut size = 1u64 << Block::LOG_MAX;
        for log in (1..=Block::LOG_MAX).rev() {
            if self.can_stand(largest, log, size) {
                return log;
            }
            size /= 2;
        }
        0
    }

    // What is left behind a block of 2^log bytes.
    fn after(self, log: u32) -> Cutter
        requires { (log < 64) × (2 ^ log ≤ self.left) }
        ensures { result ≡ after_of self (2 ^ log) }
    {
        let size = 1u64 << log;
        Cutter {
            virt: self.virt.map(|at| at.wrapping_add(size)),
            phys: self.phys.wrapping_add(size),
            left: self.left - size,
        }
    }

    // Cuts the next block, of exponent largest at most: the block and what is left behind it, or nothing at the end.
    pub fn cut(self, largest: u32) -> Option<(Block, Cutter)>
        ensures { piece result ≡ cut_of largest self }
    {
        if self.left == 0 {
            return None;
        }
        let log = self.next_log(largest);
        let block = Block {
            virt: self.virt.unwrap_or(0),
            phys: self.phys,
            log,
        };
        Some((block, self.after(log)))
    }
}

impl Block {
    // The exponent of a page, and the largest of a block.
    pub const LOG_PAGE: u32 = 12;

    pub const LOG_MAX: u32 = 63;

    // The second half of a block's entry: its host address, with its exponent less 12 in the low bits. An exponent below 12 counts as 12.
    fn word(self) -> u64
        requires { self.phys + (self.log - 12) < 2 ^ 64 }
        ensures { result ≡ word_of self }
    {
        self.phys + self.log.saturating_sub(Block::LOG_PAGE) as u64
    }

    // Writes the block's entry at place n of the list, where both its fields lie within.
    fn put_entry(self, inbox: &mut [u8], n: usize)
        requires { (n * 16 + 16 ≤ length inbox.old) × (self.phys + (self.log - 12) < 2 ^ 64) }
        ensures { inbox.new ≡ entry_at inbox.old n self }
    {
        let at = n * Listed::ENTRY;
        let _ = fields::set_be64(inbox, at, self.virt);
        let _ = fields::set_be64(inbox, at + 8, self.word());
    }
}

// Writes the entries of the next blocks, capacity of them at most.
fn list_blocks(inbox: &mut [u8], largest: u32, c: Cutter, capacity: usize) -> Listed
    requires { (length inbox.old ≡ 4096) × (capacity ≤ 256) }
    ensures value { result ≡ listed_of largest capacity c }
    ensures inbox_after { inbox.new ≡ list_at inbox.old 0 (first_blocks largest capacity c) }
{
    let mut rest = c;
    for n in 0..capacity {
        let Some((block, behind)) = rest.cut(largest) else {
            return Listed { entries: n, rest };
        };
        block.put_entry(inbox, n);
        rest = behind;
    }
    Listed {
        entries: capacity,
        rest,
    }
}

// Fills a mailbox with the page list of the next blocks, capacity of them at most; the rest of it is 0.
pub fn fill(inbox: &mut [u8], largest: u32, c: Cutter, capacity: usize) -> Result<Listed, Short>
    ensures result_value { page_list result ≡ fill_at largest capacity c inbox.old }
    ensures inbox_after { inbox.new ≡ filled_at largest capacity c inbox.old }
{
    if inbox.len() != Listed::BYTES {
        return Err(Short);
    }
    fields::zero(inbox);
    Ok(list_blocks(inbox, largest, c, capacity.min(Listed::CAPACITY)))
}
