// What of the books is no slot, and a slot, as words.
#![tactic(auto)]

ghost use Rattle.std.specs.Prelude.{◌≡◌};
ghost use Rattle.words_books.specs.Coding.{refusal_words, refusal_of, failure_words, failure_of, closing_words, closing_of, slot_words, slot_of};
ghost use Rattle.words_books.specs.Coding.{wire_words, wire_of, ledger_row, ledger_words, ledger_of};

use pci::Refusal;
use session::{Closing, Failure, Slot, Wire};

// What of the session is no slot and neither the task nor the stage, nor what the card has said.
#[derive(Clone, Copy)]
pub struct Ledger {
    pub ranges: usize,
    pub lends: usize,
    pub started: bool,
    pub original: u64,
    pub wire: Wire,
    pub failure: Failure,
    pub closing: Closing,
}

// A refusal: its number less 1, then its values.
pub fn refusal_words(v: Refusal) -> [u64; 3]
    ensures { result ≡ refusal_words v }
{
    match v {
        Refusal::Attributes => [0, 0, 0],
        Refusal::Owner => [1, 0, 0],
        Refusal::Reset => [2, 0, 0],
        Refusal::Bar => [3, 0, 0],
        Refusal::Memory => [4, 0, 0],
        Refusal::Status(x, y) => [5, words::wide8(x), y],
        Refusal::Timeout(x) => [6, x, 0],
        Refusal::Busy => [7, 0, 0],
        Refusal::Bus(x) => [8, x, 0],
        Refusal::NotPrimary => [9, 0, 0],
        Refusal::Revision(x) => [10, words::wide16(x), 0],
        Refusal::MinPage(x) => [11, words::wide8(x), 0],
        Refusal::Ports(x) => [12, words::wide8(x), 0],
        Refusal::Uar(x) => [13, words::wide8(x), 0],
        Refusal::UarArea(x) => [14, x, 0],
        Refusal::Entry(x) => [15, words::long(x), 0],
        Refusal::Total(x) => [16, x, 0],
        Refusal::Address => [17, 0, 0],
        Refusal::Full => [18, 0, 0],
        Refusal::Wrong => [19, 0, 0],
        Refusal::Short => [20, 0, 0],
        Refusal::Opcode => [21, 0, 0],
        Refusal::Undo => [22, 0, 0],
        Refusal::List => [26, 0, 0],
    }
}

pub fn refusal_from(tag: u64, a: u64, b: u64) -> Refusal
    ensures { result ≡ refusal_of tag a b }
{
    match tag {
        1 => Refusal::Owner,
        2 => Refusal::Reset,
        3 => Refusal::Bar,
        4 => Refusal::Memory,
        5 => Refusal::Status(words::narrow8(a), b),
        6 => Refusal::Timeout(a),
        7 => Refusal::Busy,
        8 => Refusal::Bus(a),
        9 => Refusal::NotPrimary,
        10 => Refusal::Revision(words::narrow16(a)),
        11 => Refusal::MinPage(words::narrow8(a)),
        12 => Refusal::Ports(words::narrow8(a)),
        13 => Refusal::Uar(words::narrow8(a)),
        14 => Refusal::UarArea(a),
        15 => Refusal::Entry(words::size(a)),
        16 => Refusal::Total(a),
        17 => Refusal::Address,
        18 => Refusal::Full,
        19 => Refusal::Wrong,
        20 => Refusal::Short,
        21 => Refusal::Opcode,
        22 => Refusal::Undo,
        26 => Refusal::List,
        _ => Refusal::Attributes,
    }
}

// Why the opening failed.
fn failure_words(v: Failure) -> [u64; 4]
    ensures { result ≡ failure_words v }
{
    match v {
        Failure::Nothing => [0, 0, 0, 0],
        Failure::By(x) => {
            let w = refusal_words(x);
            [1, w[0], w[1], w[2]]
        }
    }
}

fn failure_from(tag: u64, a: u64, b: u64, d: u64) -> Failure
    ensures { result ≡ failure_of tag a b d }
{
    match tag {
        1 => Failure::By(refusal_from(a, b, d)),
        _ => Failure::Nothing,
    }
}

// How a closing went.
fn closing_words(v: Closing) -> [u64; 1]
    ensures { result ≡ closing_words v }
{
    match v {
        Closing::Clean => [0],
        Closing::Reset => [1],
        Closing::Kept => [2],
    }
}

fn closing_from(tag: u64) -> Closing
    ensures { result ≡ closing_of tag }
{
    match tag {
        1 => Closing::Reset,
        2 => Closing::Kept,
        _ => Closing::Clean,
    }
}

// A slot.
pub fn slot_words(v: Slot) -> [u64; words::SLOT]
    ensures { result ≡ slot_words v }
{
    [
        v.runs,
        v.virt,
        v.handle,
        v.dev,
        v.pages,
        words::bit(v.mapped),
    ]
}

pub fn slot_from(w: [u64; words::SLOT]) -> Slot
    ensures { result ≡ slot_of w }
{
    Slot {
        runs: w[0],
        virt: w[1],
        handle: w[2],
        dev: w[3],
        pages: w[4],
        mapped: words::flag(w[5]),
    }
}

// How the command register stands.
fn wire_words(v: Wire) -> [u64; 7]
    ensures { result ≡ wire_words v }
{
    let catas = v.catas;
    let catas_w = words_task::catas_words(catas);
    [
        words::bit(v.toggle),
        words::bit(v.running),
        words::bit(v.broken),
        words::bit(v.silent),
        catas_w[0],
        catas_w[1],
        catas_w[2],
    ]
}

fn wire_from(a: u64, b: u64, d: u64, e: u64, f: u64, g: u64, h: u64) -> Wire
    ensures { result ≡ wire_of a b d e f g h }
{
    Wire {
        toggle: words::flag(a),
        running: words::flag(b),
        broken: words::flag(d),
        silent: words::flag(e),
        catas: words_task::catas_from(f, g, h),
    }
}

// The words of a ledger from those of its parts.
fn ledger_row(
    v: Ledger,
    wire: [u64; 7],
    failure: [u64; 4],
    closing: [u64; 1],
) -> [u64; words::LEDGER]
    ensures { result ≡ ledger_row v wire failure closing }
{
    [
        words::long(v.ranges),
        words::long(v.lends),
        words::bit(v.started),
        v.original,
        wire[0],
        wire[1],
        wire[2],
        wire[3],
        wire[4],
        wire[5],
        wire[6],
        failure[0],
        failure[1],
        failure[2],
        failure[3],
        closing[0],
    ]
}

// The ledger: the two counts first.
pub fn ledger_words(v: Ledger) -> [u64; words::LEDGER]
    ensures { result ≡ ledger_words v }
{
    let wire = v.wire;
    let wire_w = wire_words(wire);
    let failure = v.failure;
    let failure_w = failure_words(failure);
    let closing = v.closing;
    let closing_w = closing_words(closing);
    ledger_row(v, wire_w, failure_w, closing_w)
}

pub fn ledger_from(w: [u64; words::LEDGER]) -> Ledger
    ensures { result ≡ ledger_of w }
{
    Ledger {
        ranges: words::size(w[0]),
        lends: words::size(w[1]),
        started: words::flag(w[2]),
        original: w[3],
        wire: wire_from(w[4], w[5], w[6], w[7], w[8], w[9], w[10]),
        failure: failure_from(w[11], w[12], w[13], w[14]),
        closing: closing_from(w[15]),
    }
}
