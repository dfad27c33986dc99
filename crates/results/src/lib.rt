// What has become of a session, what an opening has found out, and what the books hold, as words.
#![tactic(auto)]

ghost use Rattle.std.specs.Prelude.{◌≡◌, [], ◌+◌, ◌-◌, ◌*◌, ◌<◌, ◌≤◌, length};
ghost use Rattle.fields.specs.Outcome.{pick};
ghost use Rattle.words.specs.Words.{put_words, flat};
ghost use Rattle.words_session.specs.Image.{ledger_for, told_for};
ghost use Rattle.behind.specs.Behind.{behind_in};
ghost use Rattle.session.specs.Core.{Behind, full};
ghost use Rattle.session.specs.Session.{no_slot, is_held};
ghost use Rattle.session.specs.declared.Core.{Core as Head};
ghost use Rattle.fw_plan.specs.Calls.{ended_as, outcome_of};
ghost use Rattle.results.specs.Books.{LENT, RANGES, BOOKS as BOOK_WORDS, ranges_at, lent_at, spot_of, area_words, range_words, lent_words, held_from, count_of, ranges_of, lent_of};
ghost use Rattle.results.specs.Books.{rows_words, areas_words, head_row, head_words, books_in};
ghost use Rattle.results.specs.Results.{values_of, end_word, refused_words, gave_words, outcome_words, merged, table_words, put_said, put_ports, put_layout, setup_in};

use fw_plan::Outcome;
use layout::{Layout, Table};
use pci::Refusal;
use reply::{DevCap, FuncInfo};
use session::{Closing, Core, Failure, Gave, Slot, Stage};
use words_books::Ledger;
use words_info::Told;

// The bytes of what an opening has found out.
pub const SETUP: usize = 1072;

// The books: how many ranges and lent buffers there can be, the word at which each begin, and the bytes of all.
const RANGES: usize = 14;

const LENT: usize = 64;

const RANGES_AT: usize = 32;

const LENT_AT: usize = RANGES_AT + RANGES * 4;

pub const BOOKS: usize = (LENT_AT + LENT * 3) * 8;

fn ended(failure: Failure, closing: Closing) -> Outcome
    ensures { result ≡ ended_as failure closing }
{
    match failure {
        Failure::Nothing => Outcome::Closed(closing),
        Failure::By(why) => Outcome::Failed(why, closing),
    }
}

// What has become of a session.
pub fn outcome(s: Core) -> Outcome
    ensures { (b : Behind) → result ≡ outcome_of (full s b) }
{
    let stage = s.stage;
    let failure = s.failure;
    let closing = s.closing;
    match stage {
        Stage::Fresh => Outcome::Fresh,
        Stage::Open(gave) => Outcome::Opened(gave),
        Stage::Ended => ended(failure, closing),
        Stage::Prepare(_) => Outcome::Running,
        Stage::Boot(_) => Outcome::Running,
        Stage::Client(_) => Outcome::Running,
        Stage::Close(_) => Outcome::Running,
    }
}

// The values beside a refusal, in their order.
fn values(why: Refusal) -> [u64; 2]
    ensures { result ≡ values_of why }
{
    match why {
        Refusal::Attributes => [0, 0],
        Refusal::Owner => [0, 0],
        Refusal::Reset => [0, 0],
        Refusal::Bar => [0, 0],
        Refusal::Memory => [0, 0],
        Refusal::Status(status, us) => [words::wide8(status), us],
        Refusal::Timeout(us) => [us, 0],
        Refusal::Busy => [0, 0],
        Refusal::Bus(us) => [us, 0],
        Refusal::NotPrimary => [0, 0],
        Refusal::Revision(v) => [words::wide16(v), 0],
        Refusal::MinPage(v) => [words::wide8(v), 0],
        Refusal::Ports(v) => [words::wide8(v), 0],
        Refusal::Uar(v) => [words::wide8(v), 0],
        Refusal::UarArea(v) => [v, 0],
        Refusal::Entry(v) => [words::long(v), 0],
        Refusal::Total(v) => [v, 0],
        Refusal::Address => [0, 0],
        Refusal::Full => [0, 0],
        Refusal::Wrong => [0, 0],
        Refusal::Short => [0, 0],
        Refusal::Opcode => [0, 0],
        Refusal::Undo => [0, 0],
        Refusal::List => [0, 0],
    }
}

// How a closing went: 0 clean, 1 by a reset, 2 all is kept.
fn end_word(closing: Closing) -> u64
    ensures { result ≡ end_word closing }
{
    match closing {
        Closing::Clean => 0,
        Closing::Reset => 1,
        Closing::Kept => 2,
    }
}

// A refusal behind the kind of what has become of a session: its number and its two values, then how the closing went.
fn refused_words(kind: u64, why: Refusal, end: u64) -> [u64; 5]
    ensures { result ≡ refused_words kind why end }
{
    let v = values(why);
    [kind, words::wide32(why.number()), v[0], v[1], end]
}

// What the last call on an open session gave; a lent buffer is that of its slot.
fn gave_words(gave: Gave, m: &[u8]) -> [u64; 5]
    ensures { result ≡ gave_words (behind_in m.now).slots gave }
{
    match gave {
        Gave::Nothing => [2, 0, 0, 0, 0],
        Gave::Command(immediate, us) => [5, immediate, us, 0, 0],
        Gave::Lent(i) => {
            let x = behind::slot_at(m, i);
            [6, x.handle, x.dev, x.pages, 0]
        }
        Gave::Failed(why) => refused_words(7, why, 0),
    }
}

// What has become of a session, as words: its kind, three values (a refusal's number and its two), and how the closing went.
pub fn outcome_words(o: Outcome, m: &[u8]) -> [u64; 5]
    ensures { result ≡ outcome_words (behind_in m.now).slots o }
{
    match o {
        Outcome::Fresh => [0, 0, 0, 0, 0],
        Outcome::Running => [1, 0, 0, 0, 0],
        Outcome::Opened(gave) => gave_words(gave, m),
        Outcome::Failed(why, closing) => refused_words(3, why, end_word(closing)),
        Outcome::Closed(closing) => [4, 0, 0, 0, end_word(closing)],
    }
}

// The capabilities as the opening leaves them: what QUERY_FUNC said replaces three of QUERY_DEV_CAP's.
fn merged_cap(cap: DevCap, func: FuncInfo) -> DevCap
    ensures { result ≡ merged cap func }
{
    DevCap {
        rsvd_eqs: func.rsvd_eqs,
        max_eqs: func.max_eqs,
        rsvd_uars: func.rsvd_uars,
        ..cap
    }
}

// How many ports were asked about: QUERY_PORT is sent at revision 3 only.
fn ports(rev3: bool, cap: DevCap) -> u64
    ensures { result ≡ pick rev3 cap.ports 0 }
{
    if rev3 {
        return words::wide8(cap.ports);
    }
    0
}

// A table: its index, entry, count, bytes and base.
fn put_table(out: &mut [u8], k: usize, t: Table)
    requires { (k + 5) * 8 ≤ length out.old }
    ensures { out.new ≡ put_words out.old k (table_words t) }
{
    let w = [words::long(t.index), t.entry, t.count, t.bytes, t.base];
    words::store(out, k, &w);
}

// The eleven tables in the order of their bases.
fn put_tables(out: &mut [u8], rows: [Table; 11])
    requires { 1072 ≤ length out.old }
    ensures { out.new ≡ put_words out.old 78 (flat table_words rows) }
{
    for (i, t) in rows.iter().enumerate() {
        put_table(out, 78 + i * 5, *t);
    }
}

// What the card and the host have said.
fn told_of(s: Core) -> Told
    ensures { result ≡ told_for s }
{
    let uar = s.uar;
    let func = s.func;
    Told {
        uar,
        func,
        rev3: s.rev3,
    }
}

fn put_said(out: &mut [u8], s: Core, m: &[u8])
    requires { 1072 ≤ length out.old }
    ensures { out.new ≡ put_said out.old (full s (behind_in m.now)).info }
{
    let func = s.func;
    let a = words_info::told_words(told_of(s));
    let b = words_info::cap_words(merged_cap(behind::cap_at(m), func));
    words::store(out, 0, &a);
    words::store(out, 8, &b);
}

fn put_ports(out: &mut [u8], m: &[u8])
    requires { 1072 ≤ length out.old }
    ensures { (c : Head) → out.new ≡ put_ports out.old (full c (behind_in m.now)).info }
{
    let a = words_info::port_words(behind::port_at(m, 1));
    let b = words_info::port_words(behind::port_at(m, 2));
    words::store(out, 40, &a);
    words::store(out, 57, &b);
}

// What was laid out.
fn put_layout(out: &mut [u8], s: Core, m: &[u8])
    requires { 1072 ≤ length out.old }
    ensures { out.new ≡ put_layout out.old (full s (behind_in m.now)).info }
{
    let cap = behind::cap_at(m);
    let layout = layout::profile(cap).unwrap_or(Layout::none());
    let rows = layout.rows;
    let w = [
        ports(s.rev3, cap),
        layout.total,
        layout::base_sqpn(cap),
        layout::first_free_mtt(cap),
    ];
    words::store(out, 74, &w);
    put_tables(out, rows);
    words::store(out, 133, &[layout.comparisons as u64]);
}

// What an opening has found out, as 134 words; nothing is written where they pass the end.
pub fn put_setup(out: &mut [u8], s: Core, m: &[u8])
    ensures { out.new ≡ setup_in out.old (full s (behind_in m.now)).info }
{
    if out.len() < SETUP {
        return;
    }
    put_said(out, s, m);
    put_ports(out, m);
    put_layout(out, s, m);
}

// The device address of a buffer; 1 where it is held and not mapped.
fn spot(x: Slot) -> u64
    ensures { result ≡ spot_of x }
{
    if x.runs == 0 {
        return 0;
    }
    if x.mapped {
        return x.dev;
    }
    1
}

fn no_slot() -> Slot
    ensures { result ≡ no_slot }
{
    Slot {
        runs: 0,
        virt: 0,
        handle: 0,
        dev: 0,
        pages: 0,
        mapped: false,
    }
}

// A buffer of which there is one: whether it is held, then what it is.
fn area_words(x: Slot) -> [u64; 4]
    ensures { result ≡ area_words x }
{
    if x.runs == 0 {
        return [0, 0, 0, 0];
    }
    [1, x.handle, spot(x), x.pages]
}

// The inbox, the outbox, the firmware area, the auxiliary area.
fn areas_words(m: &[u8]) -> [u64; 16]
    ensures { result ≡ areas_words (behind_in m.now).slots }
{
    let a = area_words(behind::slot_at(m, Slot::INBOX));
    let b = area_words(behind::slot_at(m, Slot::OUTBOX));
    let d = area_words(behind::slot_at(m, Slot::FA));
    let e = area_words(behind::slot_at(m, Slot::AUX));
    [
        a[0], a[1], a[2], a[3], b[0], b[1], b[2], b[3], d[0], d[1], d[2], d[3], e[0], e[1], e[2],
        e[3],
    ]
}

// One slot more: it counts if it is held.
fn counting(n: usize, x: Slot) -> usize
    requires { n < LENT }
    ensures { result ≡ count_of n x }
{
    if x.runs == 0 {
        return n;
    }
    n + 1
}

// How many of so many slots from one on are held.
fn held_in(m: &[u8], from: usize, count: usize) -> usize
    requires { (from + count ≤ 82) × (count ≤ LENT) }
    ensures { result ≡ length (held_from count from (behind_in m.now).slots) }
{
    let mut n: usize = 0;
    for i in 0..count {
        n = counting(n, behind::slot_at(m, from + i));
    }
    n
}

// The first words of the books, from the two counts, the ledger's words and the four areas'.
fn head_row(ranges: u64, lent: u64, w: [u64; words::LEDGER], a: [u64; 16]) -> [u64; RANGES_AT]
    ensures { result ≡ head_row ranges lent w a }
{
    [
        ranges, lent, w[2], w[3], w[4], w[5], w[6], w[7], w[8], w[9], w[10], a[0], a[1], a[2],
        a[3], a[4], a[5], a[6], a[7], a[8], a[9], a[10], a[11], a[12], a[13], a[14], a[15], w[11],
        w[12], w[13], w[14], w[15],
    ]
}

fn ledger_of(s: Core) -> Ledger
    ensures { result ≡ ledger_for s }
{
    let wire = s.wire;
    let failure = s.failure;
    let closing = s.closing;
    Ledger {
        ranges: s.ranges,
        lends: s.lends,
        started: s.started,
        original: s.original,
        wire,
        failure,
        closing,
    }
}

fn head_words(s: Core, m: &[u8]) -> [u64; RANGES_AT]
    ensures { result ≡ head_words (full s (behind_in m.now)) }
{
    let ranges = held_in(m, LENT, RANGES);
    let lent = held_in(m, 0, LENT);
    let w = words_books::ledger_words(ledger_of(s));
    let a = areas_words(m);
    head_row(words::long(ranges), words::long(lent), w, a)
}

// A range; the next row, if it is held; all that are held, which gives how many; and rows without one behind them.
fn put_range(out: &mut [u8], k: usize, x: Slot)
    requires { (k + 4) * 8 ≤ length out.old }
    ensures { out.new ≡ put_words out.old k (range_words x) }
{
    let w = [x.virt, x.handle, spot(x), x.pages];
    words::store(out, k, &w);
}

fn next_range(out: &mut [u8], n: usize, x: Slot)
    requires { (BOOK_WORDS * 8 ≤ length out.old) × (n < RANGES) }
    ensures { out.new ≡ pick (is_held x) (put_words out.old (ranges_at + n * 4) (range_words x)) out.old }
{
    if x.runs == 0 {
        return;
    }
    put_range(out, RANGES_AT + n * 4, x);
}

fn held_ranges(out: &mut [u8], m: &[u8]) -> usize
    requires { BOOK_WORDS * 8 ≤ length out.old }
    ensures upper_bound { result ≤ RANGES }
    ensures result_after { put_words out.new (ranges_at + result * 4) (rows_words range_words (RANGES - result) 0 []) ≡ put_words out.old ranges_at (rows_words range_words RANGES 0 (ranges_of (behind_in m.now).slots)) }
{
    let mut n: usize = 0;
    for i in 0..RANGES {
        let x = behind::slot_at(m, LENT + i);
        next_range(out, n, x);
        n = counting(n, x);
    }
    n
}

fn no_ranges(out: &mut [u8], n: usize)
    requires { (BOOK_WORDS * 8 ≤ length out.old) × (n ≤ RANGES) }
    ensures { out.new ≡ put_words out.old (ranges_at + n * 4) (rows_words range_words (RANGES - n) 0 []) }
{
    let none = no_slot();
    for i in n..RANGES {
        put_range(out, RANGES_AT + i * 4, none);
    }
}

fn put_ranges(out: &mut [u8], m: &[u8])
    requires { BOOK_WORDS * 8 ≤ length out.old }
    ensures { out.new ≡ put_words out.old ranges_at (rows_words range_words RANGES 0 (ranges_of (behind_in m.now).slots)) }
{
    let n = held_ranges(out, m);
    no_ranges(out, n);
}

// The same of a lent buffer.
fn put_one(out: &mut [u8], k: usize, x: Slot)
    requires { (k + 3) * 8 ≤ length out.old }
    ensures { out.new ≡ put_words out.old k (lent_words x) }
{
    let w = [x.handle, spot(x), x.pages];
    words::store(out, k, &w);
}

fn next_lent(out: &mut [u8], n: usize, x: Slot)
    requires { (BOOK_WORDS * 8 ≤ length out.old) × (n < LENT) }
    ensures { out.new ≡ pick (is_held x) (put_words out.old (lent_at + n * 3) (lent_words x)) out.old }
{
    if x.runs == 0 {
        return;
    }
    put_one(out, LENT_AT + n * 3, x);
}

fn held_lent(out: &mut [u8], m: &[u8]) -> usize
    requires { BOOK_WORDS * 8 ≤ length out.old }
    ensures upper_bound { result ≤ LENT }
    ensures result_after { put_words out.new (lent_at + result * 3) (rows_words lent_words (LENT - result) 0 []) ≡ put_words out.old lent_at (rows_words lent_words LENT 0 (lent_of (behind_in m.now).slots)) }
{
    let mut n: usize = 0;
    for i in 0..LENT {
        let x = behind::slot_at(m, i);
        next_lent(out, n, x);
        n = counting(n, x);
    }
    n
}

fn no_lent(out: &mut [u8], n: usize)
    requires { (BOOK_WORDS * 8 ≤ length out.old) × (n ≤ LENT) }
    ensures { out.new ≡ put_words out.old (lent_at + n * 3) (rows_words lent_words (LENT - n) 0 []) }
{
    let none = no_slot();
    for i in n..LENT {
        put_one(out, LENT_AT + i * 3, none);
    }
}

fn put_lent(out: &mut [u8], m: &[u8])
    requires { BOOK_WORDS * 8 ≤ length out.old }
    ensures { out.new ≡ put_words out.old lent_at (rows_words lent_words LENT 0 (lent_of (behind_in m.now).slots)) }
{
    let n = held_lent(out, m);
    no_lent(out, n);
}

// What the session holds: the head, then the ranges in four words each, then the lent buffers in three; nothing is written where they pass the end.
pub fn put_books(out: &mut [u8], s: Core, m: &[u8])
    ensures { out.new ≡ books_in out.old (full s (behind_in m.now)) }
{
    if out.len() < BOOKS {
        return;
    }
    let head = head_words(s, m);
    words::store(out, 0, &head);
    put_ranges(out, m);
    put_lent(out, m);
}
