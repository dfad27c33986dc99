// What the card and the host have said, as words: the capabilities, a port, the rest.
#![tactic(auto)]

ghost use Rattle.std.specs.Prelude.{◌≡◌};
ghost use Rattle.words_info.specs.Coding.{size_words, size_of, how_words, how_of, pick_words, pick_of, func_words, func_of};
ghost use Rattle.words_info.specs.Coding.{told_words, told_of, entry_of, cap_words, cap_of, port_words, port_of};

use bars::{How, Pick};
use reply::{DevCap, FuncInfo, PortInfo};

// What the card and the host have said, beside the capabilities and the ports.
#[derive(Clone, Copy)]
pub struct Told {
    pub uar: Pick,
    pub func: FuncInfo,
    pub rev3: bool,
}

// The length of a BAR, if it is known.
fn size_words(v: Option<u64>) -> [u64; 2]
    ensures { result ≡ size_words v }
{
    match v {
        Some(x) => [0, x],
        None => [1, 0],
    }
}

fn size_from(tag: u64, a: u64) -> Option<u64>
    ensures { result ≡ size_of tag a }
{
    match tag {
        1 => None,
        _ => Some(a),
    }
}

// How an index was chosen.
fn how_words(v: How) -> [u64; 1]
    ensures { result ≡ how_words v }
{
    match v {
        How::BaseMatches => [0],
        How::Scan => [1],
        How::OnlyAnswer => [2],
        How::NoMatch => [3],
        How::NoAnswer => [4],
    }
}

fn how_from(tag: u64) -> How
    ensures { result ≡ how_of tag }
{
    match tag {
        1 => How::Scan,
        2 => How::OnlyAnswer,
        3 => How::NoMatch,
        4 => How::NoAnswer,
        _ => How::BaseMatches,
    }
}

fn pick_words(v: Pick) -> [u64; 4]
    ensures { result ≡ pick_words v }
{
    let size = v.size;
    let size_w = size_words(size);
    let how = v.how;
    let how_w = how_words(how);
    [words::wide8(v.index), size_w[0], size_w[1], how_w[0]]
}

fn pick_from(a: u64, b: u64, d: u64, e: u64) -> Pick
    ensures { result ≡ pick_of a b d e }
{
    Pick {
        index: words::narrow8(a),
        size: size_from(b, d),
        how: how_from(e),
    }
}

fn func_words(v: FuncInfo) -> [u64; 3]
    ensures { result ≡ func_words v }
{
    [
        words::wide16(v.rsvd_eqs),
        words::wide16(v.max_eqs),
        words::wide8(v.rsvd_uars),
    ]
}

fn func_from(a: u64, b: u64, d: u64) -> FuncInfo
    ensures { result ≡ func_of a b d }
{
    FuncInfo {
        rsvd_eqs: words::narrow16(a),
        max_eqs: words::narrow16(b),
        rsvd_uars: words::narrow8(d),
    }
}

// The UAR BAR, what QUERY_FUNC said, and the revision.
pub fn told_words(v: Told) -> [u64; words::TOLD]
    ensures { result ≡ told_words v }
{
    let uar = v.uar;
    let uar_w = pick_words(uar);
    let func = v.func;
    let func_w = func_words(func);
    [
        uar_w[0],
        uar_w[1],
        uar_w[2],
        uar_w[3],
        func_w[0],
        func_w[1],
        func_w[2],
        words::bit(v.rev3),
    ]
}

pub fn told_from(w: [u64; words::TOLD]) -> Told
    ensures { result ≡ told_of w }
{
    Told {
        uar: pick_from(w[0], w[1], w[2], w[3]),
        func: func_from(w[4], w[5], w[6]),
        rev3: words::flag(w[7]),
    }
}

// The capabilities.
pub fn cap_words(v: DevCap) -> [u64; words::CAP]
    ensures { result ≡ cap_words v }
{
    let entry = v.entry;
    [
        words::wide16(v.rsvd_qps),
        words::wide16(v.rsvd_srqs),
        words::wide16(v.rsvd_cqs),
        words::wide16(v.rsvd_eqs),
        words::wide16(v.max_eqs),
        words::wide16(v.rsvd_mtts),
        words::wide16(v.rsvd_mpts),
        words::wide8(v.rsvd_uars),
        words::wide8(v.rsvd_pds),
        words::wide16(v.num_sys_eqs),
        words::wide8(v.ports),
        words::wide8(v.log_max_qp_wqes),
        words::wide8(v.log_max_cqes),
        words::wide8(v.log_min_page),
        v.flags,
        words::wide32(v.flags2),
        words::wide32(v.bmme),
        words::bit(v.eth_prot_ctrl),
        words::bit(v.eth_backpl_an_rep),
        v.uar_bytes,
        v.max_icm,
        words::wide16(entry[0]),
        words::wide16(entry[1]),
        words::wide16(entry[2]),
        words::wide16(entry[3]),
        words::wide16(entry[4]),
        words::wide16(entry[5]),
        words::wide16(entry[6]),
        words::wide16(entry[7]),
        words::wide16(entry[8]),
        words::wide16(entry[9]),
        words::wide16(entry[10]),
    ]
}

// The entry sizes by table index.
fn entry_from(w: [u64; words::CAP]) -> [u16; 11]
    ensures { result ≡ entry_of w }
{
    [
        words::narrow16(w[21]),
        words::narrow16(w[22]),
        words::narrow16(w[23]),
        words::narrow16(w[24]),
        words::narrow16(w[25]),
        words::narrow16(w[26]),
        words::narrow16(w[27]),
        words::narrow16(w[28]),
        words::narrow16(w[29]),
        words::narrow16(w[30]),
        words::narrow16(w[31]),
    ]
}

pub fn cap_from(w: [u64; words::CAP]) -> DevCap
    ensures { result ≡ cap_of w }
{
    DevCap {
        rsvd_qps: words::narrow16(w[0]),
        rsvd_srqs: words::narrow16(w[1]),
        rsvd_cqs: words::narrow16(w[2]),
        rsvd_eqs: words::narrow16(w[3]),
        max_eqs: words::narrow16(w[4]),
        rsvd_mtts: words::narrow16(w[5]),
        rsvd_mpts: words::narrow16(w[6]),
        rsvd_uars: words::narrow8(w[7]),
        rsvd_pds: words::narrow8(w[8]),
        num_sys_eqs: words::narrow16(w[9]),
        ports: words::narrow8(w[10]),
        log_max_qp_wqes: words::narrow8(w[11]),
        log_max_cqes: words::narrow8(w[12]),
        log_min_page: words::narrow8(w[13]),
        flags: w[14],
        flags2: words::narrow32(w[15]),
        bmme: words::narrow32(w[16]),
        eth_prot_ctrl: words::flag(w[17]),
        eth_backpl_an_rep: words::flag(w[18]),
        uar_bytes: w[19],
        max_icm: w[20],
        entry: entry_from(w),
    }
}

// A port.
pub fn port_words(v: PortInfo) -> [u64; words::PORT]
    ensures { result ≡ port_words v }
{
    let mac = v.mac;
    [
        words::wide8(v.num),
        words::bit(v.link_up),
        words::wide8(v.b0),
        words::wide16(v.mtu_cap),
        words::wide8(v.log_macs),
        words::bit(v.autoneg),
        words::bit(v.an_complete),
        words::wide8(v.speed),
        words::wide32(v.xcvr),
        words::wide16(v.wavelength),
        v.xcvr_code,
        words::wide8(mac[0]),
        words::wide8(mac[1]),
        words::wide8(mac[2]),
        words::wide8(mac[3]),
        words::wide8(mac[4]),
        words::wide8(mac[5]),
    ]
}

pub fn port_from(w: [u64; words::PORT]) -> PortInfo
    ensures { result ≡ port_of w }
{
    PortInfo {
        num: words::narrow8(w[0]),
        link_up: words::flag(w[1]),
        b0: words::narrow8(w[2]),
        mtu_cap: words::narrow16(w[3]),
        log_macs: words::narrow8(w[4]),
        autoneg: words::flag(w[5]),
        an_complete: words::flag(w[6]),
        speed: words::narrow8(w[7]),
        xcvr: words::narrow32(w[8]),
        wavelength: words::narrow16(w[9]),
        xcvr_code: w[10],
        mac: [
            words::narrow8(w[11]),
            words::narrow8(w[12]),
            words::narrow8(w[13]),
            words::narrow8(w[14]),
            words::narrow8(w[15]),
            words::narrow8(w[16]),
        ],
    }
}
