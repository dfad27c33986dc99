// What the card's replies say. A reply is read through a reader over its bytes; one too short for its fields is refused with 21.
#![tactic(auto)]

ghost use Rattle.std.specs.Prelude.{◌&&◌, ◌≡◌, ◌+◌, ◌*◌, ◌/◌, ◌%◌, ◌^◌, ◌<◌, ◌≤◌, max, length, eqb};
ghost use Rattle.std.specs.Result.{result_unwrap_or};
ghost use Rattle.fields.specs.Fields.{be};
ghost use Rattle.fields.specs.Outcome.{value_or, number_of, pick};
ghost use Rattle.reply.specs.Replies.{catas_bar_value, fw_of, no_fw, two_or_three, query_fw, query_fw_of, fw_in, fw_held};
ghost use Rattle.reply.specs.Replies.{mac_of, port_of, no_port, query_port, query_port_of, query_func, query_func_of};
ghost use Rattle.reply.specs.Capability.{capability, capability_of, dev_cap_of, entries_of, no_caps, uar_area, above_size, one_or_two, refused_by, bit};

use fields::Short;
use reader::Reader;

// The kinds of ICM table, by index, and what is fixed for each.
#[derive(Clone, Copy)]
pub struct Kind {
    pub index: usize,
}

impl Kind {
    pub const QPC: usize = 0;

    pub const RDMARC: usize = 1;

    pub const ALTC: usize = 2;

    pub const AUXC: usize = 3;

    pub const SRQC: usize = 4;

    pub const CQC: usize = 5;

    pub const EQC: usize = 6;

    pub const DMPT: usize = 7;

    pub const CMPT: usize = 8;

    pub const MTT: usize = 9;

    pub const MCG: usize = 10;

    pub const COUNT: usize = 11;

    // An MCG entry has 2^10 bytes; no reply gives its size.
    pub const MCG_LOG_ENTRY: u8 = 10;

    pub const MCG_ENTRY: u16 = 1024;

    pub const MCG_COUNT: u32 = 256;

    // Four quarters of 2^24 entries: for QPs, SRQs, CQs and EQs.
    pub const CMPT_COUNT: u32 = 0x400_0000;

    pub const CMPT_QUARTER: u64 = 0x100_0000;
}

// Which table's entry size stands where in a capability reply.
#[derive(Clone, Copy)]
pub struct Place {
    pub table: usize,
    pub offset: usize,
}

// The ten entry sizes that a capability reply gives.
pub const ENTRIES: [Place; 10] = [
    Place {
        table: Kind::QPC,
        offset: 0x82,
    },
    Place {
        table: Kind::RDMARC,
        offset: 0x80,
    },
    Place {
        table: Kind::ALTC,
        offset: 0x86,
    },
    Place {
        table: Kind::AUXC,
        offset: 0x84,
    },
    Place {
        table: Kind::SRQC,
        offset: 0x8c,
    },
    Place {
        table: Kind::CQC,
        offset: 0x8a,
    },
    Place {
        table: Kind::EQC,
        offset: 0x88,
    },
    Place {
        table: Kind::DMPT,
        offset: 0x92,
    },
    Place {
        table: Kind::CMPT,
        offset: 0x8e,
    },
    Place {
        table: Kind::MTT,
        offset: 0x90,
    },
];

// The fields of a capability reply (QUERY_DEV_CAP). Each type holds every value that a reply can give.
#[derive(Clone, Copy)]
pub struct DevCap {
    // Counts, each a power of two.
    pub rsvd_qps: u16,
    pub rsvd_srqs: u16,
    pub rsvd_cqs: u16,
    pub rsvd_eqs: u16,
    pub max_eqs: u16,
    pub rsvd_mtts: u16,
    pub rsvd_mpts: u16,
    // Counts as they stand.
    pub rsvd_uars: u8,
    pub rsvd_pds: u8,
    pub num_sys_eqs: u16,
    pub ports: u8,
    // Exponents of two.
    pub log_max_qp_wqes: u8,
    pub log_max_cqes: u8,
    pub log_min_page: u8,
    pub flags: u64,
    pub flags2: u32,
    pub bmme: u32,
    // The PTYS register may be used.
    pub eth_prot_ctrl: bool,
    pub eth_backpl_an_rep: bool,
    // The size of the UAR area.
    pub uar_bytes: u64,
    // Entry sizes by table index.
    pub entry: [u16; 11],
    pub max_icm: u64,
}

// Why a capability reply is refused, in the order of the tests on it.
#[derive(Clone, Copy)]
pub enum CapRefusal {
    Short,
    MinPage(u8),
    Ports(u8),
    Uar(u8),
    UarArea(u64),
}

impl CapRefusal {
    // Document 01's number.
    pub fn number(self) -> u32
        ensures { result ≡ number_of (refused_by self) }
    {
        match self {
            CapRefusal::Short => 21,
            CapRefusal::MinPage(_) => 12,
            CapRefusal::Ports(_) => 13,
            CapRefusal::Uar(_) => 14,
            CapRefusal::UarArea(_) => 15,
        }
    }
}

fn has_bit(flags: u64, number: u8) -> bool
    ensures { result ≡ bit number flags }
{
    number < 64 && (flags >> number) % 2 == 1
}

impl DevCap {
    // Whether the card has the capability of this number.
    pub fn flag(self, number: u8) -> bool
        ensures { result ≡ bit number self.flags }
    {
        has_bit(self.flags, number)
    }

    // B0 steering: both VEP steering capabilities.
    pub fn b0(self) -> bool
        ensures { result ≡ bit 41 self.flags && bit 42 self.flags }
    {
        self.flag(41) && self.flag(42)
    }

    pub const BYTES: usize = 168;

    pub const MAX_LOG_MIN_PAGE: u8 = 12;

    pub const MAX_LOG_UAR: u8 = 43;

    pub fn none() -> Self
        ensures { result ≡ no_caps }
    {
        Self {
            rsvd_qps: 0,
            rsvd_srqs: 0,
            rsvd_cqs: 0,
            rsvd_eqs: 0,
            max_eqs: 0,
            rsvd_mtts: 0,
            rsvd_mpts: 0,
            rsvd_uars: 0,
            rsvd_pds: 0,
            num_sys_eqs: 0,
            ports: 0,
            log_max_qp_wqes: 0,
            log_max_cqes: 0,
            log_min_page: 0,
            flags: 0,
            flags2: 0,
            bmme: 0,
            eth_prot_ctrl: false,
            eth_backpl_an_rep: false,
            uar_bytes: 0,
            entry: [0u16; 11],
            max_icm: 0,
        }
    }
}

// A field that is known to lie within the reply, through the reply's reader.
fn byte(reply: &[u8], off: usize) -> u8
    requires { off + 1 ≤ length reply.now }
    ensures { result ≡ be reply.now off 1 }
{
    Reader::new(reply).u8(off).unwrap_or(0)
}

fn be16(reply: &[u8], off: usize) -> u16
    requires { off + 2 ≤ length reply.now }
    ensures { result ≡ be reply.now off 2 }
{
    Reader::new(reply).be16(off).unwrap_or(0)
}

fn be32(reply: &[u8], off: usize) -> u32
    requires { off + 4 ≤ length reply.now }
    ensures { result ≡ be reply.now off 4 }
{
    Reader::new(reply).be32(off).unwrap_or(0)
}

fn be64(reply: &[u8], off: usize) -> u64
    requires { off + 8 ≤ length reply.now }
    ensures { result ≡ be reply.now off 8 }
{
    Reader::new(reply).be64(off).unwrap_or(0)
}

// 2^log, for a log of four bits.
fn count(log: u8) -> u16
    requires { log < 16 }
    ensures { result ≡ 2 ^ log }
{
    1u16 << log
}

// The count whose log stands in the low, or in the high, four bits of the byte at off.
fn low_count(reply: &[u8], off: usize) -> u16
    requires { off + 1 ≤ length reply.now }
    ensures { result ≡ 2 ^ (be reply.now off 1 % 16) }
{
    count(byte(reply, off) % 16)
}

fn high_count(reply: &[u8], off: usize) -> u16
    requires { off + 1 ≤ length reply.now }
    ensures { result ≡ 2 ^ (be reply.now off 1 / 16) }
{
    count(byte(reply, off) / 16)
}

// The reserved EQs: where there are no system EQs, at least four for each reserved UAR.
fn rsvd_eqs(eqs: u16, uars: u8, sys: u16) -> u16
    requires { uars < 16 }
    ensures { result ≡ pick (eqb sys 0) (max eqs (4 * uars)) eqs }
{
    if sys == 0 {
        eqs.max(4 * (uars as u16))
    } else {
        eqs
    }
}

// The entry sizes by table index.
fn entries(reply: &[u8]) -> [u16; 11]
    requires { 168 ≤ length reply.now }
    ensures { result ≡ entries_of reply.now }
{
    let mut out = [0u16; 11];
    out[Kind::MCG] = Kind::MCG_ENTRY;
    for place in ENTRIES {
        out[place.table] = be16(reply, place.offset);
    }
    out
}

// The fields of a reply that is long enough, whose UAR area is known to fit.
fn decoded(reply: &[u8], area: u64) -> DevCap
    requires { (168 ≤ length reply.now) × (area ≡ uar_area reply.now) }
    ensures { result ≡ dev_cap_of reply.now }
{
    let num_sys_eqs = be16(reply, 0x26) % 4096;
    let rsvd_uars = byte(reply, 0x48) / 16;
    DevCap {
        rsvd_qps: low_count(reply, 0x12),
        rsvd_srqs: high_count(reply, 0x14),
        rsvd_cqs: low_count(reply, 0x1a),
        rsvd_eqs: rsvd_eqs(low_count(reply, 0x1e), rsvd_uars, num_sys_eqs),
        max_eqs: low_count(reply, 0x1f),
        rsvd_mtts: high_count(reply, 0x20),
        rsvd_mpts: low_count(reply, 0x22),
        rsvd_uars,
        rsvd_pds: byte(reply, 0x64) / 16,
        num_sys_eqs,
        ports: byte(reply, 0x37) % 16,
        log_max_qp_wqes: byte(reply, 0x11),
        log_max_cqes: byte(reply, 0x19),
        log_min_page: byte(reply, 0x4b),
        flags: be64(reply, 0x40),
        flags2: be32(reply, 0x70),
        bmme: be32(reply, 0x94),
        eth_prot_ctrl: byte(reply, 0x7a) / 32 % 2 == 1,
        eth_backpl_an_rep: be32(reply, 0x9c) % 2 == 1,
        uar_bytes: area,
        entry: entries(reply),
        max_icm: be64(reply, 0xa0),
    }
}

fn one_or_two(n: u8) -> bool
    ensures { result ≡ one_or_two n }
{
    n == 1 || n == 2
}

// 2^field megabytes.
fn uar_area(field: u8) -> u64
    requires { field ≤ 43 }
    ensures { result ≡ 2 ^ (field + 20) }
{
    1u64 << (field + 20)
}

fn above(bar: Option<u64>, area: u64) -> bool
    ensures { result ≡ above_size bar area }
{
    bar.is_some_and(|n| n < area)
}

// The capability reply, with the tests on it: 21, then 12 to 15.
pub fn dev_cap(reply: &[u8], bar: Option<u64>) -> Result<DevCap, CapRefusal>
    ensures said { capability result ≡ capability_of reply.now bar }
    ensures held { result_unwrap_or result no_caps ≡ value_or no_caps (capability_of reply.now bar) }
{
    if reply.len() < DevCap::BYTES {
        return Err(CapRefusal::Short);
    }
    let log_min_page = byte(reply, 0x4b);
    if DevCap::MAX_LOG_MIN_PAGE < log_min_page {
        return Err(CapRefusal::MinPage(log_min_page));
    }
    let ports = byte(reply, 0x37) % 16;
    if !one_or_two(ports) {
        return Err(CapRefusal::Ports(ports));
    }
    let field = byte(reply, 0x49) % 64;
    if DevCap::MAX_LOG_UAR < field {
        return Err(CapRefusal::Uar(field));
    }
    let area = uar_area(field);
    if above(bar, area) {
        return Err(CapRefusal::UarArea(area));
    }
    Ok(decoded(reply, area))
}

// What QUERY_FW says: the pages that the firmware asks for, its version, the revision of the command interface, and where the catastrophic error buffer is.
#[derive(Clone, Copy)]
pub struct FwInfo {
    pub pages: u16,
    pub major: u16,
    pub subminor: u16,
    pub minor: u16,
    pub ppf: u8,
    pub rev: u16,
    pub log_max_cmds: u8,
    pub catas_offset: u64,
    pub catas_size: u32,
    pub catas_bar: u8,
}

// Why a reply to QUERY_FW is refused: its fields are known also where the revision is refused.
#[derive(Clone, Copy)]
pub enum FwRefusal {
    Short,
    Revision(FwInfo),
}

impl FwInfo {
    pub const BYTES: usize = 0x3d;

    // The BAR register of the UAR area, whose index depends on the host.
    pub const UAR_REG: u8 = 2;

    pub fn none() -> Self
        ensures { result ≡ no_fw }
    {
        Self {
            pages: 0,
            major: 0,
            subminor: 0,
            minor: 0,
            ppf: 0,
            rev: 0,
            log_max_cmds: 0,
            catas_offset: 0,
            catas_size: 0,
            catas_bar: 0,
        }
    }
}

// The BAR of the catastrophic buffer: the register, or the index chosen for the UAR BAR where it is that register.
fn catas_bar(register: u8, bar: u8) -> u8
    ensures { result ≡ catas_bar_value register bar }
{
    if register == FwInfo::UAR_REG {
        bar
    } else {
        register
    }
}

fn fw_info(reply: &[u8], bar: u8) -> FwInfo
    requires { 61 ≤ length reply.now }
    ensures { result ≡ fw_of reply.now bar }
{
    FwInfo {
        pages: be16(reply, 0x00),
        major: be16(reply, 0x02),
        subminor: be16(reply, 0x04),
        minor: be16(reply, 0x06),
        ppf: byte(reply, 0x09),
        rev: be16(reply, 0x0a),
        log_max_cmds: byte(reply, 0x0f),
        catas_offset: be64(reply, 0x30),
        catas_size: be32(reply, 0x38),
        catas_bar: catas_bar(byte(reply, 0x3c) / 64 * 2, bar),
    }
}

fn two_or_three(n: u16) -> bool
    ensures { result ≡ two_or_three n }
{
    n == 2 || n == 3
}

// The reply to QUERY_FW, where `bar` is the index chosen for the UAR BAR: 21, then 11.
pub fn query_fw(reply: &[u8], bar: u8) -> Result<FwInfo, FwRefusal>
    ensures said { query_fw result ≡ query_fw_of reply.now bar }
    ensures held { fw_in result ≡ fw_held reply.now bar }
{
    if reply.len() < FwInfo::BYTES {
        return Err(FwRefusal::Short);
    }
    let info = fw_info(reply, bar);
    if two_or_three(info.rev) {
        Ok(info)
    } else {
        Err(FwRefusal::Revision(info))
    }
}

// What QUERY_PORT says of one port.
#[derive(Clone, Copy)]
pub struct PortInfo {
    pub num: u8,
    pub link_up: bool,
    // Supported types, suggested type, default sense.
    pub b0: u8,
    pub mtu_cap: u16,
    pub log_macs: u8,
    pub mac: [u8; 6],
    pub autoneg: bool,
    pub an_complete: bool,
    // The code of the link's speed.
    pub speed: u8,
    // The transceiver's type and vendor, its wavelength and its code.
    pub xcvr: u32,
    pub wavelength: u16,
    pub xcvr_code: u64,
}

impl PortInfo {
    pub const BYTES: usize = 0x28;

    pub fn none() -> Self
        ensures { result ≡ no_port }
    {
        Self {
            num: 0,
            link_up: false,
            b0: 0,
            mtu_cap: 0,
            log_macs: 0,
            mac: [0u8; 6],
            autoneg: false,
            an_complete: false,
            speed: 0,
            xcvr: 0,
            wavelength: 0,
            xcvr_code: 0,
        }
    }
}

fn mac(reply: &[u8]) -> [u8; 6]
    requires { 40 ≤ length reply.now }
    ensures { result ≡ mac_of reply.now }
{
    [
        byte(reply, 0x12),
        byte(reply, 0x13),
        byte(reply, 0x14),
        byte(reply, 0x15),
        byte(reply, 0x16),
        byte(reply, 0x17),
    ]
}

fn port_info(reply: &[u8], num: u8) -> PortInfo
    requires { 40 ≤ length reply.now }
    ensures { result ≡ port_of reply.now num }
{
    let b0 = byte(reply, 0x00);
    let speed = byte(reply, 0x05);
    PortInfo {
        num,
        link_up: b0 / 128 % 2 == 1,
        b0,
        mtu_cap: be16(reply, 0x02),
        log_macs: byte(reply, 0x0a) % 16,
        mac: mac(reply),
        autoneg: byte(reply, 0x01) / 128 % 2 == 1,
        an_complete: b0 / 64 % 2 == 1,
        speed: speed % 16 + speed / 32 % 4 * 32,
        xcvr: be32(reply, 0x18),
        wavelength: be16(reply, 0x1c),
        xcvr_code: be64(reply, 0x20),
    }
}

// The reply to QUERY_PORT for port `num`.
pub fn query_port(reply: &[u8], num: u8) -> Result<PortInfo, Short>
    ensures said { query_port result ≡ query_port_of reply.now num }
    ensures held { result_unwrap_or result no_port ≡ value_or no_port (query_port_of reply.now num) }
{
    if reply.len() < PortInfo::BYTES {
        return Err(Short);
    }
    Ok(port_info(reply, num))
}

// What QUERY_FUNC says on a card with system EQs: it replaces three capability fields.
#[derive(Clone, Copy)]
pub struct FuncInfo {
    pub rsvd_eqs: u16,
    pub max_eqs: u16,
    pub rsvd_uars: u8,
}

impl FuncInfo {
    pub const BYTES: usize = 0x0c;
}

// The reply to QUERY_FUNC.
pub fn query_func(reply: &[u8]) -> Result<FuncInfo, Short>
    ensures { query_func result ≡ query_func_of reply.now }
{
    if reply.len() < FuncInfo::BYTES {
        return Err(Short);
    }
    Ok(FuncInfo {
        rsvd_eqs: be16(reply, 0x04),
        max_eqs: be16(reply, 0x06),
        rsvd_uars: byte(reply, 0x0b) % 16,
    })
}
