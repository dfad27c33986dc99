// The card's replies: document 01's number, the value beside it, then the fields.
ghost use Rattle.std.specs.Prelude.{◌≡◌};
ghost use Rattle.std.specs.Result.{result_unwrap_or};
ghost use Rattle.fields.specs.Outcome.{number_of};
ghost use Rattle.reply.specs.Capability.{capability, refused_by, no_caps};
ghost use Rattle.reply.specs.Replies.{query_fw, fw_in, query_port, no_port, query_func};
ghost use Rattle.answers.specs.Replies.{size_from, code_of, cap_words, fw_words, port_words, func_words};

use crate::words;
use fields::Short;
use reply::{CapRefusal, DevCap, FuncInfo, FwInfo, FwRefusal, PortInfo};

// A refusal's number and the value beside it; 0 where there is none.
#[derive(Clone, Copy)]
pub struct Code {
    pub number: u64,
    pub beside: u64,
}

impl Code {
    pub const GOOD: u64 = 0;

    pub const SHORT: u64 = 21;

    // No refusal.
    const NONE: Code = Code {
        number: Code::GOOD,
        beside: 0,
    };
}

pub fn size_from(known: bool, bytes: u64) -> Option<u64>
    ensures { result ≡ size_from known bytes }
{
    if known {
        return Some(bytes);
    }
    None
}

pub fn cap_code(k: CapRefusal) -> Code
    ensures { result ≡ code_of (refused_by k) }
{
    match k {
        CapRefusal::Short => Code {
            number: Code::SHORT,
            beside: 0,
        },
        CapRefusal::MinPage(e) => Code {
            number: 12,
            beside: e as u64,
        },
        CapRefusal::Ports(n) => Code {
            number: 13,
            beside: n as u64,
        },
        CapRefusal::Uar(f) => Code {
            number: 14,
            beside: f as u64,
        },
        CapRefusal::UarArea(a) => Code {
            number: 15,
            beside: a,
        },
    }
}

fn cap_told(r: Result<DevCap, CapRefusal>) -> Code
    ensures { result ≡ code_of (capability r) }
{
    match r {
        Ok(_) => Code::NONE,
        Err(k) => cap_code(k),
    }
}

pub fn cap_words(r: Result<DevCap, CapRefusal>) -> [u64; 34]
    ensures { result ≡ cap_words (code_of (capability r)) (result_unwrap_or r no_caps) }
{
    let code = cap_told(r);
    let c = r.unwrap_or(DevCap::none());
    let e = c.entry;
    [
        code.number,
        code.beside,
        words::wide16(c.rsvd_qps),
        words::wide16(c.rsvd_srqs),
        words::wide16(c.rsvd_cqs),
        words::wide16(c.rsvd_eqs),
        words::wide16(c.max_eqs),
        words::wide16(c.rsvd_mtts),
        words::wide16(c.rsvd_mpts),
        words::wide8(c.rsvd_uars),
        words::wide8(c.rsvd_pds),
        words::wide16(c.num_sys_eqs),
        words::wide8(c.ports),
        words::wide8(c.log_max_qp_wqes),
        words::wide8(c.log_max_cqes),
        words::wide8(c.log_min_page),
        c.flags,
        words::wide32(c.flags2),
        words::wide32(c.bmme),
        words::bit_of(c.eth_prot_ctrl),
        words::bit_of(c.eth_backpl_an_rep),
        c.uar_bytes,
        c.max_icm,
        words::wide16(e[0]),
        words::wide16(e[1]),
        words::wide16(e[2]),
        words::wide16(e[3]),
        words::wide16(e[4]),
        words::wide16(e[5]),
        words::wide16(e[6]),
        words::wide16(e[7]),
        words::wide16(e[8]),
        words::wide16(e[9]),
        words::wide16(e[10]),
    ]
}

fn fw_code(k: FwRefusal) -> Code
    ensures { result ≡ code_of (query_fw (Err k)) }
{
    match k {
        FwRefusal::Short => Code {
            number: Code::SHORT,
            beside: 0,
        },
        FwRefusal::Revision(i) => Code {
            number: 11,
            beside: i.rev as u64,
        },
    }
}

fn fw_told(r: Result<FwInfo, FwRefusal>) -> Code
    ensures { result ≡ code_of (query_fw r) }
{
    match r {
        Ok(_) => Code::NONE,
        Err(k) => fw_code(k),
    }
}

// The fields, also where the revision is refused.
fn fw_beside(k: FwRefusal) -> FwInfo
    ensures { result ≡ fw_in (Err k) }
{
    match k {
        FwRefusal::Short => FwInfo::none(),
        FwRefusal::Revision(i) => i,
    }
}

fn fw_known(r: Result<FwInfo, FwRefusal>) -> FwInfo
    ensures { result ≡ fw_in r }
{
    match r {
        Ok(i) => i,
        Err(k) => fw_beside(k),
    }
}

pub fn fw_words(r: Result<FwInfo, FwRefusal>) -> [u64; 12]
    ensures { result ≡ fw_words (code_of (query_fw r)) (fw_in r) }
{
    let code = fw_told(r);
    let i = fw_known(r);
    [
        code.number,
        code.beside,
        words::wide16(i.pages),
        words::wide16(i.major),
        words::wide16(i.subminor),
        words::wide16(i.minor),
        words::wide8(i.ppf),
        words::wide16(i.rev),
        words::wide8(i.log_max_cmds),
        i.catas_offset,
        words::wide32(i.catas_size),
        words::wide8(i.catas_bar),
    ]
}

fn port_number(r: Result<PortInfo, Short>) -> u64
    ensures { result ≡ number_of (query_port r) }
{
    if r.is_ok() { Code::GOOD } else { Code::SHORT }
}

pub fn port_words(r: Result<PortInfo, Short>) -> [u64; 18]
    ensures { result ≡ port_words (number_of (query_port r)) (result_unwrap_or r no_port) }
{
    let i = r.unwrap_or(PortInfo::none());
    let m = i.mac;
    [
        port_number(r),
        words::wide8(i.num),
        words::bit_of(i.link_up),
        words::wide8(i.b0),
        words::wide16(i.mtu_cap),
        words::wide8(i.log_macs),
        words::wide8(m[0]),
        words::wide8(m[1]),
        words::wide8(m[2]),
        words::wide8(m[3]),
        words::wide8(m[4]),
        words::wide8(m[5]),
        words::bit_of(i.autoneg),
        words::bit_of(i.an_complete),
        words::wide8(i.speed),
        words::wide32(i.xcvr),
        words::wide16(i.wavelength),
        i.xcvr_code,
    ]
}

pub fn func_words(r: Result<FuncInfo, Short>) -> [u64; 4]
    ensures { result ≡ func_words (query_func r) }
{
    match r {
        Ok(i) => [0, i.rsvd_eqs as u64, i.max_eqs as u64, i.rsvd_uars as u64],
        Err(Short) => [21, 0, 0, 0],
    }
}
