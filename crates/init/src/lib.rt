// The mailboxes that bring-up fills field by field: INIT_HCA and MOD_STAT_CFG.
#![tactic(auto)]

ghost use Rattle.std.specs.Prelude.{◌≡◌, ◌||◌, ◌+◌, ◌≤◌, eqb, length};
ghost use Rattle.fields.specs.Outcome.{pick};
ghost use Rattle.reply.specs.Capability.{bit};
ghost use Rattle.fields.specs.Fields.{outcome};
ghost use Rattle.init.specs.Inner.{Within};
ghost use Rattle.init.specs.Init.{field, put_all, filled_by, fill_of, fields_of, flags_of, init_of, log_of, worth, mod_stat_cfg};

use fields::{Order, Short, Unsigned};
use layout::Table;
use reply::{DevCap, Kind};

// A field of a mailbox: a big-endian number.
#[derive(Clone, Copy)]
pub struct Field {
    pub offset: usize,
    pub width: usize,
    pub value: u64,
}

impl Field {
    pub fn new<N: Unsigned>(offset: usize, value: N) -> Self
        ensures { result ≡ field offset N.WIDTH (N.worth value) }
    {
        Self {
            offset,
            width: N::WIDTH,
            value: value.wide(),
        }
    }
}

// What INIT_HCA tells the card: where each table stands and how large it is, by exponents of two; and what is to be switched on.
#[derive(Clone, Copy)]
pub struct InitHca {
    pub flags: u32,
    pub qpc: u64,
    pub log_qps: u8,
    pub srqc: u64,
    pub log_srqs: u8,
    pub cqc: u64,
    pub log_cqs: u8,
    pub altc: u64,
    pub auxc: u64,
    pub eqc: u64,
    pub log_eqs: u8,
    pub num_sys_eqs: u16,
    pub rdmarc: u64,
    pub log_rdmarcs: u8,
    pub mcg: u64,
    pub log_mcg_entry: u8,
    pub log_mcg_hash: u8,
    pub steering: u8,
    pub log_mcgs: u8,
    pub dmpt: u64,
    pub windows: u8,
    pub log_mpts: u8,
    pub mtt: u64,
    pub cmpt: u64,
    pub log_uar_pages: u8,
}

impl InitHca {
    pub const MAILBOX: usize = 4096;

    // RDMA responder entries per QP, as an exponent.
    pub const LOG_RDMARC_PER_QP: u8 = 4;

    // The EQ exponent of a card with system EQs.
    pub const SYS_EQS: u8 = 0x1f;

    pub fn fields(self) -> [Field; 28]
        ensures { result ≡ fields_of self }
    {
        [
            Field::new(0x000, 2u8),
            Field::new(0x00e, 0x50_u8),
            Field::new(0x014, self.flags),
            Field::new(0x030, self.qpc),
            Field::new(0x037, self.log_qps),
            Field::new(0x048, self.srqc),
            Field::new(0x04f, self.log_srqs),
            Field::new(0x050, self.cqc),
            Field::new(0x057, self.log_cqs),
            Field::new(0x060, self.altc),
            Field::new(0x070, self.auxc),
            Field::new(0x080, self.eqc),
            Field::new(0x087, self.log_eqs),
            Field::new(0x08a, self.num_sys_eqs),
            Field::new(0x090, self.rdmarc),
            Field::new(0x097, self.log_rdmarcs),
            Field::new(0x0c0, self.mcg),
            Field::new(0x0d3, self.log_mcg_entry),
            Field::new(0x0d7, self.log_mcg_hash),
            Field::new(0x0d8, self.steering),
            Field::new(0x0db, self.log_mcgs),
            Field::new(0x0f0, self.dmpt),
            Field::new(0x0f8, self.windows),
            Field::new(0x0fb, self.log_mpts),
            Field::new(0x100, self.mtt),
            Field::new(0x108, self.cmpt),
            Field::new(0x12a, self.log_uar_pages),
            Field::new(0x12b, 0u8),
        ]
    }
}

// Writes the fields, each of which lies within the mailbox.
fn put_all(inbox: &mut [u8], f: &[Field])
    requires { Within (length inbox.old) f.now }
    ensures { inbox.new ≡ put_all inbox.old f.now }
{
    for field in f {
        let _ = fields::set_field(inbox, Order::Big, field.offset, field.width, field.value);
    }
}

// Fills a mailbox with these fields over zeros: all 4,096 bytes, or none where it has another length.
fn fill_with(inbox: &mut [u8], f: &[Field]) -> Result<(), Short>
    requires { Within 4096 f.now }
    ensures result_value { outcome result ≡ fill_of inbox.old }
    ensures inbox_after { inbox.new ≡ filled_by inbox.old f.now }
{
    if inbox.len() != InitHca::MAILBOX {
        return Err(Short);
    }
    fields::zero(inbox);
    put_all(inbox, f);
    Ok(())
}

// The INIT_HCA mailbox.
pub fn fill(inbox: &mut [u8], hca: InitHca) -> Result<(), Short>
    ensures result_value { outcome result ≡ fill_of inbox.old }
    ensures inbox_after { inbox.new ≡ filled_by inbox.old (fields_of hca) }
{
    fill_with(inbox, &hca.fields())
}

// The MOD_STAT_CFG mailbox: 4 KiB pages for the device.
pub fn mod_stat_cfg(inbox: &mut [u8]) -> Result<(), Short>
    ensures result_value { outcome result ≡ fill_of inbox.old }
    ensures inbox_after { inbox.new ≡ filled_by inbox.old mod_stat_cfg }
{
    fill_with(inbox, &[Field::new(0x02, 1u8), Field::new(0x03, 0u8)])
}

// Port checks for UD address vectors, and what the card can do beyond that.
fn flags(cap: DevCap) -> u32
    ensures { result ≡ flags_of cap }
{
    1 + u32::from(cap.flag(7)) * 8 + u32::from(cap.flag(48)) * 16 + u32::from(cap.flag(52)) * 8192
}

fn log(n: u64) -> u8
    ensures { result ≡ log_of n }
{
    layout::log2(n) as u8
}

// The EQ exponent: of the table, or the mark of a card with system EQs.
fn log_eqs(sys: u16, count: u64) -> u8
    ensures { result ≡ pick (eqb sys 0) (log_of count) 31 }
{
    if sys == 0 {
        log(count)
    } else {
        InitHca::SYS_EQS
    }
}

// Memory windows: by either of two capabilities.
fn has_windows(cap: DevCap) -> bool
    ensures { result ≡ bit 16 cap.flags || bit 9 cap.bmme }
{
    cap.flag(16) || cap.bmme / 512 % 2 == 1
}

// What INIT_HCA tells a card with these capabilities and these tables.
pub fn init_hca(cap: DevCap, rows: [Table; 11]) -> InitHca
    ensures { result ≡ init_of cap rows }
{
    let qpc = layout::find(rows, Kind::QPC);
    let srqc = layout::find(rows, Kind::SRQC);
    let cqc = layout::find(rows, Kind::CQC);
    let eqc = layout::find(rows, Kind::EQC);
    let mcg = layout::find(rows, Kind::MCG);
    let dmpt = layout::find(rows, Kind::DMPT);
    let log_mcgs = log(mcg.count);
    InitHca {
        flags: flags(cap),
        qpc: qpc.base,
        log_qps: log(qpc.count),
        srqc: srqc.base,
        log_srqs: log(srqc.count),
        cqc: cqc.base,
        log_cqs: log(cqc.count),
        altc: layout::find(rows, Kind::ALTC).base,
        auxc: layout::find(rows, Kind::AUXC).base,
        eqc: eqc.base,
        log_eqs: log_eqs(cap.num_sys_eqs, eqc.count),
        num_sys_eqs: cap.num_sys_eqs,
        rdmarc: layout::find(rows, Kind::RDMARC).base,
        log_rdmarcs: InitHca::LOG_RDMARC_PER_QP,
        mcg: mcg.base,
        log_mcg_entry: Kind::MCG_LOG_ENTRY,
        log_mcg_hash: log_mcgs.wrapping_sub(1),
        steering: u8::from(cap.b0()) * 8,
        log_mcgs,
        dmpt: dmpt.base,
        windows: u8::from(has_windows(cap)) * 0x80,
        log_mpts: log(dmpt.count),
        mtt: layout::find(rows, Kind::MTT).base,
        cmpt: layout::find(rows, Kind::CMPT).base,
        log_uar_pages: log(cap.uar_bytes / 4096),
    }
}
