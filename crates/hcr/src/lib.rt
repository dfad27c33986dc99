// The command register, as words: what is written to post a command, and what its status says.
#![tactic(auto)]

ghost use Rattle.std.specs.Prelude.{◌≡◌, ◌<◌};
ghost use Rattle.hcr.specs.Words.{pending_in, status_in, first_toggle, go_word, swap_of, writes_of, stall_of, waited_of, is_reserved, write};

// The command register's place, its bits, and the limit of a wait.
#[derive(Clone, Copy)]
pub struct Hcr {
    // The T value that the next command is posted with.
    pub toggle: bool,
}

impl Hcr {
    pub const BAR: u8 = 0;

    pub const BASE: u64 = 0x80680;

    pub const TOKEN: u32 = 0xffff_0000;

    pub const GO: u32 = 0x80_0000;

    pub const T: u32 = 0x20_0000;

    pub const TIMEOUT_US: u64 = 60_000_000;

    // How many stalls are of 1 µs; those after them are of 100 µs.
    pub const SHORT_STALLS: u32 = 1000;

    // QUERY_FW's status on a function that is not the primary one.
    pub const STATUS_MULTI_FUNC: u8 = 0x50;
}

// The commands of bring-up and closing.
#[derive(Clone, Copy)]
pub struct Op {
    pub code: u16,
}

impl Op {
    pub const QUERY_DEV_CAP: u16 = 0x003;

    pub const QUERY_FW: u16 = 0x004;

    pub const QUERY_ADAPTER: u16 = 0x006;

    pub const INIT_HCA: u16 = 0x007;

    pub const CLOSE_HCA: u16 = 0x008;

    pub const MOD_STAT_CFG: u16 = 0x034;

    pub const QUERY_PORT: u16 = 0x043;

    pub const QUERY_FUNC: u16 = 0x056;

    pub const RUN_FW: u16 = 0xff6;

    pub const UNMAP_ICM: u16 = 0xff9;

    pub const MAP_ICM: u16 = 0xffa;

    pub const UNMAP_ICM_AUX: u16 = 0xffb;

    pub const MAP_ICM_AUX: u16 = 0xffc;

    pub const SET_ICM_SIZE: u16 = 0xffd;

    pub const UNMAP_FA: u16 = 0xffe;

    pub const MAP_FA: u16 = 0xfff;

    // An opcode has twelve bits.
    pub const LAST: u16 = 0xfff;
}

// A command as it is posted: opcode and modifier, input modifier, input and output parameter.
#[derive(Clone, Copy)]
pub struct Post {
    pub op: u16,
    pub op_mod: u8,
    pub in_mod: u32,
    pub in_param: u64,
    pub out_param: u64,
}

// A write to a register of BAR 0, with the value as the bus carries it.
#[derive(Clone, Copy)]
pub struct RegWrite {
    pub offset: u64,
    pub value: u32,
}

// A command is still being executed, or its end has not been shown: GO, or T equal to the toggle.
pub fn pending(status: u32, toggle: bool) -> bool
    ensures { result ≡ pending_in status toggle }
{
    status & Hcr::GO != 0 || (status & Hcr::T != 0) == toggle
}

// The status of a command that has ended: the top byte of its status dword.
pub fn status(dword: u32) -> u8
    ensures { result ≡ status_in dword }
{
    (dword >> 24) as u8
}

// The toggle after a reset, from the status dword: the opposite of T, or 1 where GO is set.
pub fn first_toggle(status: u32) -> bool
    ensures { result ≡ first_toggle status }
{
    status & Hcr::GO != 0 || status & Hcr::T == 0
}

// The dword that posts a command.
pub fn go_word(toggle: bool, modifier: u8, op: u16) -> u32
    ensures { result ≡ go_word toggle modifier op }
{
    Hcr::GO + u32::from(toggle) * Hcr::T + u32::from(modifier) * 4096 + u32::from(op % 4096)
}

// A dword with its four bytes in the other order.
pub fn swap(x: u32) -> u32
    ensures { result ≡ swap_of x }
{
    x.swap_bytes()
}

impl RegWrite {
    fn new(offset: u64, value: u32) -> Self
        requires { offset < 256 }
        ensures { result ≡ write offset value }
    {
        Self {
            offset: Hcr::BASE + offset,
            value: swap(value),
        }
    }
}

// The seven writes of a command, in their order.
pub fn writes(toggle: bool, post: Post) -> [RegWrite; 7]
    ensures { result ≡ writes_of toggle post }
{
    let input = post.in_param;
    let output = post.out_param;
    [
        RegWrite::new(0x00, (input / 0x1_0000_0000) as u32),
        RegWrite::new(0x04, (input % 0x1_0000_0000) as u32),
        RegWrite::new(0x08, post.in_mod),
        RegWrite::new(0x0c, (output / 0x1_0000_0000) as u32),
        RegWrite::new(0x10, (output % 0x1_0000_0000) as u32),
        RegWrite::new(0x14, Hcr::TOKEN),
        RegWrite::new(0x18, go_word(toggle, post.op_mod, post.op)),
    ]
}

// How long stall number n is, counted from 0.
pub fn stall(n: u32) -> u32
    ensures { result ≡ stall_of n }
{
    if n < Hcr::SHORT_STALLS {
        return 1;
    }
    100
}

// The first n stalls together.
pub fn waited(n: u32) -> u64
    ensures { result ≡ waited_of n }
{
    let stalls = n as u64;
    if n < Hcr::SHORT_STALLS {
        return stalls;
    }
    1000 + (stalls - 1000) * 100
}

// The opcodes that only bring-up and closing may send.
pub const RESERVED: [u16; 11] = [
    Op::INIT_HCA,
    Op::CLOSE_HCA,
    Op::MOD_STAT_CFG,
    Op::RUN_FW,
    Op::UNMAP_ICM,
    Op::MAP_ICM,
    Op::UNMAP_ICM_AUX,
    Op::MAP_ICM_AUX,
    Op::SET_ICM_SIZE,
    Op::UNMAP_FA,
    Op::MAP_FA,
];

// An opcode that a client may not send: one of those, or none at all.
pub fn reserved(op: u16) -> bool
    ensures { result ≡ is_reserved op }
{
    Op::LAST < op || RESERVED.contains(&op)
}
