// The task under way as words: its number, then what it carries; words that it does not need are 0.
#![tactic(auto)]

ghost use Rattle.std.specs.Prelude.{◌≡◌};
ghost use Rattle.words_task.specs.Coding.{fault_words, fault_of, catas_words, catas_of, phase_words, phase_of, cmd_words, cmd_of};
ghost use Rattle.words_task.specs.Coding.{attr_words, attr_of, claim_words, claim_of, make_phase_words, make_phase_of, making_words, making_of};
ghost use Rattle.words_task.specs.Coding.{free_phase_words, free_phase_of, freeing_words, freeing_of, parting_words, parting_of, task_words, task_of};

use buffer::{Fault, FreePhase, Freeing, MakePhase, Making};
use command::{Catas, Cmd, Phase};
use hcr::Post;
use tasks::{Attr, Claim, Parting};
use work::Task;

// Why there is no buffer.
pub fn fault_words(v: Fault) -> [u64; 1]
    ensures { result ≡ fault_words v }
{
    match v {
        Fault::Memory => [0],
        Fault::Address => [1],
    }
}

pub fn fault_from(tag: u64) -> Fault
    ensures { result ≡ fault_of tag }
{
    match tag {
        1 => Fault::Address,
        _ => Fault::Memory,
    }
}

// Where the catastrophic error buffer is.
pub fn catas_words(v: Catas) -> [u64; 3]
    ensures { result ≡ catas_words v }
{
    match v {
        Catas::Known(x, y) => [0, words::wide8(x), y],
        Catas::Unknown => [1, 0, 0],
    }
}

pub fn catas_from(tag: u64, a: u64, b: u64) -> Catas
    ensures { result ≡ catas_of tag a b }
{
    match tag {
        1 => Catas::Unknown,
        _ => Catas::Known(words::narrow8(a), b),
    }
}

// The open question of a command.
fn phase_words(v: Phase) -> [u64; 2]
    ensures { result ≡ phase_words v }
{
    match v {
        Phase::First => [0, 0],
        Phase::Writing(x) => [1, words::wide8(x)],
        Phase::Fence => [2, 0],
        Phase::Go => [3, 0],
        Phase::Poll => [4, 0],
        Phase::Wait => [5, 0],
        Phase::Fenced => [6, 0],
        Phase::Status => [7, 0],
        Phase::High => [8, 0],
        Phase::Low(x) => [9, words::wide32(x)],
        Phase::Catas => [10, 0],
    }
}

fn phase_from(tag: u64, a: u64) -> Phase
    ensures { result ≡ phase_of tag a }
{
    match tag {
        1 => Phase::Writing(words::narrow8(a)),
        2 => Phase::Fence,
        3 => Phase::Go,
        4 => Phase::Poll,
        5 => Phase::Wait,
        6 => Phase::Fenced,
        7 => Phase::Status,
        8 => Phase::High,
        9 => Phase::Low(words::narrow32(a)),
        10 => Phase::Catas,
        _ => Phase::First,
    }
}

// A command, with the number of its task.
fn cmd_words(v: Cmd) -> [u64; words::TASK]
    ensures { result ≡ cmd_words v }
{
    let phase = v.phase;
    let phase_w = phase_words(phase);
    let post = v.post;
    let catas = v.catas;
    let catas_w = catas_words(catas);
    [
        8,
        phase_w[0],
        phase_w[1],
        words::wide16(post.op),
        words::wide8(post.op_mod),
        words::wide32(post.in_mod),
        post.in_param,
        post.out_param,
        words::bit(v.toggle),
        words::wide32(v.stalls),
        catas_w[0],
        catas_w[1],
        catas_w[2],
    ]
}

fn cmd_from(w: [u64; words::TASK]) -> Cmd
    ensures { result ≡ cmd_of w }
{
    Cmd {
        phase: phase_from(w[1], w[2]),
        post: Post {
            op: words::narrow16(w[3]),
            op_mod: words::narrow8(w[4]),
            in_mod: words::narrow32(w[5]),
            in_param: w[6],
            out_param: w[7],
        },
        toggle: words::flag(w[8]),
        stalls: words::narrow32(w[9]),
        catas: catas_from(w[10], w[11], w[12]),
    }
}

// The attributes.
fn attr_words(v: Attr) -> [u64; 3]
    ensures { result ≡ attr_words v }
{
    match v {
        Attr::Get => [0, 0, 0],
        Attr::Supported(x) => [1, x, 0],
        Attr::Enable(x, y) => [2, x, y],
    }
}

fn attr_from(tag: u64, a: u64, b: u64) -> Attr
    ensures { result ≡ attr_of tag a b }
{
    match tag {
        1 => Attr::Supported(a),
        2 => Attr::Enable(a, b),
        _ => Attr::Get,
    }
}

// A claim.
fn claim_words(v: Claim) -> [u64; 2]
    ensures { result ≡ claim_words v }
{
    match v {
        Claim::Command => [0, 0],
        Claim::Write(x) => [1, words::wide16(x)],
        Claim::Owner => [2, 0],
    }
}

fn claim_from(tag: u64, a: u64) -> Claim
    ensures { result ≡ claim_of tag a }
{
    match tag {
        1 => Claim::Write(words::narrow16(a)),
        2 => Claim::Owner,
        _ => Claim::Command,
    }
}

// A buffer that is being made.
fn make_phase_words(v: MakePhase) -> [u64; 3]
    ensures { result ≡ make_phase_words v }
{
    match v {
        MakePhase::Allocate => [0, 0, 0],
        MakePhase::Map(x) => [1, x, 0],
        MakePhase::Unmap(x, y) => {
            let yw = fault_words(y);
            [2, x, yw[0]]
        }
        MakePhase::Free(x, y) => {
            let yw = fault_words(y);
            [3, x, yw[0]]
        }
    }
}

fn make_phase_from(tag: u64, a: u64, b: u64) -> MakePhase
    ensures { result ≡ make_phase_of tag a b }
{
    match tag {
        1 => MakePhase::Map(a),
        2 => MakePhase::Unmap(a, fault_from(b)),
        3 => MakePhase::Free(a, fault_from(b)),
        _ => MakePhase::Allocate,
    }
}

fn making_words(v: Making) -> [u64; 4]
    ensures { result ≡ making_words v }
{
    let phase = v.phase;
    let phase_w = make_phase_words(phase);
    [v.bytes, phase_w[0], phase_w[1], phase_w[2]]
}

fn making_from(a: u64, b: u64, d: u64, e: u64) -> Making
    ensures { result ≡ making_of a b d e }
{
    Making {
        bytes: a,
        phase: make_phase_from(b, d, e),
    }
}

// A buffer that is being freed.
fn free_phase_words(v: FreePhase) -> [u64; 1]
    ensures { result ≡ free_phase_words v }
{
    match v {
        FreePhase::Unmap => [0],
        FreePhase::Free => [1],
    }
}

fn free_phase_from(tag: u64) -> FreePhase
    ensures { result ≡ free_phase_of tag }
{
    match tag {
        1 => FreePhase::Free,
        _ => FreePhase::Unmap,
    }
}

fn freeing_words(v: Freeing) -> [u64; 3]
    ensures { result ≡ freeing_words v }
{
    let phase = v.phase;
    let phase_w = free_phase_words(phase);
    [v.handle, v.pages, phase_w[0]]
}

fn freeing_from(a: u64, b: u64, d: u64) -> Freeing
    ensures { result ≡ freeing_of a b d }
{
    Freeing {
        handle: a,
        pages: b,
        phase: free_phase_from(d),
    }
}

// A parting.
fn parting_words(v: Parting) -> [u64; 2]
    ensures { result ≡ parting_words v }
{
    match v {
        Parting::Disown => [0, 0],
        Parting::Settle => [1, 0],
        Parting::Restore(x) => [2, x],
        Parting::Owner => [3, 0],
        Parting::Command => [4, 0],
        Parting::Write(x) => [5, words::wide16(x)],
    }
}

fn parting_from(tag: u64, a: u64) -> Parting
    ensures { result ≡ parting_of tag a }
{
    match tag {
        1 => Parting::Settle,
        2 => Parting::Restore(a),
        3 => Parting::Owner,
        4 => Parting::Command,
        5 => Parting::Write(words::narrow16(a)),
        _ => Parting::Disown,
    }
}

// The task under way: its number, and what it carries. A command is looked for first, since it is polled.
pub fn task_words(v: Task) -> [u64; words::TASK]
    ensures { result ≡ task_words v }
{
    match v {
        Task::Rest => [0, 0, 0, 0, 0, 0, 0, 0, 0, 0, 0, 0, 0],
        Task::Attr(x) => {
            let w = attr_words(x);
            [1, w[0], w[1], w[2], 0, 0, 0, 0, 0, 0, 0, 0, 0]
        }
        Task::Claim(x) => {
            let w = claim_words(x);
            [2, w[0], w[1], 0, 0, 0, 0, 0, 0, 0, 0, 0, 0]
        }
        Task::Reset => [3, 0, 0, 0, 0, 0, 0, 0, 0, 0, 0, 0, 0],
        Task::Bar => [4, 0, 0, 0, 0, 0, 0, 0, 0, 0, 0, 0, 0],
        Task::Make(x) => {
            let w = making_words(x);
            [5, w[0], w[1], w[2], w[3], 0, 0, 0, 0, 0, 0, 0, 0]
        }
        Task::Free(x) => {
            let w = freeing_words(x);
            [6, w[0], w[1], w[2], 0, 0, 0, 0, 0, 0, 0, 0, 0]
        }
        Task::Look => [7, 0, 0, 0, 0, 0, 0, 0, 0, 0, 0, 0, 0],
        Task::Cmd(x) => cmd_words(x),
        Task::Part(x) => {
            let w = parting_words(x);
            [9, w[0], w[1], 0, 0, 0, 0, 0, 0, 0, 0, 0, 0]
        }
    }
}

pub fn task_from(w: [u64; words::TASK]) -> Task
    ensures { result ≡ task_of w }
{
    let tag = w[0];
    match tag {
        8 => Task::Cmd(cmd_from(w)),
        1 => Task::Attr(attr_from(w[1], w[2], w[3])),
        2 => Task::Claim(claim_from(w[1], w[2])),
        3 => Task::Reset,
        4 => Task::Bar,
        5 => Task::Make(making_from(w[1], w[2], w[3], w[4])),
        6 => Task::Free(freeing_from(w[1], w[2], w[3])),
        7 => Task::Look,
        9 => Task::Part(parting_from(w[1], w[2])),
        _ => Task::Rest,
    }
}
