// How far a session has come, as words: its number in the order of the enum, then what it carries; words that it does not need are 0.
#![tactic(auto)]

ghost use Rattle.std.specs.Prelude.{◌≡◌};
ghost use Rattle.words_stage.specs.Coding.{virt_words, virt_of, cutter_words, cutter_of, area_words, area_of, prepare_words, prepare_of};
ghost use Rattle.words_stage.specs.Coding.{boot_words, boot_of, close_words, close_of, form_words, form_of, client_words, client_of, gave_words, gave_of};
ghost use Rattle.words_stage.specs.Coding.{stage_words, stage_of};

use dma::Cutter;
use session::{Area, Boot, Client, Close, Form, Gave, Prepare, Stage};

// A card address, or none.
fn virt_words(v: Option<u64>) -> [u64; 2]
    ensures { result ≡ virt_words v }
{
    match v {
        Some(x) => [0, x],
        None => [1, 0],
    }
}

fn virt_from(tag: u64, a: u64) -> Option<u64>
    ensures { result ≡ virt_of tag a }
{
    match tag {
        1 => None,
        _ => Some(a),
    }
}

// A range that is still to be cut.
fn cutter_words(v: Cutter) -> [u64; 4]
    ensures { result ≡ cutter_words v }
{
    let w = virt_words(v.virt);
    [w[0], w[1], v.phys, v.left]
}

fn cutter_from(a: u64, b: u64, d: u64, e: u64) -> Cutter
    ensures { result ≡ cutter_of a b d e }
{
    Cutter {
        virt: virt_from(a, b),
        phys: d,
        left: e,
    }
}

// What a buffer is for.
fn area_words(v: Area) -> [u64; 2]
    ensures { result ≡ area_words v }
{
    match v {
        Area::Fa => [0, 0],
        Area::Aux => [1, 0],
        Area::Range(x) => [2, words::long(x)],
    }
}

fn area_from(tag: u64, a: u64) -> Area
    ensures { result ≡ area_of tag a }
{
    match tag {
        1 => Area::Aux,
        2 => Area::Range(words::size(a)),
        _ => Area::Fa,
    }
}

// What a task is for, before the first command.
fn prepare_words(v: Prepare) -> [u64; 1]
    ensures { result ≡ prepare_words v }
{
    match v {
        Prepare::Attributes => [0],
        Prepare::Claim => [1],
        Prepare::Reset => [2],
        Prepare::Bar => [3],
        Prepare::Inbox => [4],
        Prepare::Outbox => [5],
        Prepare::Look => [6],
    }
}

fn prepare_from(tag: u64) -> Prepare
    ensures { result ≡ prepare_of tag }
{
    match tag {
        1 => Prepare::Claim,
        2 => Prepare::Reset,
        3 => Prepare::Bar,
        4 => Prepare::Inbox,
        5 => Prepare::Outbox,
        6 => Prepare::Look,
        _ => Prepare::Attributes,
    }
}

// What a task is for, in bring-up.
fn boot_words(v: Boot) -> [u64; 7]
    ensures { result ≡ boot_words v }
{
    match v {
        Boot::QueryFw => [0, 0, 0, 0, 0, 0, 0],
        Boot::Make(x) => {
            let w = area_words(x);
            [1, w[0], w[1], 0, 0, 0, 0]
        }
        Boot::Map(x, y) => {
            let xw = area_words(x);
            let yw = cutter_words(y);
            [2, xw[0], xw[1], yw[0], yw[1], yw[2], yw[3]]
        }
        Boot::RunFw => [3, 0, 0, 0, 0, 0, 0],
        Boot::ModStat => [4, 0, 0, 0, 0, 0, 0],
        Boot::DevCap => [5, 0, 0, 0, 0, 0, 0],
        Boot::Port(x) => [6, words::wide8(x), 0, 0, 0, 0, 0],
        Boot::IcmSize => [7, 0, 0, 0, 0, 0, 0],
        Boot::InitHca => [8, 0, 0, 0, 0, 0, 0],
        Boot::Func => [9, 0, 0, 0, 0, 0, 0],
        Boot::Adapter => [10, 0, 0, 0, 0, 0, 0],
    }
}

fn boot_from(tag: u64, a: u64, b: u64, d: u64, e: u64, f: u64, g: u64) -> Boot
    ensures { result ≡ boot_of tag a b d e f g }
{
    match tag {
        1 => Boot::Make(area_from(a, b)),
        2 => Boot::Map(area_from(a, b), cutter_from(d, e, f, g)),
        3 => Boot::RunFw,
        4 => Boot::ModStat,
        5 => Boot::DevCap,
        6 => Boot::Port(words::narrow8(a)),
        7 => Boot::IcmSize,
        8 => Boot::InitHca,
        9 => Boot::Func,
        10 => Boot::Adapter,
        _ => Boot::QueryFw,
    }
}

// What a task is for, in a closing.
fn close_words(v: Close) -> [u64; 2]
    ensures { result ≡ close_words v }
{
    match v {
        Close::Undo(x) => [0, words::wide32(x)],
        Close::CloseHca => [1, 0],
        Close::Unmap(x) => [2, words::long(x)],
        Close::UnmapAux => [3, 0],
        Close::UnmapFa => [4, 0],
        Close::Quiesce => [5, 0],
        Close::Reset => [6, 0],
        Close::Free(x) => [7, words::long(x)],
        Close::Release => [8, 0],
        Close::Restore => [9, 0],
    }
}

fn close_from(tag: u64, a: u64) -> Close
    ensures { result ≡ close_of tag a }
{
    match tag {
        1 => Close::CloseHca,
        2 => Close::Unmap(words::size(a)),
        3 => Close::UnmapAux,
        4 => Close::UnmapFa,
        5 => Close::Quiesce,
        6 => Close::Reset,
        7 => Close::Free(words::size(a)),
        8 => Close::Release,
        9 => Close::Restore,
        _ => Close::Undo(words::narrow32(a)),
    }
}

// The form of a client's command.
fn form_words(v: Form) -> [u64; 1]
    ensures { result ≡ form_words v }
{
    match v {
        Form::Imm => [0],
        Form::WithIn => [1],
        Form::WithOut => [2],
        Form::InImm => [3],
        Form::InOut => [4],
    }
}

fn form_from(tag: u64) -> Form
    ensures { result ≡ form_of tag }
{
    match tag {
        1 => Form::WithIn,
        2 => Form::WithOut,
        3 => Form::InImm,
        4 => Form::InOut,
        _ => Form::Imm,
    }
}

// What a task is for, in a client's call.
fn client_words(v: Client) -> [u64; 3]
    ensures { result ≡ client_words v }
{
    match v {
        Client::Command(x) => {
            let w = form_words(x);
            [0, w[0], 0]
        }
        Client::Lend(x) => [1, words::long(x), 0],
        Client::UndoTo(x, y) => [2, words::long(x), words::wide32(y)],
    }
}

fn client_from(tag: u64, a: u64, b: u64) -> Client
    ensures { result ≡ client_of tag a b }
{
    match tag {
        1 => Client::Lend(words::size(a)),
        2 => Client::UndoTo(words::size(a), words::narrow32(b)),
        _ => Client::Command(form_from(a)),
    }
}

// What the last call on an open session gave.
fn gave_words(v: Gave) -> [u64; 4]
    ensures { result ≡ gave_words v }
{
    match v {
        Gave::Nothing => [0, 0, 0, 0],
        Gave::Command(x, y) => [1, x, y, 0],
        Gave::Lent(x) => [2, words::long(x), 0, 0],
        Gave::Failed(x) => {
            let w = words_books::refusal_words(x);
            [3, w[0], w[1], w[2]]
        }
    }
}

fn gave_from(tag: u64, a: u64, b: u64, d: u64) -> Gave
    ensures { result ≡ gave_of tag a b d }
{
    match tag {
        1 => Gave::Command(a, b),
        2 => Gave::Lent(words::size(a)),
        3 => Gave::Failed(words_books::refusal_from(a, b, d)),
        _ => Gave::Nothing,
    }
}

// How far the session has come.
pub fn stage_words(v: Stage) -> [u64; words::STAGE]
    ensures { result ≡ stage_words v }
{
    match v {
        Stage::Fresh => [0, 0, 0, 0, 0, 0, 0, 0],
        Stage::Open(x) => {
            let w = gave_words(x);
            [1, w[0], w[1], w[2], w[3], 0, 0, 0]
        }
        Stage::Ended => [2, 0, 0, 0, 0, 0, 0, 0],
        Stage::Prepare(x) => {
            let w = prepare_words(x);
            [3, w[0], 0, 0, 0, 0, 0, 0]
        }
        Stage::Boot(x) => {
            let w = boot_words(x);
            [4, w[0], w[1], w[2], w[3], w[4], w[5], w[6]]
        }
        Stage::Client(x) => {
            let w = client_words(x);
            [5, w[0], w[1], w[2], 0, 0, 0, 0]
        }
        Stage::Close(x) => {
            let w = close_words(x);
            [6, w[0], w[1], 0, 0, 0, 0, 0]
        }
    }
}

pub fn stage_from(w: [u64; words::STAGE]) -> Stage
    ensures { result ≡ stage_of w }
{
    let tag = w[0];
    match tag {
        1 => Stage::Open(gave_from(w[1], w[2], w[3], w[4])),
        2 => Stage::Ended,
        3 => Stage::Prepare(prepare_from(w[1])),
        4 => Stage::Boot(boot_from(w[1], w[2], w[3], w[4], w[5], w[6], w[7])),
        5 => Stage::Client(client_from(w[1], w[2], w[3])),
        6 => Stage::Close(close_from(w[1], w[2])),
        _ => Stage::Fresh,
    }
}
