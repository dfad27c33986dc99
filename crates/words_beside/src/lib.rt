// What stands beside the task: a reset, and a search for the UAR BAR, as words.
#![tactic(auto)]

ghost use Rattle.std.specs.Prelude.{◌≡◌};
ghost use Rattle.words_beside.specs.Coding.{reset_phase_words, reset_phase_of, control_words, control_of, reset_words, reset_of, range_words, range_of};
ghost use Rattle.words_beside.specs.Coding.{candidate_words, candidate_of, asking_words, asking_of, choice_words, choice_of, bar_phase_words, bar_phase_of};
ghost use Rattle.words_beside.specs.Coding.{find_words, find_of};

use bars::{Asking, BarRange, Candidate, Choice};
use reset::{Control, Phase, Reset};
use uar::{BarPhase, FindBar};

// The open question of a reset.
fn reset_phase_words(v: Phase) -> [u64; 4]
    ensures { result ≡ reset_phase_words v }
{
    match v {
        Phase::Saving(x) => [0, words::wide8(x), 0, 0],
        Phase::Pointer => [1, 0, 0, 0],
        Phase::Header(x, y) => [2, words::wide8(x), words::wide8(y), 0],
        Phase::Device(x) => [3, words::wide8(x), 0, 0],
        Phase::Link(x, y) => [4, words::wide8(x), words::wide16(y), 0],
        Phase::Semaphore(x) => [5, words::wide16(x), 0, 0],
        Phase::Hold(x) => [6, words::wide16(x), 0, 0],
        Phase::Writing => [7, 0, 0, 0],
        Phase::Settle => [8, 0, 0, 0],
        Phase::Vendor(x) => [9, words::wide16(x), 0, 0],
        Phase::Gone(x) => [10, words::wide16(x), 0, 0],
        Phase::BackDevice(x, y, z) => [11, words::wide8(x), words::wide16(y), words::wide16(z)],
        Phase::BackLink(x, y) => [12, words::wide8(x), words::wide16(y), 0],
        Phase::Back(x) => [13, words::wide8(x), 0, 0],
    }
}

fn reset_phase_from(tag: u64, a: u64, b: u64, d: u64) -> Phase
    ensures { result ≡ reset_phase_of tag a b d }
{
    match tag {
        1 => Phase::Pointer,
        2 => Phase::Header(words::narrow8(a), words::narrow8(b)),
        3 => Phase::Device(words::narrow8(a)),
        4 => Phase::Link(words::narrow8(a), words::narrow16(b)),
        5 => Phase::Semaphore(words::narrow16(a)),
        6 => Phase::Hold(words::narrow16(a)),
        7 => Phase::Writing,
        8 => Phase::Settle,
        9 => Phase::Vendor(words::narrow16(a)),
        10 => Phase::Gone(words::narrow16(a)),
        11 => Phase::BackDevice(words::narrow8(a), words::narrow16(b), words::narrow16(d)),
        12 => Phase::BackLink(words::narrow8(a), words::narrow16(b)),
        13 => Phase::Back(words::narrow8(a)),
        _ => Phase::Saving(words::narrow8(a)),
    }
}

// The control words.
fn control_words(v: Control) -> [u64; 4]
    ensures { result ≡ control_words v }
{
    match v {
        Control::Absent => [0, 0, 0, 0],
        Control::Saved(x, y, z) => [1, words::wide8(x), words::wide16(y), words::wide16(z)],
    }
}

fn control_from(tag: u64, a: u64, b: u64, d: u64) -> Control
    ensures { result ≡ control_of tag a b d }
{
    match tag {
        1 => Control::Saved(words::narrow8(a), words::narrow16(b), words::narrow16(d)),
        _ => Control::Absent,
    }
}

// A reset: its open question, the control words, and the saved dwords.
pub fn reset_words(v: Reset) -> [u64; words::RESET]
    ensures { result ≡ reset_words v }
{
    let phase = v.phase;
    let phase_w = reset_phase_words(phase);
    let control = v.control;
    let control_w = control_words(control);
    let dwords = v.dwords;
    [
        phase_w[0],
        phase_w[1],
        phase_w[2],
        phase_w[3],
        control_w[0],
        control_w[1],
        control_w[2],
        control_w[3],
        words::wide32(dwords[0]),
        words::wide32(dwords[1]),
        words::wide32(dwords[2]),
        words::wide32(dwords[3]),
        words::wide32(dwords[4]),
        words::wide32(dwords[5]),
        words::wide32(dwords[6]),
        words::wide32(dwords[7]),
        words::wide32(dwords[8]),
        words::wide32(dwords[9]),
        words::wide32(dwords[10]),
        words::wide32(dwords[11]),
        words::wide32(dwords[12]),
        words::wide32(dwords[13]),
        words::wide32(dwords[14]),
        words::wide32(dwords[15]),
    ]
}

pub fn reset_from(w: [u64; words::RESET]) -> Reset
    ensures { result ≡ reset_of w }
{
    Reset {
        phase: reset_phase_from(w[0], w[1], w[2], w[3]),
        control: control_from(w[4], w[5], w[6], w[7]),
        dwords: [
            words::narrow32(w[8]),
            words::narrow32(w[9]),
            words::narrow32(w[10]),
            words::narrow32(w[11]),
            words::narrow32(w[12]),
            words::narrow32(w[13]),
            words::narrow32(w[14]),
            words::narrow32(w[15]),
            words::narrow32(w[16]),
            words::narrow32(w[17]),
            words::narrow32(w[18]),
            words::narrow32(w[19]),
            words::narrow32(w[20]),
            words::narrow32(w[21]),
            words::narrow32(w[22]),
            words::narrow32(w[23]),
        ],
    }
}

// What was said about an index.
fn range_words(v: Option<BarRange>) -> [u64; 3]
    ensures { result ≡ range_words v }
{
    match v {
        Some(r) => [0, r.base, r.length],
        None => [1, 0, 0],
    }
}

fn range_from(tag: u64, a: u64, b: u64) -> Option<BarRange>
    ensures { result ≡ range_of tag a b }
{
    match tag {
        1 => None,
        _ => Some(BarRange { base: a, length: b }),
    }
}

fn candidate_words(v: Candidate) -> [u64; 4]
    ensures { result ≡ candidate_words v }
{
    let answer = v.answer;
    let answer_w = range_words(answer);
    [words::wide8(v.index), answer_w[0], answer_w[1], answer_w[2]]
}

fn candidate_from(a: u64, b: u64, d: u64, e: u64) -> Candidate
    ensures { result ≡ candidate_of a b d e }
{
    Candidate {
        index: words::narrow8(a),
        answer: range_from(b, d, e),
    }
}

// The open question of a choice.
fn asking_words(v: Asking) -> [u64; 2]
    ensures { result ≡ asking_words v }
{
    match v {
        Asking::First => [0, 0],
        Asking::Second => [1, 0],
        Asking::Other(x) => [2, words::wide8(x)],
    }
}

fn asking_from(tag: u64, a: u64) -> Asking
    ensures { result ≡ asking_of tag a }
{
    match tag {
        1 => Asking::Second,
        2 => Asking::Other(words::narrow8(a)),
        _ => Asking::First,
    }
}

fn choice_words(v: Choice) -> [u64; 11]
    ensures { result ≡ choice_words v }
{
    let first = v.first;
    let first_w = candidate_words(first);
    let second = v.second;
    let second_w = candidate_words(second);
    let asking = v.asking;
    let asking_w = asking_words(asking);
    [
        v.base,
        first_w[0],
        first_w[1],
        first_w[2],
        first_w[3],
        second_w[0],
        second_w[1],
        second_w[2],
        second_w[3],
        asking_w[0],
        asking_w[1],
    ]
}

fn choice_from(
    a: u64,
    b: u64,
    d: u64,
    e: u64,
    f: u64,
    g: u64,
    h: u64,
    i: u64,
    j: u64,
    k: u64,
    l: u64,
) -> Choice
    ensures { result ≡ choice_of a b d e f g h i j k l }
{
    Choice {
        base: a,
        first: candidate_from(b, d, e, f),
        second: candidate_from(g, h, i, j),
        asking: asking_from(k, l),
    }
}

// The open question of a search.
fn bar_phase_words(v: BarPhase) -> [u64; 12]
    ensures { result ≡ bar_phase_words v }
{
    match v {
        BarPhase::Reading(x) => [0, words::wide8(x), 0, 0, 0, 0, 0, 0, 0, 0, 0, 0],
        BarPhase::Choosing(x) => {
            let w = choice_words(x);
            [
                1, w[0], w[1], w[2], w[3], w[4], w[5], w[6], w[7], w[8], w[9], w[10],
            ]
        }
    }
}

fn bar_phase_from(
    tag: u64,
    a: u64,
    b: u64,
    d: u64,
    e: u64,
    f: u64,
    g: u64,
    h: u64,
    i: u64,
    j: u64,
    k: u64,
    l: u64,
) -> BarPhase
    ensures { result ≡ bar_phase_of tag a b d e f g h i j k l }
{
    match tag {
        1 => BarPhase::Choosing(choice_from(a, b, d, e, f, g, h, i, j, k, l)),
        _ => BarPhase::Reading(words::narrow8(a)),
    }
}

// A search for the UAR BAR: its open question, and the dwords that were read.
pub fn find_words(v: FindBar) -> [u64; words::FIND]
    ensures { result ≡ find_words v }
{
    let phase = v.phase;
    let phase_w = bar_phase_words(phase);
    let dwords = v.dwords;
    [
        phase_w[0],
        phase_w[1],
        phase_w[2],
        phase_w[3],
        phase_w[4],
        phase_w[5],
        phase_w[6],
        phase_w[7],
        phase_w[8],
        phase_w[9],
        phase_w[10],
        phase_w[11],
        words::wide32(dwords[0]),
        words::wide32(dwords[1]),
        words::wide32(dwords[2]),
        words::wide32(dwords[3]),
        words::wide32(dwords[4]),
        words::wide32(dwords[5]),
    ]
}

pub fn find_from(w: [u64; words::FIND]) -> FindBar
    ensures { result ≡ find_of w }
{
    FindBar {
        phase: bar_phase_from(
            w[0], w[1], w[2], w[3], w[4], w[5], w[6], w[7], w[8], w[9], w[10], w[11],
        ),
        dwords: [
            words::narrow32(w[12]),
            words::narrow32(w[13]),
            words::narrow32(w[14]),
            words::narrow32(w[15]),
            words::narrow32(w[16]),
            words::narrow32(w[17]),
        ],
    }
}
