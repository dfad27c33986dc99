// The leaves 15 to 18: base, candidates, choice, resource descriptor.
use crate::words;
use bars::{BarRange, Choice, Next, Pick};

pub(crate) const END: usize = 19;

pub(crate) fn answer(leaf: usize, args: &[u8], bytes: &[u8], out: &mut [u8]) -> bool {
    match leaf {
        15 => base(args, out),
        16 => candidates(args, out),
        17 => choose(args, out),
        _ => {
            leaves::bar::leaf_resource(bytes, out);
        }
    }
    true
}

fn base(args: &[u8], out: &mut [u8]) {
    let d = registers(args);
    leaves::bar::leaf_base(
        d[0],
        d[1],
        d[2],
        d[3],
        d[4],
        d[5],
        words::place(args, 6),
        out,
    );
}

fn candidates(args: &[u8], out: &mut [u8]) {
    let d = registers(args);
    leaves::bar::leaf_candidates(
        d[0],
        d[1],
        d[2],
        d[3],
        d[4],
        d[5],
        words::place(args, 6),
        out,
    );
}

fn registers(args: &[u8]) -> [u32; 6] {
    [
        words::low32(args, 0),
        words::low32(args, 1),
        words::low32(args, 2),
        words::low32(args, 3),
        words::low32(args, 4),
        words::low32(args, 5),
    ]
}

// The refusal's number, 0 where there is none; the pick; then the indices asked, in order.
fn choose(args: &[u8], out: &mut [u8]) {
    match bars::choose(registers(args), words::place(args, 6)) {
        Ok((index, c)) => ask(args, index, c, out),
        Err(_) => words::put(out, 0, 4),
    }
}

// Every question is answered from the stored answers; there are no more than six.
fn ask(args: &[u8], first: u8, start: Choice, out: &mut [u8]) {
    let mut index = first;
    let mut c = start;
    for n in 5..16 {
        words::put(out, n, answers::words::wide8(index));
        match bars::step(c, stored(args, index)) {
            Next::Ask(i, next) => {
                index = i;
                c = next;
            }
            Next::Picked(p) => {
                put_pick(out, p);
                return;
            }
        }
    }
}

// What is stored for an index: whether it is known, its base and its length.
fn stored(args: &[u8], index: u8) -> Option<BarRange> {
    if 5 < index {
        return None;
    }
    let k = 7 + 3 * (index as usize);
    if words::is_set(args, k) {
        return Some(BarRange {
            base: words::word(args, k + 1),
            length: words::word(args, k + 2),
        });
    }
    None
}

fn put_pick(out: &mut [u8], p: Pick) {
    let size = p.size;
    let how = p.how;
    words::put(out, 1, p.index as u64);
    words::put(out, 2, answers::bar::size_known(size));
    words::put(out, 3, answers::bar::size_in(size));
    words::put(out, 4, answers::bar::how_number(how));
}
