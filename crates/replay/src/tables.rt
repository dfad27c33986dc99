// The leaves 24 to 36: replies, layout, INIT_HCA, command register.
use crate::words;
use leaves::{command, replies};

pub(crate) const END: usize = 37;

const MAILBOX_AT: usize = 8;

const MAILBOX_END: usize = 4104;

pub(crate) fn answer(leaf: usize, args: &[u8], bytes: &[u8], out: &mut [u8]) -> bool {
    if leaf < 30 {
        reply(leaf, args, bytes, out);
        return true;
    }
    if leaf < END {
        other(leaf, args, bytes, out);
        return true;
    }
    false
}

fn reply(leaf: usize, args: &[u8], bytes: &[u8], out: &mut [u8]) {
    match leaf {
        24 => {
            replies::leaf_dev_cap(bytes, words::is_set(args, 0), words::word(args, 1), out);
        }
        25 => words::put_bool(
            out,
            replies::leaf_flag(words::word(args, 0), words::low8(args, 1)),
        ),
        26 => words::put_bool(out, replies::leaf_b0(words::word(args, 0))),
        27 => {
            replies::leaf_query_fw(bytes, words::low8(args, 0), out);
        }
        28 => {
            replies::leaf_query_port(bytes, words::low8(args, 0), out);
        }
        _ => {
            replies::leaf_query_func(bytes, out);
        }
    }
}

fn other(leaf: usize, args: &[u8], bytes: &[u8], out: &mut [u8]) {
    match leaf {
        30 => layout(args, bytes, out),
        31 => init_hca(args, bytes, out),
        32 => words::put(out, 0, leaves::tables::leaf_pow2(words::word(args, 0))),
        33 => words::put(
            out,
            0,
            leaves::tables::leaf_log2(words::word(args, 0)) as u64,
        ),
        34 => words::put_bool(
            out,
            command::leaf_pending(words::low32(args, 0), words::is_set(args, 1)),
        ),
        35 => writes(args, out),
        _ => words::put(out, 0, command::leaf_swap(words::low32(args, 0)) as u64),
    }
}

// Beside a refusal the first special QP and the first free MTT entry mean nothing.
fn layout(args: &[u8], bytes: &[u8], out: &mut [u8]) {
    leaves::tables::leaf_layout(bytes, words::is_set(args, 0), words::word(args, 1), out);
    if words::is_set(out, 0) {
        words::put(out, 3, 0);
        words::put(out, 4, 0);
    }
}

// The refusal's number, then the mailbox.
fn init_hca(args: &[u8], bytes: &[u8], out: &mut [u8]) {
    if out.len() < MAILBOX_END {
        return;
    }
    let number = leaves::mailboxes::leaf_init_hca(
        bytes,
        words::is_set(args, 0),
        words::word(args, 1),
        &mut out[MAILBOX_AT..MAILBOX_END],
    );
    words::put(out, 0, number as u64);
}

fn writes(args: &[u8], out: &mut [u8]) {
    command::leaf_writes(
        words::is_set(args, 0),
        words::low16(args, 1),
        words::low8(args, 2),
        words::low32(args, 3),
        words::word(args, 4),
        words::word(args, 5),
        out,
    );
}
