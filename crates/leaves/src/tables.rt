// The layout of the ICM tables.
ghost use Rattle.std.specs.Prelude.{◌≡◌};
ghost use Rattle.std.specs.Int.Count.{count_trailing_zeros};
ghost use Rattle.reply.specs.Capability.{capability_of};
ghost use Rattle.layout.specs.Layout.{pow2_of};
ghost use Rattle.answers.specs.Words.{said, answer};
ghost use Rattle.answers.specs.Replies.{size_from};
ghost use Rattle.answers.specs.Tables.{layout_words};

use answers::{replies, words};
use reply::DevCap;

// The least power of two that is at least x, and the exponent of one.
pub fn leaf_pow2(x: u64) -> u64
    ensures { result ≡ pow2_of x }
{
    layout::pow2(x)
}

pub fn leaf_log2(x: u64) -> u32
    ensures { result ≡ count_trailing_zeros 64 x }
{
    layout::log2(x)
}

const WORDS: usize = 89;

// The layout for a capability reply, with the UAR BAR's size known or not: the refusal's number and value, the total, the first special QP, the first
// free MTT entry, the tables, the ranges and the comparisons.
pub fn leaf_layout(reply: &[u8], known: bool, bar: u64, out: &mut [u8]) -> u32
    ensures value { result ≡ said 89 out.old }
    ensures out_after { out.new ≡ answer 89 out.old (layout_words (capability_of reply.now (size_from known bar))) }
{
    if out.len() < WORDS * 8 {
        return words::SHORT;
    }
    let c = reply::dev_cap(reply, replies::size_from(known, bar));
    let j = answers::tables::judge(c);
    let cap = c.unwrap_or(DevCap::none());
    let l = j.layout;
    let rows = l.rows;
    let ranges = l.ranges;
    words::put(
        out,
        0,
        &[
            j.code.number,
            j.code.beside,
            l.total,
            layout::base_sqpn(cap),
            layout::first_free_mtt(cap),
        ],
    );
    answers::tables::put_rows(out, rows);
    answers::tables::put_ranges(out, ranges);
    words::put(
        out,
        answers::tables::COMPARISONS_AT,
        &[l.comparisons as u64],
    );
    0
}
