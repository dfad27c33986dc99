// The layout of the ICM tables.
ghost use Rattle.std.specs.Prelude.{◌≡◌};
ghost use Rattle.std.specs.Int.Count.{count_trailing_zeros};
ghost use Rattle.reply.specs.Capability.{capability_of};
ghost use Rattle.layout.specs.Layout.{pow2_of};
ghost use Rattle.answers.specs.Words.{said, answer};
ghost use Rattle.answers.specs.Replies.{size_from};
ghost use Rattle.answers.specs.Tables.{layout_words};

// The least power of two that is at least x, and the exponent of one.
#[unsafe(no_mangle)]
pub extern "C" fn leaf_pow2(x: u64) -> u64
    ensures { result ≡ pow2_of x }
{
    leaves::tables::leaf_pow2(x)
}

#[unsafe(no_mangle)]
pub extern "C" fn leaf_log2(x: u64) -> u32
    ensures { result ≡ count_trailing_zeros 64 x }
{
    leaves::tables::leaf_log2(x)
}

// The layout for a capability reply, with the UAR BAR's size known or not: the refusal's number and value, the total, the first special QP, the first
// free MTT entry, the tables, the ranges and the comparisons.
#[unsafe(no_mangle)]
pub extern "C" fn leaf_layout(reply: &[u8], known: bool, bar: u64, out: &mut [u8]) -> u32
    ensures value { result ≡ said 89 out.old }
    ensures out_after { out.new ≡ answer 89 out.old (layout_words (capability_of reply.now (size_from known bar))) }
{
    leaves::tables::leaf_layout(reply, known, bar, out)
}
