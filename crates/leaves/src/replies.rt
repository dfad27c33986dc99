// The card's replies: document 01's number, the value beside it, then the fields.
ghost use Rattle.std.specs.Prelude.{◌≡◌, ◌&&◌};
ghost use Rattle.fields.specs.Outcome.{value_or, number_of};
ghost use Rattle.reply.specs.Capability.{capability_of, no_caps, bit as bit_in};
ghost use Rattle.reply.specs.Replies.{query_fw_of, fw_held, query_port_of, no_port, query_func_of};
ghost use Rattle.answers.specs.Words.{said, answer};
ghost use Rattle.answers.specs.Replies.{size_from, code_of, cap_words, fw_words, port_words, func_words};

use answers::words;
use reply::DevCap;

// The capability reply, with the UAR BAR's size known or not.
pub fn leaf_dev_cap(reply: &[u8], known: bool, bar: u64, out: &mut [u8]) -> u32
    ensures value { result ≡ said 34 out.old }
    ensures out_after { out.new ≡ answer 34 out.old (cap_words (code_of (capability_of reply.now (size_from known bar))) (value_or no_caps (capability_of reply.now (size_from known bar)))) }
{
    let w = answers::replies::cap_words(reply::dev_cap(
        reply,
        answers::replies::size_from(known, bar),
    ));
    words::give(out, &w)
}

// A reply of which only the flags are looked at.
fn caps_with(flags: u64) -> DevCap
    ensures { result.flags ≡ flags }
{
    DevCap {
        flags,
        ..DevCap::none()
    }
}

// Whether flags have the capability of this number, and whether they have both for B0 steering.
pub fn leaf_flag(flags: u64, number: u8) -> bool
    ensures { result ≡ bit_in number flags }
{
    caps_with(flags).flag(number)
}

pub fn leaf_b0(flags: u64) -> bool
    ensures { result ≡ bit_in 41 flags && bit_in 42 flags }
{
    caps_with(flags).b0()
}

pub fn leaf_query_fw(reply: &[u8], bar: u8, out: &mut [u8]) -> u32
    ensures value { result ≡ said 12 out.old }
    ensures out_after { out.new ≡ answer 12 out.old (fw_words (code_of (query_fw_of reply.now bar)) (fw_held reply.now bar)) }
{
    let w = answers::replies::fw_words(reply::query_fw(reply, bar));
    words::give(out, &w)
}

pub fn leaf_query_port(reply: &[u8], num: u8, out: &mut [u8]) -> u32
    ensures value { result ≡ said 18 out.old }
    ensures out_after { out.new ≡ answer 18 out.old (port_words (number_of (query_port_of reply.now num)) (value_or no_port (query_port_of reply.now num))) }
{
    let w = answers::replies::port_words(reply::query_port(reply, num));
    words::give(out, &w)
}

pub fn leaf_query_func(reply: &[u8], out: &mut [u8]) -> u32
    ensures value { result ≡ said 4 out.old }
    ensures out_after { out.new ≡ answer 4 out.old (func_words (query_func_of reply.now)) }
{
    let w = answers::replies::func_words(reply::query_func(reply));
    words::give(out, &w)
}
