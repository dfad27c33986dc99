// The card's replies: document 01's number, the value beside it, then the fields.
ghost use Rattle.std.specs.Prelude.{◌≡◌, ◌&&◌};
ghost use Rattle.fields.specs.Outcome.{value_or, number_of};
ghost use Rattle.reply.specs.Capability.{capability_of, no_caps, bit as bit_in};
ghost use Rattle.reply.specs.Replies.{query_fw_of, fw_held, query_port_of, no_port, query_func_of};
ghost use Rattle.answers.specs.Words.{said, answer};
ghost use Rattle.answers.specs.Replies.{size_from, code_of, cap_words, fw_words, port_words, func_words};

// The capability reply, with the UAR BAR's size known or not.
#[unsafe(no_mangle)]
pub extern "C" fn leaf_dev_cap(reply: &[u8], known: bool, bar: u64, out: &mut [u8]) -> u32
    ensures value { result ≡ said 34 out.old }
    ensures out_after { out.new ≡ answer 34 out.old (cap_words (code_of (capability_of reply.now (size_from known bar))) (value_or no_caps (capability_of reply.now (size_from known bar)))) }
{
    leaves::replies::leaf_dev_cap(reply, known, bar, out)
}

// Whether flags have the capability of this number, and whether they have both for B0 steering.
#[unsafe(no_mangle)]
pub extern "C" fn leaf_flag(flags: u64, number: u8) -> bool
    ensures { result ≡ bit_in number flags }
{
    leaves::replies::leaf_flag(flags, number)
}

#[unsafe(no_mangle)]
pub extern "C" fn leaf_b0(flags: u64) -> bool
    ensures { result ≡ bit_in 41 flags && bit_in 42 flags }
{
    leaves::replies::leaf_b0(flags)
}

#[unsafe(no_mangle)]
pub extern "C" fn leaf_query_fw(reply: &[u8], bar: u8, out: &mut [u8]) -> u32
    ensures value { result ≡ said 12 out.old }
    ensures out_after { out.new ≡ answer 12 out.old (fw_words (code_of (query_fw_of reply.now bar)) (fw_held reply.now bar)) }
{
    leaves::replies::leaf_query_fw(reply, bar, out)
}

#[unsafe(no_mangle)]
pub extern "C" fn leaf_query_port(reply: &[u8], num: u8, out: &mut [u8]) -> u32
    ensures value { result ≡ said 18 out.old }
    ensures out_after { out.new ≡ answer 18 out.old (port_words (number_of (query_port_of reply.now num)) (value_or no_port (query_port_of reply.now num))) }
{
    leaves::replies::leaf_query_port(reply, num, out)
}

#[unsafe(no_mangle)]
pub extern "C" fn leaf_query_func(reply: &[u8], out: &mut [u8]) -> u32
    ensures value { result ≡ said 4 out.old }
    ensures out_after { out.new ≡ answer 4 out.old (func_words (query_func_of reply.now)) }
{
    leaves::replies::leaf_query_func(reply, out)
}
