// The command register as words.
ghost use Rattle.std.specs.Prelude.{◌≡◌};
ghost use Rattle.hcr.specs.Words.{pending_in, status_in, first_toggle, go_word, swap_of, writes_of, stall_of, waited_of, is_reserved};
ghost use Rattle.answers.specs.Words.{said, answer};
ghost use Rattle.answers.specs.Command.{post_of, writes_words};

#[unsafe(no_mangle)]
pub extern "C" fn leaf_pending(status: u32, toggle: bool) -> bool
    ensures { result ≡ pending_in status toggle }
{
    leaves::command::leaf_pending(status, toggle)
}

#[unsafe(no_mangle)]
pub extern "C" fn leaf_status(dword: u32) -> u8
    ensures { result ≡ status_in dword }
{
    leaves::command::leaf_status(dword)
}

#[unsafe(no_mangle)]
pub extern "C" fn leaf_first_toggle(status: u32) -> bool
    ensures { result ≡ first_toggle status }
{
    leaves::command::leaf_first_toggle(status)
}

#[unsafe(no_mangle)]
pub extern "C" fn leaf_go_word(toggle: bool, modifier: u8, op: u16) -> u32
    ensures { result ≡ go_word toggle modifier op }
{
    leaves::command::leaf_go_word(toggle, modifier, op)
}

#[unsafe(no_mangle)]
pub extern "C" fn leaf_swap(x: u32) -> u32
    ensures { result ≡ swap_of x }
{
    leaves::command::leaf_swap(x)
}

// The seven writes that post a command, each as its offset and its value on the bus.
#[unsafe(no_mangle)]
pub extern "C" fn leaf_writes(
    toggle: bool,
    op: u16,
    op_mod: u8,
    in_mod: u32,
    in_param: u64,
    out_param: u64,
    out: &mut [u8],
) -> u32
    ensures value { result ≡ said 14 out.old }
    ensures out_after { out.new ≡ answer 14 out.old (writes_words (writes_of toggle (post_of op op_mod in_mod in_param out_param))) }
{
    leaves::command::leaf_writes(toggle, op, op_mod, in_mod, in_param, out_param, out)
}

#[unsafe(no_mangle)]
pub extern "C" fn leaf_stall(n: u32) -> u32
    ensures { result ≡ stall_of n }
{
    leaves::command::leaf_stall(n)
}

#[unsafe(no_mangle)]
pub extern "C" fn leaf_waited(n: u32) -> u64
    ensures { result ≡ waited_of n }
{
    leaves::command::leaf_waited(n)
}

#[unsafe(no_mangle)]
pub extern "C" fn leaf_reserved(op: u16) -> bool
    ensures { result ≡ is_reserved op }
{
    leaves::command::leaf_reserved(op)
}
