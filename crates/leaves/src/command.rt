// The command register as words.
ghost use Rattle.std.specs.Prelude.{◌≡◌};
ghost use Rattle.hcr.specs.Words.{pending_in, status_in, first_toggle, go_word, swap_of, writes_of, stall_of, waited_of, is_reserved};
ghost use Rattle.answers.specs.Words.{said, answer};
ghost use Rattle.answers.specs.Command.{post_of, writes_words};

use answers::words;
use hcr::Post;

pub fn leaf_pending(status: u32, toggle: bool) -> bool
    ensures { result ≡ pending_in status toggle }
{
    hcr::pending(status, toggle)
}

pub fn leaf_status(dword: u32) -> u8
    ensures { result ≡ status_in dword }
{
    hcr::status(dword)
}

pub fn leaf_first_toggle(status: u32) -> bool
    ensures { result ≡ first_toggle status }
{
    hcr::first_toggle(status)
}

pub fn leaf_go_word(toggle: bool, modifier: u8, op: u16) -> u32
    ensures { result ≡ go_word toggle modifier op }
{
    hcr::go_word(toggle, modifier, op)
}

pub fn leaf_swap(x: u32) -> u32
    ensures { result ≡ swap_of x }
{
    hcr::swap(x)
}

// The seven writes that post a command, each as its offset and its value on the bus.
pub fn leaf_writes(
    toggle: bool,
    op: u16,
    op_mod: u8,
    in_mod: u32,
    in_param: u64,
    out_param: u64,
    out: &mut [u8],
) -> u32
    ensures value { result ≡ said 14 out.old }
    ensures out_after { out.new ≡ answer 14 out.old (writes_words (writes_of toggle (post_of op op_mod in_mod in_param out_param))) }
{
    let w = answers::command::writes_words(hcr::writes(
        toggle,
        Post {
            op,
            op_mod,
            in_mod,
            in_param,
            out_param,
        },
    ));
    words::give(out, &w)
}

pub fn leaf_stall(n: u32) -> u32
    ensures { result ≡ stall_of n }
{
    hcr::stall(n)
}

pub fn leaf_waited(n: u32) -> u64
    ensures { result ≡ waited_of n }
{
    hcr::waited(n)
}

pub fn leaf_reserved(op: u16) -> bool
    ensures { result ≡ is_reserved op }
{
    hcr::reserved(op)
}
