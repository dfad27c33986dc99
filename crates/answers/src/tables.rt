// The layout of the ICM tables.
ghost use Rattle.std.specs.Prelude.{◌≡◌, length};
ghost use Rattle.fields.specs.Outcome.{value_or};
ghost use Rattle.reply.specs.Capability.{capability};
ghost use Rattle.layout.specs.Layout.{misfit_by, laid, no_layout};
ghost use Rattle.answers.specs.Words.{put_words};
ghost use Rattle.answers.specs.Replies.{code_of};
ghost use Rattle.answers.specs.Tables.{row_words, rows_words, ranges_words, layout_for, judged_of};

use crate::replies::Code;
use crate::{replies, words};
use layout::{Layout, Misfit, Range, Table};
use reply::{CapRefusal, DevCap};

fn row_words(t: Table) -> [u64; 5]
    ensures { result ≡ row_words t }
{
    [t.index as u64, t.entry, t.count, t.bytes, t.base]
}

const ROWS_AT: usize = 5;

const RANGES_AT: usize = 60;

pub const COMPARISONS_AT: usize = 88;

// The tables in the order of their bases, five words each.
pub fn put_rows(out: &mut [u8], rows: [Table; 11])
    ensures out_after { out.new ≡ put_words out.old 5 (rows_words rows) }
    ensures rows_len { length rows ≡ 11 }
{
    for (i, t) in rows.iter().enumerate() {
        let w = row_words(*t);
        words::put(out, ROWS_AT + i * 5, &w);
    }
}

// The mapped ranges in their order, two words each.
pub fn put_ranges(out: &mut [u8], ranges: [Range; 14])
    ensures out_after { out.new ≡ put_words out.old 60 (ranges_words ranges) }
    ensures ranges_len { length ranges ≡ 14 }
{
    for (i, r) in ranges.iter().enumerate() {
        words::put(out, RANGES_AT + i * 2, &[r.virt, r.bytes]);
    }
}

// The layout, where there is one, else zeros; and the refusal.
#[derive(Clone, Copy)]
pub struct Judged {
    pub code: Code,
    pub layout: Layout,
}

fn misfit_code(k: Misfit) -> Code
    ensures { result ≡ code_of (misfit_by k) }
{
    match k {
        Misfit::Entry(i) => Code {
            number: 16,
            beside: i as u64,
        },
        Misfit::Total(t) => Code {
            number: 17,
            beside: t,
        },
    }
}

fn judge_laid(y: Result<Layout, Misfit>) -> Judged
    ensures { result ≡ judged_of (code_of (laid y)) (value_or no_layout (laid y)) }
{
    match y {
        Ok(layout) => Judged {
            code: Code {
                number: Code::GOOD,
                beside: 0,
            },
            layout,
        },
        Err(k) => Judged {
            code: misfit_code(k),
            layout: Layout::none(),
        },
    }
}

// The layout of an accepted capability reply; else the refusal.
pub fn judge(c: Result<DevCap, CapRefusal>) -> Judged
    ensures { result ≡ judged_of (code_of (layout_for (capability c))) (value_or no_layout (layout_for (capability c))) }
{
    match c {
        Ok(cap) => judge_laid(layout::profile(cap)),
        Err(k) => Judged {
            code: replies::cap_code(k),
            layout: Layout::none(),
        },
    }
}
