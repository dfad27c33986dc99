// The command register as words.
ghost use Rattle.std.specs.Prelude.{◌≡◌};
ghost use Rattle.answers.specs.Command.{writes_words};

use crate::words;
use hcr::RegWrite;

pub fn writes_words(w: [RegWrite; 7]) -> [u64; 14]
    ensures { result ≡ writes_words w }
{
    let a = w[0];
    let b = w[1];
    let c = w[2];
    let d = w[3];
    let e = w[4];
    let f = w[5];
    let g = w[6];
    [
        a.offset,
        words::wide32(a.value),
        b.offset,
        words::wide32(b.value),
        c.offset,
        words::wide32(c.value),
        d.offset,
        words::wide32(d.value),
        e.offset,
        words::wide32(e.value),
        f.offset,
        words::wide32(f.value),
        g.offset,
        words::wide32(g.value),
    ]
}
