// BARs: the address in one, its candidates, a resource list, and the choice of an index, begun and
// then one answer a call.
ghost use Rattle.std.specs.Prelude.{◌≡◌, [], ◌∷◌, ◌<◌};
ghost use Rattle.fields.specs.Outcome.{pick};
ghost use Rattle.bars.specs.Bars.{base_at, candidates_at};
ghost use Rattle.bars.specs.Resource.{resource_at};
ghost use Rattle.bars.specs.Steps.{choose_at, step_of};
ghost use Rattle.answers.specs.Words.{said, answer, holds, number_words};
ghost use Rattle.answers.specs.Bars.{pair_words, list_words, range_from};
ghost use Rattle.answers.specs.Bars.{next_words, begun_words, choice_in};

#[unsafe(no_mangle)]
pub extern "C" fn leaf_base(
    d0: u32,
    d1: u32,
    d2: u32,
    d3: u32,
    d4: u32,
    d5: u32,
    reg: usize,
    out: &mut [u8],
) -> u32
    ensures value { result ≡ said 2 out.old }
    ensures out_after { out.new ≡ answer 2 out.old (number_words (base_at (d0 ∷ d1 ∷ d2 ∷ d3 ∷ d4 ∷ d5 ∷ []) reg)) }
{
    leaves::bar::leaf_base(d0, d1, d2, d3, d4, d5, reg, out)
}

#[unsafe(no_mangle)]
pub extern "C" fn leaf_candidates(
    d0: u32,
    d1: u32,
    d2: u32,
    d3: u32,
    d4: u32,
    d5: u32,
    reg: usize,
    out: &mut [u8],
) -> u32
    ensures value { result ≡ said 3 out.old }
    ensures out_after { out.new ≡ answer 3 out.old (pair_words (candidates_at (d0 ∷ d1 ∷ d2 ∷ d3 ∷ d4 ∷ d5 ∷ []) reg)) }
{
    leaves::bar::leaf_candidates(d0, d1, d2, d3, d4, d5, reg, out)
}

#[unsafe(no_mangle)]
pub extern "C" fn leaf_resource(bytes: &[u8], out: &mut [u8]) -> u32
    ensures value { result ≡ said 3 out.old }
    ensures out_after { out.new ≡ answer 3 out.old (list_words (resource_at bytes.now)) }
{
    leaves::bar::leaf_resource(bytes, out)
}

#[unsafe(no_mangle)]
pub extern "C" fn leaf_choose(
    d0: u32,
    d1: u32,
    d2: u32,
    d3: u32,
    d4: u32,
    d5: u32,
    reg: usize,
    out: &mut [u8],
) -> u32
    ensures value { result ≡ said 16 out.old }
    ensures out_after { out.new ≡ answer 16 out.old (begun_words (choose_at (d0 ∷ d1 ∷ d2 ∷ d3 ∷ d4 ∷ d5 ∷ []) reg)) }
{
    leaves::bar::leaf_choose(d0, d1, d2, d3, d4, d5, reg, out)
}

// The answer to the question that an earlier answer's words asked.
#[unsafe(no_mangle)]
pub extern "C" fn leaf_choose_step(
    state: &[u8],
    known: bool,
    base: u64,
    length: u64,
    out: &mut [u8],
) -> u32
    ensures value { result ≡ pick (holds 16 state.now) (said 16 out.old) 21 }
    ensures out_after { out.new ≡ pick (holds 16 state.now) (answer 16 out.old (next_words (step_of (choice_in state.now) (range_from known base length)))) out.old }
{
    leaves::bar::leaf_choose_step(state, known, base, length, out)
}
