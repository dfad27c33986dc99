// Fields of a slice: document 01's number (0 where there is none), then the value.
ghost use Rattle.std.specs.Prelude.{◌≡◌};
ghost use Rattle.fields.specs.Outcome.{number_of};
ghost use Rattle.fields.specs.Fields.{outcome, outcome_by};
ghost use Rattle.fields.specs.declared.Order.TheVariants.{Big, Little};
ghost use Rattle.answers.specs.Words.{number_words};
ghost use Rattle.answers.specs.Fields.{order_of};

use fields::{Order, Short, Unsigned};

pub fn order(little: bool) -> Order
    ensures { result ≡ order_of little }
{
    if little {
        return Order::Little;
    }
    Order::Big
}

pub fn words<N: Unsigned>(r: Result<N, Short>) -> [u64; 2]
    ensures { result ≡ number_words (outcome_by N.worth r) }
{
    match r {
        Ok(v) => [0, v.wide()],
        Err(_) => [21, 0],
    }
}

pub fn done(w: Result<(), Short>) -> u32
    ensures { result ≡ number_of (outcome w) }
{
    match w {
        Ok(()) => 0,
        Err(_) => 21,
    }
}
