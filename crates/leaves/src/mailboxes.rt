// The mailboxes that bring-up fills field by field.
ghost use Rattle.std.specs.Prelude.{◌≡◌};
ghost use Rattle.fields.specs.Outcome.{number_of, value_or};
ghost use Rattle.reply.specs.Capability.{capability_of, no_caps};
ghost use Rattle.layout.specs.Layout.{no_layout};
ghost use Rattle.init.specs.Init.{fill_of, filled_by, fields_of, init_of, mod_stat_cfg};
ghost use Rattle.answers.specs.Replies.{size_from};
ghost use Rattle.answers.specs.Tables.{layout_for};

use answers::{field, replies, tables};
use reply::DevCap;

// INIT_HCA for a capability reply, with the UAR BAR's size known or not. A reply that is refused counts as one with no capabilities and no tables.
pub fn leaf_init_hca(reply: &[u8], known: bool, bar: u64, inbox: &mut [u8]) -> u32
    ensures value { result ≡ number_of (fill_of inbox.old) }
    ensures inbox_after { inbox.new ≡ filled_by inbox.old (fields_of (init_of (value_or no_caps (capability_of reply.now (size_from known bar))) (value_or no_layout (layout_for (capability_of reply.now (size_from known bar)))).rows)) }
{
    let c = reply::dev_cap(reply, replies::size_from(known, bar));
    let j = tables::judge(c);
    let l = j.layout;
    let rows = l.rows;
    field::done(init::fill(inbox, init::init_hca(c.unwrap_or(DevCap::none()), rows)))
}

pub fn leaf_mod_stat_cfg(inbox: &mut [u8]) -> u32
    ensures value { result ≡ number_of (fill_of inbox.old) }
    ensures inbox_after { inbox.new ≡ filled_by inbox.old mod_stat_cfg }
{
    field::done(init::mod_stat_cfg(inbox))
}
