// The mailboxes that bring-up fills field by field.
ghost use Rattle.std.specs.Prelude.{◌≡◌};
ghost use Rattle.fields.specs.Outcome.{number_of, value_or};
ghost use Rattle.reply.specs.Capability.{capability_of, no_caps};
ghost use Rattle.layout.specs.Layout.{no_layout};
ghost use Rattle.init.specs.Init.{fill_of, filled_by, fields_of, init_of, mod_stat_cfg};
ghost use Rattle.answers.specs.Replies.{size_from};
ghost use Rattle.answers.specs.Tables.{layout_for};

// INIT_HCA for a capability reply, with the UAR BAR's size known or not. A reply that is refused counts as one with no capabilities and no tables.
#[unsafe(no_mangle)]
pub extern "C" fn leaf_init_hca(reply: &[u8], known: bool, bar: u64, inbox: &mut [u8]) -> u32
    ensures value { result ≡ number_of (fill_of inbox.old) }
    ensures inbox_after { inbox.new ≡ filled_by inbox.old (fields_of (init_of (value_or no_caps (capability_of reply.now (size_from known bar))) (value_or no_layout (layout_for (capability_of reply.now (size_from known bar)))).rows)) }
{
    leaves::mailboxes::leaf_init_hca(reply, known, bar, inbox)
}

#[unsafe(no_mangle)]
pub extern "C" fn leaf_mod_stat_cfg(inbox: &mut [u8]) -> u32
    ensures value { result ≡ number_of (fill_of inbox.old) }
    ensures inbox_after { inbox.new ≡ filled_by inbox.old mod_stat_cfg }
{
    leaves::mailboxes::leaf_mod_stat_cfg(inbox)
}
