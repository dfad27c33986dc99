// The reader of a reply: it holds the reply's bytes, and answers the field at an offset or refuses with 21.
#![tactic(auto)]

ghost use Rattle.std.specs.Prelude.{◌≡◌};
ghost use Rattle.fields.specs.Fields.{field_at, outcome};
ghost use Rattle.fields.specs.declared.Order.TheVariants.{Big};

use fields::Short;

#[derive(Clone, Copy)]
pub struct Reader<'a> {
    reply: &'a [u8],
}

impl<'a> Reader<'a> {
    pub fn new(reply: &'a [u8]) -> Reader<'a>
        ensures { result.reply ≡ reply.entry }
    {
        Reader { reply }
    }

    pub fn u8(self, off: usize) -> Result<u8, Short>
        ensures { outcome result ≡ field_at Big self.entry.reply.now off 1 }
    {
        fields::byte(self.reply, off)
    }

    pub fn be16(self, off: usize) -> Result<u16, Short>
        ensures { outcome result ≡ field_at Big self.entry.reply.now off 2 }
    {
        fields::be16(self.reply, off)
    }

    pub fn be32(self, off: usize) -> Result<u32, Short>
        ensures { outcome result ≡ field_at Big self.entry.reply.now off 4 }
    {
        fields::be32(self.reply, off)
    }

    pub fn be64(self, off: usize) -> Result<u64, Short>
        ensures { outcome result ≡ field_at Big self.entry.reply.now off 8 }
    {
        fields::be64(self.reply, off)
    }
}
