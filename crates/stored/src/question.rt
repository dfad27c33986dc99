// A question as a kind and values, and as a line of text.
ghost use Rattle.std.specs.Prelude.{◌≡◌};
ghost use Rattle.stored.specs.Question.{Decodes, value_count};

use std::fmt;

#[derive(Clone, Copy, PartialEq, Eq)]
pub enum Kind {
    Finished,
    ConfigRead16,
    ConfigRead32,
    ConfigWrite16,
    ConfigWrite32,
    RegRead,
    RegWrite,
    Attributes,
    Resource,
    Stall,
    Allocate,
    Map,
    Unmap,
    Free,
    Fence,
}

// A number that no kind has.
#[derive(Clone, Copy)]
pub struct UnknownKind(pub u64);

// The numbers are those over C linkage.
impl TryFrom<u64> for Kind {
    type Error = UnknownKind;

    ghost try_from_gives = { Decodes };

    fn try_from(number: u64) -> Result<Kind, UnknownKind> {
        match number {
            0 => Ok(Kind::Finished),
            1 => Ok(Kind::ConfigRead16),
            2 => Ok(Kind::ConfigRead32),
            3 => Ok(Kind::ConfigWrite16),
            4 => Ok(Kind::ConfigWrite32),
            5 => Ok(Kind::RegRead),
            6 => Ok(Kind::RegWrite),
            7 => Ok(Kind::Attributes),
            8 => Ok(Kind::Resource),
            9 => Ok(Kind::Stall),
            10 => Ok(Kind::Allocate),
            11 => Ok(Kind::Map),
            12 => Ok(Kind::Unmap),
            13 => Ok(Kind::Free),
            14 => Ok(Kind::Fence),
            _ => Err(UnknownKind(number)),
        }
    }
}

impl Kind {
    // How many values a question of the kind has.
    pub fn values(self) -> usize
        ensures { result ≡ value_count self }
    {
        match self {
            Kind::Finished | Kind::Fence => 0,
            Kind::ConfigRead16 | Kind::ConfigRead32 | Kind::Resource => 1,
            Kind::Stall | Kind::Allocate | Kind::Unmap => 1,
            Kind::ConfigWrite16 | Kind::ConfigWrite32 | Kind::RegRead => 2,
            Kind::Attributes | Kind::Map | Kind::Free => 2,
            Kind::RegWrite => 3,
        }
    }
}

impl fmt::Display for Kind {
    fn fmt<W: fmt::Write>(&self, f: &mut fmt::Formatter<W>) -> fmt::Result {
        f.write_str(match self {
            Kind::Finished => "finished",
            Kind::ConfigRead16 => "config_read16",
            Kind::ConfigRead32 => "config_read32",
            Kind::ConfigWrite16 => "config_write16",
            Kind::ConfigWrite32 => "config_write32",
            Kind::RegRead => "reg_read",
            Kind::RegWrite => "reg_write",
            Kind::Attributes => "attributes",
            Kind::Resource => "resource",
            Kind::Stall => "stall",
            Kind::Allocate => "allocate",
            Kind::Map => "map",
            Kind::Unmap => "unmap",
            Kind::Free => "free",
            Kind::Fence => "fence",
        })
    }
}

// The values that the kind has not are 0.
#[derive(Clone, Copy, PartialEq, Eq)]
pub struct Asked {
    pub kind: Kind,
    pub values: [u64; 3],
}

// The name, and the values in hexadecimal.
impl fmt::Display for Asked {
    fn fmt<W: fmt::Write>(&self, f: &mut fmt::Formatter<W>) -> fmt::Result {
        let kind = self.kind;
        let [a, b, c] = self.values;
        match kind.values() {
            0 => write!(f, "{kind}"),
            1 => write!(f, "{kind} {a:x}"),
            2 => write!(f, "{kind} {a:x} {b:x}"),
            _ => write!(f, "{kind} {a:x} {b:x} {c:x}"),
        }
    }
}
