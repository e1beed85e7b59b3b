//! Reading a link text (RFC 6690, section 2).

ghost use Rattle.std.specs.Prelude.{◌<◌, ◌^◌, length};
ghost use Rattle.core_links.specs.Links.{ReadsLinks};
ghost use Rattle.core_links.specs.Steps.{Takes, Ends};

use crate::Links;
use crate::reader::Reader;
use crate::steps::may_end;
use std::alloc::{AllocError, Global};
use thiserror::Error;

/// The reason for which bytes are no links.
#[derive(Debug, Drop, Error, PartialEq, Eq)]
pub enum LinkFault {
    /// The length of the longest prefix that some link text begins with.
    #[error("no link text from byte {0} on")]
    At(u32),
    #[error("out of memory")]
    NoMemory,
}

impl From<AllocError> for LinkFault {
    ghost use Rattle.std.specs.Prelude.{◌≡◌};
    ghost use Rattle.core_links.specs.declared.reading.LinkFault.TheVariants.{NoMemory};

    ghost from_gives = { λ _ fault. fault ≡ NoMemory };

    fn from(_error: AllocError) -> LinkFault {
        LinkFault::NoMemory
    }
}

/// Reads the links of a link text, in time in proportion to its length.
pub fn read(alloc: Global, bytes: &[u8]) -> Result<Links, LinkFault>
    requires { length bytes.now < 2 ^ 32 }
    ensures { ReadsLinks bytes.now result }
{
    let mut reader = Reader::new(alloc);
    take_all(&mut reader, alloc, bytes)?;
    end(&mut reader, alloc, bytes.len() as u32)?;
    Ok(reader.into_links())
}

/// Takes bytes one by one.
fn take_all(reader: &mut Reader, alloc: Global, bytes: &[u8]) -> Result<(), LinkFault>
    requires { length bytes.now < 2 ^ 32 }
    ensures { Takes bytes.now reader.old reader.new result }
{
    for (index, byte) in bytes.iter().enumerate() {
        if !reader.take(alloc, *byte)? {
            return Err(LinkFault::At(index as u32));
        }
    }
    Ok(())
}

/// Ends the text, of which this many bytes were taken.
fn end(reader: &mut Reader, alloc: Global, length: u32) -> Result<(), LinkFault>
    ensures { Ends length reader.old reader.new result }
{
    if !may_end(reader.place) {
        return Err(LinkFault::At(length));
    }
    reader.end_text(alloc)?;
    Ok(())
}
