//! The Block2 options of a response (RFC 7959, section 2.1).

ghost use Rattle.std.specs.Prelude.{◌≡◌, IfSome};
ghost use Rattle.coap_msg.specs.Blocks.{IsBlock};
ghost use Rattle.coap_client.specs.Answers.{block2_in as block2_in_values, block2_of as block2_of_options, block2_values};
ghost use Rattle.coap_client.specs.Finding.{found_values};

use coap_msg::{BLOCK2, Block, Options, read_block};

/// The block of its body that a response has, where its options say one.
pub fn block2_of(options: &Options<'_>) -> Option<Block>
    ensures ok { result ≡ block2_of_options options.now }
    ensures block { IfSome result IsBlock }
{
    match block2_in(options) {
        Some(block) => block,
        None => None,
    }
}

/// The reading of the Block2 options: that there is none, or the block of the only one. One that says no block isn't
/// read, nor are several, since the option doesn't repeat (RFC 7252, section 5.4.5).
pub fn block2_in(options: &Options<'_>) -> Option<Option<Block>>
    ensures ok { result ≡ block2_in_values (block2_values options.now) }
    ensures block { IfSome result (λ block. IfSome block IsBlock) }
{
    let mut found = None;
    for (number, value) in options.iter() {
        if number == BLOCK2 {
            if found.is_some() {
                return None;
            }
            found = Some(value);
        }
    }
    block_in(found)
}

/// The reading of the value of the only Block2 option, where there is one.
fn block_in(value: Option<&[u8]>) -> Option<Option<Block>>
    ensures ok { result ≡ block2_in_values (found_values value.entry) }
    ensures block { IfSome result (λ block. IfSome block IsBlock) }
{
    match value {
        Some(value) => match read_block(value) {
            Some(block) => Some(Some(block)),
            None => None,
        },
        None => Some(None),
    }
}
