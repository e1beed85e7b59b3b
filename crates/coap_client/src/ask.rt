//! The asks of a client, and their messages.

ghost use Rattle.std.specs.Prelude.{◌≡◌, ◌≤◌, ◌<◌, ◌++◌, Bool, [], ◌∷◌, length, slice_index_or, All, IfOk, IfSome, OnOk, OnErr, take};
ghost use Rattle.coap_msg.specs.Blocks.{IsBlock, block_bytes};
ghost use Rattle.coap_msg.specs.Grammar.{options_spelling, spelling};
ghost use Rattle.coap_msg.specs.Opts.{last_number, PutsOptions, segment_options};
ghost use Rattle.coap_msg.specs.Written.{IsWritten};
ghost use Rattle.coap_msg.specs.declared.constants.TheConstants.{LONGEST_SEGMENT};
ghost use Rattle.coap_client.specs.Asking.{MayAsk, asking_of, observe_option, format_option, block_option, both_blocks, options_for, message_for};

use coap_msg::{
    BLOCK1, BLOCK2, Block, CONTENT_FORMAT, Code, LONGEST_MESSAGE, NoRoom, OBSERVE, Opts, Plain,
    Type4, URI_PATH, encode, put_number, put_segment, write_block,
};
use thing_ops::Segments;

/// An ask of a server.
#[derive(Clone, Copy)]
pub struct Ask<'a> {
    /// The code of the request (RFC 7252, section 12.1.1).
    pub code: Code,
    /// The path.
    pub path: &'a Segments,
    /// The wish to observe (true), or to observe no longer (false; RFC 7641, section 2).
    pub observe: Option<bool>,
    /// The content format of the payload (RFC 7252, section 12.3).
    pub format: Option<u16>,
    /// The block of its body that this is, where that goes in blocks (Block1; RFC 7959, section 2.1).
    pub block1: Option<Block>,
    /// The block of the response that is wanted, where that isn't the first (Block2).
    pub block2: Option<Block>,
    /// The payload.
    pub payload: &'a [u8],
}

/// Writes the message of an ask to the beginning of `out`, and returns the number of its bytes.
pub fn put_ask(
    ask: &Ask<'_>,
    id: u16,
    token: &[u8; 8],
    out: &mut [u8; LONGEST_MESSAGE],
) -> Result<usize, NoRoom>
    requires { MayAsk (asking_of ask.now) }
    ensures ok { IfOk result (λ n. IsWritten (spelling (message_for (asking_of ask.now) id token.now)) n out.old out.new) }
    ensures unchanged { OnErr result (out.new ≡ out.old) }
    ensures no_room { OnErr result (LONGEST_MESSAGE < length (spelling (message_for (asking_of ask.now) id token.now))) }
{
    // An array, since a client takes memory only when it is made.
    let mut room = [0; LONGEST_MESSAGE];
    let mut options = Opts::on(&mut room);
    put_options(ask, &mut options)?;
    let message = Plain {
        kind: Type4::Con,
        code: ask.code,
        id,
        token,
        options: &options,
        payload: ask.payload,
    };
    encode(&message, out)
}

/// Writes the options of an ask, where none are written yet.
fn put_options(ask: &Ask<'_>, options: &mut Opts<'_>) -> Result<(), NoRoom>
    requires ask { MayAsk (asking_of ask.now) }
    requires empty { options.old.list ≡ [] }
    ensures { PutsOptions (options_for (asking_of ask.now)) result options.old options.new }
{
    put_observe(options, ask.observe)?;
    put_path(options, ask.path)?;
    put_rest(ask, options)
}

/// Writes the options of an ask that come after its path. A function of its own, since each option is proved together
/// with those after it.
fn put_rest(ask: &Ask<'_>, options: &mut Opts<'_>) -> Result<(), NoRoom>
    requires ask { MayAsk (asking_of ask.now) }
    requires order { last_number 0 options.old.list ≤ URI_PATH }
    ensures { PutsOptions (format_option ask.now.format ++ both_blocks ask.now.block2 ask.now.block1) result options.old options.new }
{
    put_format(options, ask.format)?;
    put_blocks(ask, options)
}

/// Writes Block2 and Block1.
fn put_blocks(ask: &Ask<'_>, options: &mut Opts<'_>) -> Result<(), NoRoom>
    requires ask { MayAsk (asking_of ask.now) }
    requires order { last_number 0 options.old.list ≤ CONTENT_FORMAT }
    ensures { PutsOptions (both_blocks ask.now.block2 ask.now.block1) result options.old options.new }
{
    put_block(options, BLOCK2, ask.block2)?;
    put_block(options, BLOCK1, ask.block1)
}

/// Writes Observe.
fn put_observe(options: &mut Opts<'_>, observe: Option<bool>) -> Result<(), NoRoom>
    requires { options.old.list ≡ [] }
    ensures ok { PutsOptions (observe_option observe) result options.old options.new }
    ensures last { OnOk result (last_number 0 options.new.list ≤ OBSERVE) }
{
    match observe {
        Some(true) => put_number(options, OBSERVE, 0),
        Some(false) => put_number(options, OBSERVE, 1),
        None => Ok(()),
    }
}

/// Writes one Uri-Path for each segment, by its number, as `Segments` has no iterator.
fn put_path(options: &mut Opts<'_>, path: &Segments) -> Result<(), NoRoom>
    requires order { last_number 0 options.old.list ≤ URI_PATH }
    requires segments { All (λ segment. length segment ≤ LONGEST_SEGMENT) path.now }
    ensures ok { PutsOptions (segment_options URI_PATH path.now) result options.old options.new }
    ensures last { OnOk result (last_number 0 options.new.list ≤ URI_PATH) }
{
    for index in 0..path.len() {
        match path.get(index) {
            Some(segment) => put_segment(options, URI_PATH, segment)?,
            None => return Ok(()),
        }
    }
    Ok(())
}

/// Writes Content-Format.
fn put_format(options: &mut Opts<'_>, format: Option<u16>) -> Result<(), NoRoom>
    requires { last_number 0 options.old.list ≤ URI_PATH }
    ensures ok { PutsOptions (format_option format) result options.old options.new }
    ensures last { OnOk result (last_number 0 options.new.list ≤ CONTENT_FORMAT) }
{
    match format {
        Some(number) => put_number(options, CONTENT_FORMAT, u32::from(number)),
        None => Ok(()),
    }
}

/// Writes the option of this number that says a block, where there is one.
fn put_block(options: &mut Opts<'_>, number: u16, block: Option<Block>) -> Result<(), NoRoom>
    requires order { last_number 0 options.old.list ≤ number }
    requires block { IfSome block IsBlock }
    ensures ok { PutsOptions (block_option number block) result options.old options.new }
    ensures last { OnOk result (last_number 0 options.new.list ≤ number) }
{
    match block {
        Some(block) => put_block_value(options, number, block),
        None => Ok(()),
    }
}

/// Writes the option of this number that says a block.
#[tactic(auto, using(coap_msg::proofs::OptionParts::last_written))]
fn put_block_value(options: &mut Opts<'_>, number: u16, block: Block) -> Result<(), NoRoom>
    requires order { last_number 0 options.old.list ≤ number }
    requires block { IsBlock block }
    ensures ok { PutsOptions ((number, block_bytes block) ∷ []) result options.old options.new }
    ensures last { OnOk result (last_number 0 options.new.list ≡ number) }
{
    let mut value = [0; 3];
    let size = write_block(block, &mut value);
    options.push(number, &value[..size])
}
