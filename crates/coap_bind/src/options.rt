//! Writing the options of replies and of notifications, one part after another.

ghost use Rattle.std.specs.Prelude.{◌≡◌, ◌≤◌, ◌++◌, [], ◌∷◌, Some, length, slice_index_or, All, OnOk, if◌then◌else◌};
ghost use Rattle.coap_msg.specs.Blocks.{IsBlock, block_bytes};
ghost use Rattle.coap_msg.specs.Grammar.{largest_number};
ghost use Rattle.coap_msg.specs.Numbers.{number_bytes};
ghost use Rattle.coap_msg.specs.Opts.{last_number, PutsOptions, segment_options};
ghost use Rattle.coap_bind.specs.Blocks.{block_options, content_format};
ghost use Rattle.coap_bind.specs.Portions.{HoldsBlock};
ghost use Rattle.coap_bind.specs.Writing.{place_of, format_options, text_format, etag_options, observe_options, optional};
ghost use Rattle.thing_ops.specs.Outcomes.{version_of};

use crate::blocks::BlockOption;
use coap_msg::{
    BLOCK1, BLOCK2, Block, CONTENT_FORMAT, ETAG, JSON, LOCATION_PATH, NoRoom, OBSERVE, Opts,
    TD_JSON, put_number, put_segment, write_block,
};
use thing_ops::{Outcome, Segments};

/// Writes the options of an outcome's reply, where none are written yet; with Observe, where it says a sequence number.
/// They go in the order of their numbers, as RFC 7252 (section 3.1) asks.
pub fn put_options(
    observe: Option<u32>,
    outcome: &Outcome,
    options: &mut Opts<'_>,
) -> Result<(), NoRoom>
    requires empty { options.old.list ≡ [] }
    requires segments { All (λ segment. length segment ≤ largest_number) (place_of outcome.now) }
    ensures ok { PutsOptions (etag_options (version_of outcome.now) ++ (observe_options observe ++ (segment_options LOCATION_PATH (place_of outcome.now) ++ format_options outcome.now))) result options.old options.new }
    ensures last { OnOk result (last_number 0 options.new.list ≤ CONTENT_FORMAT) }
{
    put_optional(options, ETAG, outcome.version())?;
    put_optional(options, OBSERVE, observe)?;
    put_place(outcome, options)?;
    match outcome.text() {
        Some(_) => put_number(options, CONTENT_FORMAT, u32::from(text_format(outcome))),
        None => Ok(()),
    }
}

/// Writes the options of a notification, where none are written yet.
pub fn put_notification_options(sequence: u32, options: &mut Opts<'_>) -> Result<(), NoRoom>
    requires { options.old.list ≡ [] }
    ensures { PutsOptions (observe_options (Some sequence) ++ (CONTENT_FORMAT, number_bytes JSON) ∷ []) result options.old options.new }
{
    put_number(options, OBSERVE, sequence)?;
    put_number(options, CONTENT_FORMAT, u32::from(JSON))
}

/// Writes the option of this number with this value, if there is a value.
fn put_optional(options: &mut Opts<'_>, number: u16, value: Option<u32>) -> Result<(), NoRoom>
    requires { last_number 0 options.old.list ≤ number }
    ensures ok { PutsOptions (optional number value) result options.old options.new }
    ensures last { OnOk result (last_number 0 options.new.list ≤ number) }
{
    match value {
        Some(value) => put_number(options, number, value),
        None => Ok(()),
    }
}

/// Writes the place of a started action.
fn put_place(outcome: &Outcome, options: &mut Opts<'_>) -> Result<(), NoRoom>
    requires order { last_number 0 options.old.list ≤ OBSERVE }
    requires segments { All (λ segment. length segment ≤ largest_number) (place_of outcome.now) }
    ensures ok { PutsOptions (segment_options LOCATION_PATH (place_of outcome.now)) result options.old options.new }
    ensures last { OnOk result (last_number 0 options.new.list ≤ LOCATION_PATH) }
{
    match outcome {
        Outcome::Started(place, _) => put_location(options, place),
        _ => Ok(()),
    }
}

/// Writes one Location-Path for each segment, by its number, as `Segments` has no iterator.
fn put_location(options: &mut Opts<'_>, place: &Segments) -> Result<(), NoRoom>
    requires order { last_number 0 options.old.list ≤ LOCATION_PATH }
    requires segments { All (λ segment. length segment ≤ largest_number) place.now }
    ensures ok { PutsOptions (segment_options LOCATION_PATH place.now) result options.old options.new }
    ensures last { OnOk result (last_number 0 options.new.list ≤ LOCATION_PATH) }
{
    for index in 0..place.len() {
        match place.get(index) {
            Some(segment) => put_segment(options, LOCATION_PATH, segment)?,
            None => return Ok(()),
        }
    }
    Ok(())
}

/// The content format of an outcome's text.
pub fn text_format(outcome: &Outcome) -> u16
    ensures { result ≡ text_format outcome.now }
{
    match outcome {
        Outcome::Description(_, true) => TD_JSON,
        _ => JSON,
    }
}

/// Writes the options of a body that is kept, where none are written yet: ETag, where it has a version, and
/// Content-Format, where it has a format.
pub fn put_content_options(
    version: Option<u32>,
    format: Option<u16>,
    options: &mut Opts<'_>,
) -> Result<(), NoRoom>
    requires { options.old.list ≡ [] }
    ensures ok { PutsOptions (etag_options version ++ content_format format) result options.old options.new }
    ensures last { OnOk result (last_number 0 options.new.list ≤ CONTENT_FORMAT) }
{
    put_optional(options, ETAG, version)?;
    put_content_format(format, options)
}

/// Writes a content format, where there is one.
fn put_content_format(format: Option<u16>, options: &mut Opts<'_>) -> Result<(), NoRoom>
    requires { last_number 0 options.old.list ≤ ETAG }
    ensures ok { PutsOptions (content_format format) result options.old options.new }
    ensures last { OnOk result (last_number 0 options.new.list ≤ CONTENT_FORMAT) }
{
    match format {
        Some(format) => put_number(options, CONTENT_FORMAT, u32::from(format)),
        None => Ok(()),
    }
}

/// Writes the option that says a block after all others, where there is one.
pub fn put_block(option: Option<BlockOption>, options: &mut Opts<'_>) -> Result<(), NoRoom>
    requires order { last_number 0 options.old.list ≤ CONTENT_FORMAT }
    requires block { HoldsBlock option }
    ensures { PutsOptions (block_options option) result options.old options.new }
{
    match option {
        Some(BlockOption::Block2(block)) => put_block_value(BLOCK2, block, options),
        Some(BlockOption::Block1(block)) => put_block_value(BLOCK1, block, options),
        None => Ok(()),
    }
}

/// Writes the option of this number that says a block.
fn put_block_value(number: u16, block: Block, options: &mut Opts<'_>) -> Result<(), NoRoom>
    requires order { last_number 0 options.old.list ≤ number }
    requires block { IsBlock block }
    ensures { PutsOptions ((number, block_bytes block) ∷ []) result options.old options.new }
{
    let mut value = [0u8; 3];
    let size = write_block(block, &mut value);
    options.push(number, &value[..size])
}
