//! The bucket of an endpoint and a number, as tables of exchanges and of observers keep them. What these say rests only on
//! its being one function of both. It has no key, because no call hands in a secret: whoever can forge sources can choose
//! them so that all fall into one bucket, whose list is then as long as the table.

ghost use Rattle.std.specs.Prelude.{◌≡◌, ◌<◌};
ghost use Rattle.coap_msg.specs.Buckets.{scattered, bucket};

use crate::Endpoint;

/// The bucket of an endpoint and a number, as a message ID, of `count` buckets.
pub fn bucket_of(from: Endpoint, id: u16, count: u32) -> u32
    requires { 0 < count }
    ensures bucket { result ≡ bucket count from id }
    ensures within { result < count }
{
    let high = (from.host >> 64) as u64;
    let low = (from.host % (1 << 64)) as u64;
    let host = scatter(scatter(high) ^ low);
    let all = scatter(host ^ (from.port as u64 * (1 << 16) + id as u64));
    (all % count as u64) as u32
}

/// A number of which each bit depends on all bits of this one, one to one: the last step of the generator SplitMix64.
fn scatter(number: u64) -> u64
    ensures { result ≡ scattered number }
{
    let first = (number ^ (number >> 30)).wrapping_mul(0xbf58_476d_1ce4_e5b9);
    let second = (first ^ (first >> 27)).wrapping_mul(0x94d0_49bb_1331_11eb);
    second ^ (second >> 31)
}
