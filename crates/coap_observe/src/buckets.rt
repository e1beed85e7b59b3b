//! The bucket of a target. The contracts of the observers rest only on its being a function.

ghost use Rattle.std.specs.Prelude.{◌≡◌, ◌<◌};
ghost use Rattle.coap_observe.specs.Buckets.{target_bucket};

use servient_base::Target;

/// The bucket of a target, of `count` buckets.
pub fn target_bucket(target: Target, count: u32) -> u32
    requires { 0 < count }
    ensures bucket { result ≡ target_bucket count target }
    ensures within { result < count }
{
    target % count
}
