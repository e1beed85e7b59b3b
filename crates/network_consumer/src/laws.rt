//! Laws over whole operations.

ghost use Rattle.network_consumer.specs.Failing.{FailingBreaksTheNetwork};

/// A call of the network failed in each operation that ended so.
pub fn failing_breaks_the_network()
    ensures { FailingBreaksTheNetwork }
{}
