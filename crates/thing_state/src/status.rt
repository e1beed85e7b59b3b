//! The status of an invocation as a JSON text, written into a room.

ghost use Rattle.std.specs.Prelude.{◌≡◌, ◌≤◌, ◌++◌, [], length, option_map};
ghost use Rattle.thing_state.specs.State.{completed, output_text, running, status_text};
ghost use Rattle.thing_state.specs.Course.{FitsValue};

use crate::room::TextRoom;
use itoa::Buffer;

/// Puts the status of one that runs into an empty room.
pub fn put_running(room: &mut TextRoom, id: u64)
    requires { room.old ≡ [] }
    ensures { room.new ≡ status_text id running }
{
    let mut digits = Buffer::new();
    room.put(b"{\"id\":");
    room.put(digits.format(id).as_bytes());
    room.put(b",\"status\":\"running\"}");
}

/// Puts the status of one that is completed, with this output where it has one, into an empty room.
pub fn put_completed(room: &mut TextRoom, id: u64, output: Option<&[u8]>)
    requires empty { room.old ≡ [] }
    requires output { FitsValue (option_map (λ t. t.now) output) }
    ensures { room.new ≡ status_text id (completed (option_map (λ t. t.now) output.entry)) }
{
    let mut digits = Buffer::new();
    room.put(b"{\"id\":");
    room.put(digits.format(id).as_bytes());
    put_output(room, output);
    room.put(b",\"status\":\"completed\"}");
}

/// Puts the member of an output, where there is one, after what is in a room.
fn put_output(room: &mut TextRoom, output: Option<&[u8]>)
    requires output { FitsValue (option_map (λ t. t.now) output) }
    requires room { length room.old ≤ 64 }
    ensures { room.new ≡ room.old ++ output_text (option_map (λ t. t.now) output.entry) }
{
    match output {
        Some(text) => {
            room.put(b",\"output\":");
            room.put(text);
        }
        None => {}
    }
}
