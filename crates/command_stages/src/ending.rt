//! The end of a command: a status and a text, or out of memory.

ghost use Rattle.std.specs.Prelude.{◌≡◌, ◌++◌, codes, decimal, IfOk, MatchResult};
ghost use Rattle.wot_json.specs.Json.{json_string};
ghost use Rattle.command_stages.specs.Lines.{file_line, input_line, invalid_line, no_affordance_line, no_form_line, valid_line};

use command_words::WordsFault;
use servient_script::put_number;
use std::alloc::Global;
use wot_json::{Bytes, NoMemory, quoted};

/// The line where the events were more than the budget.
pub const SPENT_LINE: &[u8] = b"servient: spent\n";

/// The end of a command.
#[derive(Drop)]
pub struct Ending {
    /// The exit status.
    pub status: u8,
    /// The text that is written.
    pub text: Bytes,
}

/// The cause for which a stage of a command gives no value. The lines of the others are fixed, so that nothing is
/// allocated where they are written.
#[derive(Drop)]
pub enum Ended {
    /// The command ends so.
    With(Ending),
    /// The words are no command.
    Usage,
    /// The network failed.
    Network,
    /// The output failed before the end.
    Output,
    /// The budget of events was taken.
    Spent,
    /// Nothing answered in time.
    Silent,
    /// Out of memory.
    NoMemory,
}

impl From<WordsFault> for Ended {
    ghost use Rattle.command_stages.specs.Words.{EndsAs};

    ghost from_gives = { λ fault e. EndsAs fault e };

    fn from(fault: WordsFault) -> Self {
        match fault {
            WordsFault::Usage => Ended::Usage,
            WordsFault::NoMemory => Ended::NoMemory,
        }
    }
}

impl From<NoMemory> for Ended {
    ghost use Rattle.std.specs.Prelude.{◌≡◌};
    ghost use Rattle.command_stages.specs.declared.ending.Ended.TheVariants as ended;

    ghost from_gives = { λ _ e. e ≡ ended.NoMemory };

    fn from(_: NoMemory) -> Self {
        Ended::NoMemory
    }
}

/// The end of a command that should end so, unless its text is out of memory.
pub fn end_with(ending: Result<Ending, NoMemory>) -> Ended
    ensures { MatchResult ending (λ e. result ≡ Ended.With e) (λ _. result ≡ Ended.NoMemory) }
{
    match ending {
        Ok(ending) => Ended::With(ending),
        Err(_) => Ended::NoMemory,
    }
}

impl Ending {
    /// A file is absent or couldn't be read, as `what` says.
    pub fn file(alloc: Global, name: &str, what: &str) -> Result<Ending, NoMemory>
        ensures { IfOk result (λ e. (e.status ≡ 3) × (e.text ≡ file_line name.now what.now)) }
    {
        let mut text = Bytes::copy_of(alloc, b"servient: file ")?;
        text.extend(quoted(alloc, name)?.as_slice())?;
        text.extend(b" ")?;
        text.extend(what.as_bytes())?;
        text.extend(b"\n")?;
        Ok(Ending { status: 3, text })
    }

    /// The content of a file is refused, as `what` says in a word.
    pub fn input(alloc: Global, name: &str, what: &str) -> Result<Ending, NoMemory>
        ensures { IfOk result (λ e. (e.status ≡ 4) × (e.text ≡ input_line name.now what.now)) }
    {
        Ending::input_bytes(alloc, name, what.as_bytes())
    }

    /// The content of a file is refused, as these bytes say.
    pub fn input_bytes(alloc: Global, name: &str, what: &[u8]) -> Result<Ending, NoMemory>
        ensures { IfOk result (λ e. (e.status ≡ 4) × (e.text ≡ input_line name.now what.now)) }
    {
        let mut text = input_text(alloc, name)?;
        text.extend(what)?;
        text.extend(b"\n")?;
        Ok(Ending { status: 4, text })
    }

    /// A number at this place of a file isn't whole or needs more than 64 bits with sign.
    pub fn number(alloc: Global, name: &str, place: &str) -> Result<Ending, NoMemory>
        ensures { IfOk result (λ e.
            (e.status ≡ 4) × (e.text ≡ input_line name.now (codes "number " ++ json_string place.now))) }
    {
        Ending::input_at(alloc, name, b"number ", place)
    }

    /// The content of a file is refused at a place, as `what` says.
    pub fn input_at(alloc: Global, name: &str, what: &[u8], place: &str) -> Result<Ending, NoMemory>
        ensures { IfOk result (λ e.
            (e.status ≡ 4) × (e.text ≡ input_line name.now (what.now ++ json_string place.now))) }
    {
        let mut text = input_text(alloc, name)?;
        text.extend(what)?;
        text.extend(quoted(alloc, place)?.as_slice())?;
        text.extend(b"\n")?;
        Ok(Ending { status: 4, text })
    }

    /// A plan has this member wrong first.
    pub fn plan(alloc: Global, name: &str, place: &str) -> Result<Ending, NoMemory>
        ensures { IfOk result (λ e.
            (e.status ≡ 4) × (e.text ≡ input_line name.now (codes "plan " ++ json_string place.now))) }
    {
        Ending::input_at(alloc, name, b"plan ", place)
    }

    /// A description has no fault.
    pub fn valid(alloc: Global) -> Result<Ending, NoMemory>
        ensures { IfOk result (λ e. (e.status ≡ 0) × (e.text ≡ valid_line)) }
    {
        let text = Bytes::copy_of(alloc, b"valid\n")?;
        Ok(Ending { status: 0, text })
    }

    /// A description breaks the condition of this number at this place.
    pub fn invalid(alloc: Global, number: u8, place: &str) -> Result<Ending, NoMemory>
        ensures { IfOk result (λ e. (e.status ≡ 5) × (e.text ≡ invalid_line number place.now)) }
    {
        let mut text = Bytes::copy_of(alloc, b"servient: refused invalid ")?;
        put_number(&mut text, number)?;
        text.extend(b" ")?;
        text.extend(quoted(alloc, place)?.as_slice())?;
        text.extend(b"\n")?;
        Ok(Ending { status: 5, text })
    }

    /// A description has no affordance of the name that has the operation.
    pub fn no_affordance(alloc: Global) -> Result<Ending, NoMemory>
        ensures { IfOk result (λ e. (e.status ≡ 12) × (e.text ≡ no_affordance_line)) }
    {
        let text = Bytes::copy_of(alloc, b"servient: no affordance\n")?;
        Ok(Ending { status: 12, text })
    }

    /// None of the forms qualifies.
    pub fn no_form(alloc: Global) -> Result<Ending, NoMemory>
        ensures { IfOk result (λ e. (e.status ≡ 12) × (e.text ≡ no_form_line)) }
    {
        let text = Bytes::copy_of(alloc, b"servient: no form\n")?;
        Ok(Ending { status: 12, text })
    }

    /// A line of a file, counted from 1, is outside the grammar.
    pub fn bad_line(alloc: Global, name: &str, line: u32) -> Result<Ending, NoMemory>
        ensures { IfOk result (λ e.
            (e.status ≡ 4) × (e.text ≡ input_line name.now (codes "line " ++ decimal line))) }
    {
        let mut text = input_text(alloc, name)?;
        text.extend(b"line ")?;
        put_number(&mut text, line)?;
        text.extend(b"\n")?;
        Ok(Ending { status: 4, text })
    }
}

/// The beginning of the line on a faulty file.
fn input_text(alloc: Global, name: &str) -> Result<Bytes, NoMemory>
    ensures { IfOk result (λ b. b ≡ codes "servient: input " ++ json_string name.now ++ codes " ") }
{
    let mut text = Bytes::copy_of(alloc, b"servient: input ")?;
    text.extend(quoted(alloc, name)?.as_slice())?;
    text.extend(b" ")?;
    Ok(text)
}
