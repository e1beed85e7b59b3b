//! The values of the options of a request, found in one go over them.

ghost use Rattle.std.specs.Prelude.{◌≡◌, ◌++◌, [], ◌∷◌, false, OnOk, IfErr, Some};
ghost use Rattle.std.specs.List.{list_any};
ghost use Rattle.coap_opts.specs.Reading.{faults_of, values_under, IsRefusal};
ghost use Rattle.coap_opts.specs.Found.{first_value, kept_first, asks_for_version};

use crate::AskFault;
use crate::known::option_fault;
use coap_msg::{
    ACCEPT, BLOCK1, BLOCK2, CONTENT_FORMAT, ETAG, IF_MATCH, IF_NONE_MATCH, OBSERVE, Options,
    URI_PATH,
};
use thing_ops::{NoMemory, Segments};

/// The values that were found so far: the path, and the first value of each number.
#[derive(Drop)]
pub struct FoundOptions<'a> {
    /// The values of Uri-Path.
    pub path: Segments,
    /// The first value of Observe.
    pub observe: Option<&'a [u8]>,
    /// The first value of Content-Format.
    pub format: Option<&'a [u8]>,
    /// The first value of Accept.
    pub accept: Option<&'a [u8]>,
    /// The first value of Block2.
    pub block2: Option<&'a [u8]>,
    /// The first value of Block1.
    pub block1: Option<&'a [u8]>,
    /// An option asks for a version.
    pub conditional: bool,
}

impl<'a> FoundOptions<'a> {
    ghost use Rattle.std.specs.Prelude.{◌≡◌, ◌++◌, ◌||◌, [], ◌∷◌, OnOk};
    ghost use Rattle.std.specs.Option.{option_or};
    ghost use Rattle.coap_opts.specs.Reading.{values_under};
    ghost use Rattle.coap_opts.specs.Found.{first_value, kept_first, asks_for_version};

    /// Notes one more option.
    fn note(&mut self, number: u16, value: &'a [u8]) -> Result<(), NoMemory>
        ensures path { OnOk result (self.new.path ≡ self.old.path ++ values_under 11 ((number, value.now) ∷ [])) }
        ensures observe { OnOk result (kept_first self.new.observe ≡
            option_or (kept_first self.old.observe) (first_value 6 ((number, value.now) ∷ []))) }
        ensures format { OnOk result (kept_first self.new.format ≡
            option_or (kept_first self.old.format) (first_value 12 ((number, value.now) ∷ []))) }
        ensures accept { OnOk result (kept_first self.new.accept ≡
            option_or (kept_first self.old.accept) (first_value 17 ((number, value.now) ∷ []))) }
        ensures block2 { OnOk result (kept_first self.new.block2 ≡
            option_or (kept_first self.old.block2) (first_value 23 ((number, value.now) ∷ []))) }
        ensures block1 { OnOk result (kept_first self.new.block1 ≡
            option_or (kept_first self.old.block1) (first_value 27 ((number, value.now) ∷ []))) }
        ensures conditional { OnOk result (self.new.conditional ≡ (self.old.conditional || asks_for_version (number, value.now))) }
    {
        match number {
            // Returned here, as this alone may run out of memory.
            URI_PATH => return self.path.push(value),
            OBSERVE => self.observe = self.observe.or(Some(value)),
            CONTENT_FORMAT => self.format = self.format.or(Some(value)),
            ACCEPT => self.accept = self.accept.or(Some(value)),
            BLOCK2 => self.block2 = self.block2.or(Some(value)),
            BLOCK1 => self.block1 = self.block1.or(Some(value)),
            IF_MATCH | ETAG | IF_NONE_MATCH => self.conditional = true,
            _ => {}
        }
        Ok(())
    }
}

/// Finds all values of some options that count, where nothing is found yet, or gives the fault of the first option that
/// has one.
pub fn note_all<'a>(found: &mut FoundOptions<'a>, options: &Options<'a>) -> Result<(), AskFault>
    requires path { found.old.path ≡ [] }
    requires observe { kept_first found.old.observe ≡ None }
    requires format { kept_first found.old.format ≡ None }
    requires accept { kept_first found.old.accept ≡ None }
    requires block2 { kept_first found.old.block2 ≡ None }
    requires block1 { kept_first found.old.block1 ≡ None }
    requires conditional { found.old.conditional ≡ false }
    ensures faultless { OnOk result (faults_of options.now ≡ []) }
    ensures path { OnOk result (found.new.path ≡ values_under 11 options.now) }
    ensures observe { OnOk result (kept_first found.new.observe ≡ first_value 6 options.now) }
    ensures format { OnOk result (kept_first found.new.format ≡ first_value 12 options.now) }
    ensures accept { OnOk result (kept_first found.new.accept ≡ first_value 17 options.now) }
    ensures block2 { OnOk result (kept_first found.new.block2 ≡ first_value 23 options.now) }
    ensures block1 { OnOk result (kept_first found.new.block1 ≡ first_value 27 options.now) }
    ensures conditional { OnOk result (found.new.conditional ≡ list_any asks_for_version options.now) }
    ensures fault { IfErr result (λ e. IsRefusal options.now e) }
{
    let mut before = None;
    for (number, value) in options.iter() {
        match option_fault(before, number, value) {
            Some(fault) => return Err(fault),
            // A match and not `?`, since out of memory a wrong option is looked for first.
            None => match found.note(number, value) {
                Ok(()) => before = Some(number),
                Err(_) => return Err(refusal(options)),
            },
        }
    }
    Ok(())
}

/// The refusal of a request with these options where memory is out.
pub fn refusal(options: &Options<'_>) -> AskFault
    ensures { IsRefusal options.now result }
{
    let mut before = None;
    for (number, value) in options.iter() {
        match option_fault(before, number, value) {
            Some(fault) => return fault,
            None => before = Some(number),
        }
    }
    AskFault::NoMemory
}
