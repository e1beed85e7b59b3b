//! A form of a Thing Description, and lists of forms.

ghost use Rattle.std.specs.Prelude.{◌≡◌, ◌++◌, [], ◌∷◌, OnOk, OnErr};

use crate::Ops;
use std::alloc::Global;
use std::marker::Model;
use wot_json::{NoMemory, Text};

/// A form (TD 1.1, section 5.3.4.2), with its defaults filled in.
#[derive(Debug, Drop)]
pub struct Form {
    /// The URL of the operations, as it is written: `resolve` joins it to a base.
    pub href: Text,
    /// The operations of the form: its `op` as it is written, also where that names an operation twice.
    pub ops: Ops,
    /// The media type of what is sent and received.
    pub content_type: Text,
    /// The way in which the protocol is used, as `longpoll`.
    pub subprotocol: Option<Text>,
    /// The HTTP method that the form names, `htv:methodName`.
    pub method: Option<Text>,
}

/// Forms in order. Contracts see the list of them.
#[derive(Debug, Drop)]
pub struct Forms {
    list: Vec<Form>,
}

impl Model for Forms {
    ghost use Rattle.std.specs.Prelude.{List};
    ghost use Rattle.wot_forms.specs.declared.form.Form.{Form};
    ghost use Rattle.wot_forms.specs.FormCodes.{forms_code};

    ghost Value = { List Form };

    ghost coded = { forms_code };

    ghost view = { λ f. f.list.items };
}

impl Forms {
    /// No forms.
    pub fn new(alloc: Global) -> Self
        ensures { result ≡ [] }
    {
        Forms {
            list: Vec::new(alloc),
        }
    }

    /// Puts a form at the end.
    pub fn push(&mut self, form: Form) -> Result<(), NoMemory>
        ensures ok { OnOk result (self.new ≡ self.old ++ form ∷ []) }
        ensures unchanged { OnErr result (self.new ≡ self.old) }
    {
        self.list.push(form)?;
        Ok(())
    }

    /// The forms as a slice.
    pub fn as_slice(&self) -> &[Form]
        ensures { result.now ≡ self.now }
    {
        self.list.as_slice()
    }
}
