//! Links, their targets and their parameters.

ghost use Rattle.std.specs.Prelude.{◌≡◌, ◌++◌, [], ◌∷◌, OnOk};

use servient_base::NoMemory;
use std::alloc::Global;
use std::marker::Model;
use wot_json::Bytes;

/// A parameter: its name, and its value if it has one.
#[derive(Debug, Drop)]
pub struct Param {
    pub name: Bytes,
    pub value: Option<Bytes>,
}

/// The parameters of a link, in their order. Contracts see the list of them.
#[derive(Debug, Drop)]
pub struct Params {
    list: Vec<Param>,
}

impl Model for Params {
    ghost use Rattle.std.specs.Prelude.{List};
    ghost use Rattle.core_links.specs.declared.links.Param.{Param};

    ghost Value = { List Param };

    ghost view = { λ p. p.list.items };
}

impl Params {
    /// No parameters.
    pub fn new(alloc: Global) -> Self
        ensures { result ≡ [] }
    {
        Params {
            list: Vec::new(alloc),
        }
    }

    /// Puts a parameter after the others.
    pub fn push(&mut self, param: Param) -> Result<(), NoMemory>
        ensures { OnOk result (self.new ≡ self.old ++ param ∷ []) }
    {
        self.list.push(param)?;
        Ok(())
    }

    /// The parameters, in their order.
    pub fn as_slice(&self) -> &[Param]
        ensures { result.now ≡ self.now }
    {
        self.list.as_slice()
    }
}

/// A link: its target, a URI reference, and its parameters.
#[derive(Debug, Drop)]
pub struct Link {
    pub target: Bytes,
    pub params: Params,
}

/// Links, in their order. Contracts see the list of them.
#[derive(Debug, Drop)]
pub struct Links {
    list: Vec<Link>,
}

impl Model for Links {
    ghost use Rattle.std.specs.Prelude.{List};
    ghost use Rattle.core_links.specs.declared.links.Link.{Link};

    ghost Value = { List Link };

    ghost view = { λ l. l.list.items };
}

impl Links {
    /// No links.
    pub fn new(alloc: Global) -> Self
        ensures { result ≡ [] }
    {
        Links {
            list: Vec::new(alloc),
        }
    }

    /// Puts a link after the others.
    pub fn push(&mut self, link: Link) -> Result<(), NoMemory>
        ensures { OnOk result (self.new ≡ self.old ++ link ∷ []) }
    {
        self.list.push(link)?;
        Ok(())
    }

    /// The links, in their order.
    pub fn as_slice(&self) -> &[Link]
        ensures { result.now ≡ self.now }
    {
        self.list.as_slice()
    }
}
