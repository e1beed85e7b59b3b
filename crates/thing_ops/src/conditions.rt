//! The conditions of a request on the version that a property has (RFC 9110, section 13.1; RFC 7252, section 5.10.8).
//!
//! Versions of a property are numbers, which count what was seen of it: 0 before anything was.

ghost use Rattle.std.specs.Prelude.{◌≡◌, ◌++◌, ◌∷◌, [], List, ℕ, OnErr, OnOk};

use servient_base::NoMemory;
use std::alloc::Global;
use std::marker::Model;

/// Versions that a request names. Contracts see the list of them.
#[derive(Debug, Drop)]
pub struct Versions {
    numbers: Vec<u32>,
}

impl Model for Versions {
    ghost Value = { List ℕ };

    ghost view = { λ v. v.numbers.items };
}

impl Versions {
    /// Puts a version at the end.
    pub fn push(&mut self, version: u32) -> Result<(), NoMemory>
        ensures ok { OnOk result (self.new ≡ self.old ++ version ∷ []) }
        ensures unchanged { OnErr result (self.new ≡ self.old) }
    {
        self.numbers.push(version)?;
        Ok(())
    }

    /// The versions as a slice.
    pub fn as_slice(&self) -> &[u32]
        ensures { result.now ≡ self.now }
    {
        self.numbers.as_slice()
    }
}

/// Versions that are named one by one, or any version.
#[derive(Debug, Drop)]
pub struct Tags {
    /// Any version, as `*` says (RFC 9110, section 13.1.1) and an empty If-Match option (RFC 7252, section 5.10.8.1).
    pub any: bool,
    /// These versions.
    pub list: Versions,
}

impl Tags {
    ghost use Rattle.thing_ops.specs.Conditions.{has as has_version, no_tags};

    /// No version. It takes no memory.
    pub fn none(alloc: Global) -> Self
        ensures { result ≡ no_tags }
    {
        Tags {
            any: false,
            list: Versions {
                numbers: Vec::new(alloc),
            },
        }
    }

    /// This version is among them.
    pub fn has(&self, version: u32) -> bool
        ensures { result ≡ has_version self.now version }
    {
        self.any || self.list.numbers.contains(&version)
    }
}

/// The conditions of a request on the version that a property has. None of this stands in a request without conditions.
#[derive(Debug, Drop)]
pub struct Conditions {
    /// The version is among these, where it asks so: If-Match.
    pub if_match: Option<Tags>,
    /// The versions that its sender has: If-None-Match in HTTP, ETag in CoAP.
    pub known: Tags,
    /// Nothing is there: `If-None-Match: *` of a request to write (RFC 9110, section 13.1.2), and the option
    /// If-None-Match (RFC 7252, section 5.10.8.2). It fails for each property, since a property always is there.
    pub absent: bool,
}

impl Conditions {
    ghost use Rattle.thing_ops.specs.Conditions.{fails as fails_at, fails_to_write as fails_to_write_at, no_conditions};

    /// Nothing is asked. It takes no memory.
    pub fn none(alloc: Global) -> Self
        ensures { result ≡ no_conditions }
    {
        Conditions {
            if_match: None,
            known: Tags::none(alloc),
            absent: false,
        }
    }

    /// A property of this version isn't what the request asks.
    pub fn fails(&self, version: u32) -> bool
        ensures { result ≡ fails_at self.now version }
    {
        self.absent
            || match &self.if_match {
                Some(tags) => !tags.has(version),
                None => false,
            }
    }

    /// The same of a request to write, whose sender mustn't have that version (RFC 9110, section 13.1.2).
    pub fn fails_to_write(&self, version: u32) -> bool
        ensures { result ≡ fails_to_write_at self.now version }
    {
        self.fails(version) || self.known.has(version)
    }
}
