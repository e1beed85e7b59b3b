//! Schemes of forms' URLs.

/// The scheme of a form's URL.
#[derive(Clone, Copy, Debug, Drop, PartialEq, Eq)]
pub enum Scheme {
    Http,
    Coap,
}
