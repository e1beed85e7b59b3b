//! The place where the network listens, and the time that it stays without traffic.

use wot_json::Text;

/// The two addresses that are listened on: one for HTTP over TCP and one for CoAP over UDP.
#[derive(Debug, Drop)]
pub struct Place {
    pub http_host: Text,
    pub http_port: u16,
    pub coap_host: Text,
    pub coap_port: u16,
    /// The run stops after this many milliseconds without traffic; 0 if it never does for lack of traffic.
    pub idle: u64,
}
