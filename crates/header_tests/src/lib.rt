//! Tests of the crates that read and write bytes: numbers ([`net_bytes`]), sources and sinks ([`off_io`]), checksums
//! ([`inet_sum`]), the headers of each layer ([`eth_vlan`], [`ip_headers`], [`tcp_headers`], [`vxlan`]), the shapes of
//! frames, their flows and queues ([`frame_layout`]), captures ([`pcap_io`]), the headers of merged frames
//! ([`header_fill`]) and filters ([`tap_filter`]).
//!
//! A crate of their own, since one with tests is proved twice, with them and without.
#![tactic(auto)]

#[cfg(test)]
mod captures;
#[cfg(test)]
mod checksums;
#[cfg(test)]
mod datagrams;
#[cfg(test)]
mod encapsulated;
#[cfg(test)]
mod ethernet;
#[cfg(test)]
mod examples;
#[cfg(test)]
mod filling;
#[cfg(test)]
mod filters;
#[cfg(test)]
mod internet;
#[cfg(test)]
mod layouts;
#[cfg(test)]
mod numbers;
#[cfg(test)]
mod queues;
#[cfg(test)]
mod seeing;
#[cfg(test)]
mod sources;
#[cfg(test)]
mod transport;
#[cfg(test)]
mod tunnels;
