//! The header of an Ethernet frame (IEEE 802.3, clause 3.2) and the VLAN tags behind it (IEEE 802.1Q, clause 9.6).
//!
//! [`EthView`] and [`TagView`] read the fields of a header that stands in a frame. `read` gives a view exactly where
//! the header's bytes are there (`found`), and each reader gives the number or the address in the field's bytes
//! (`field`). Whether a tag follows is said by the type before it: [`is_tag`].
//!
//! ```
//! let mut vlan = None;
//! if let Some(ethernet) = EthView::read(frame, 0)
//!     && is_tag(ethernet.ether_type())
//!     && let Some(tag) = TagView::read(frame, 14)
//! {
//!     vlan = Some(tag.tci() & 0x0fff);
//! }
//! ```
//!
//! Tests: `header_tests`, module `ethernet`.
#![tactic(auto)]

mod ethernet;
mod tag;

pub use ethernet::EthView;
pub use tag::{TagView, is_tag};
