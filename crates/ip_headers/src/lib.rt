//! The headers of IPv4 (RFC 791, section 3.1) and IPv6 (RFC 8200, section 3).
//!
//! [`Ip4View`] and [`Ip6View`] read the fields of a header that stands in a frame. `read` gives a view exactly where
//! the header is there (`found`), and each reader gives the number or the address in the field's bytes (`field`). Where
//! a caller knows that the header is there, the readers of [`ip4`] and [`ip6`] do without the view; the first bytes of
//! a frame are enough (`front`). The writers [`set_total`], [`set_id`], [`set_header_sum`] and [`set_payload_len`]
//! write the number's bytes into the field (`written`): its reader then gives it (`field`), and all other bytes stay
//! (`others`).
//!
//! ```
//! if let Some(header) = Ip4View::read(frame, 14) {
//!     let next = header.identification().wrapping_add(1);
//!     set_id(copy, 14, next);
//! }
//! ```
//!
//! Tests: `header_tests`, module `internet`.
//!
//! Why so:
//!
//! - **A field reader has the short name of the header table** (`ttl`, `tci`, `vni`, `header_sum`), its definition the
//!   standard's (`time_to_live`, `control`, `network_identifier`, `header_checksum`).
#![tactic(auto)]

pub mod ip4;
pub mod ip6;

pub use ip4::{Ip4View, set_header_sum, set_id, set_total};
pub use ip6::{Ip6View, set_payload_len};
