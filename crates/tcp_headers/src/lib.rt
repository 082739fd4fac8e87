//! The headers of TCP (RFC 9293, section 3.1) and UDP (RFC 768).
//!
//! [`TcpView`] and [`UdpView`] read the fields of a header that stands in a frame. `read` gives a view exactly where
//! the header is there (`found`), and each reader gives the number in the field's bytes (`field`). Where a caller knows
//! that the header is there, the readers of [`tcp`] and [`udp`] do without the view; the first bytes of a frame are
//! enough (`front`). The writers [`set_seq`], [`set_flags`], [`set_tcp_sum`], [`set_udp_len`] and [`set_udp_sum`] write
//! the number's bytes into the field (`written`): its reader then gives it (`field`), and all other bytes stay
//! (`others`).
//!
//! ```
//! if let Some(header) = TcpView::read(frame, 34) {
//!     let next = header.sequence().wrapping_add(1448);
//!     set_seq(copy, 34, next);
//! }
//! ```
//!
//! Tests: `header_tests`, module `transport`.
#![tactic(auto)]

pub mod tcp;
pub mod udp;

pub use tcp::{TcpView, set_flags, set_seq, set_tcp_sum};
pub use udp::{UdpView, set_udp_len, set_udp_sum};
