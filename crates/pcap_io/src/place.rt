//! Where in a capture a reader stands.
ghost use Rattle.std.specs.Prelude.{◌≡◌, false, ◌≤◌, ◌^◌, length, IfOk, OnOk, IfErr, None};
ghost use Rattle.pcap_io.specs.Headers.{first_that_holds, head_refusals, captured_limit, is_bad_original};
ghost use Rattle.pcap_io.specs.Headers.{lacks_off_head};
ghost use Rattle.pcap_io.specs.Places.{Counted, EntersBody, first_place, IsHead, IsRefusal};

use crate::judge::refuse_head;
use crate::{CapFault, FileHead, Link, RecHead};

/// Where in a capture a reader stands. A reader alone moves it; others may look.
#[derive(Clone, Copy, Debug)]
pub struct Place {
    /// What the file header said. Record headers are read in its byte order.
    pub file: FileHead,
    pub link: Link,
    /// The number of the next record.
    pub number: u64,
    /// Where the next record begins.
    pub offset: u64,
    /// Where the record begins whose body is being read.
    pub current: u64,
    /// How much of that body is left.
    pub body: u32,
    /// Whether the end or a refusal was answered.
    pub is_done: bool,
}

impl Place {
    // Before the first record, which gets this number.
    pub(crate) fn first(file: FileHead, link: Link, number: u64) -> Place
        ensures first { result ≡ first_place file link number }
    {
        Place {
            file,
            link,
            number,
            offset: 24,
            current: 24,
            body: 0,
            is_done: false,
        }
    }

    // Goes past the header of the next record.
    pub(crate) fn enter(&mut self, head: &[u8]) -> Result<RecHead, CapFault>
        requires counted { Counted self.old }
        requires size { length head.now ≤ 16 }
        requires goes_on { self.old.is_done ≡ false }
        ensures lawful { OnOk result (first_that_holds
            (head_refusals self.old.file.order self.old.link self.old.number head.now) ≡ None) }
        ensures fields { IfOk result (IsHead self.old head.now) }
        ensures limit { IfOk result (λ it. it.captured ≤ captured_limit self.old.link) }
        ensures original { IfOk result (λ it. is_bad_original self.old.link it.original ≡ false) }
        ensures off_head { IfOk result (λ it. lacks_off_head self.old.link it.captured ≡ false) }
        ensures enters { IfOk result (EntersBody self.old self.new) }
        ensures counted { OnOk result (Counted self.new) }
        ensures refused { IfErr result (IsRefusal self.old
            (head_refusals self.old.file.order self.old.link self.old.number head.now)) }
    {
        let order = self.file.order;
        if let Some(kind) = refuse_head(order, self.link, self.number, head) {
            return Err(CapFault {
                kind,
                offset: self.offset,
                number: self.number,
            });
        }
        let found = RecHead {
            sec: order.get32(head),
            frac: order.get32(&head[4..]),
            captured: order.get32(&head[8..]),
            original: order.get32(&head[12..]),
            number: self.number as u32,
            offset: self.offset,
        };
        self.current = self.offset;
        self.offset += 16 + u64::from(found.captured);
        self.number += 1;
        self.body = found.captured;
        Ok(found)
    }
}
