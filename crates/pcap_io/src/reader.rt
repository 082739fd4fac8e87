//! Reads a capture from a source, header by header and body by body.
ghost use Rattle.std.specs.Prelude.{◌≡◌, ◌≤◌, ◌<◌, ◌^◌, length, false, true, IfOk, OnOk, OnErr, IfSome, IfNone, Ok};
ghost use Rattle.std.specs.Prelude.{Err};
ghost use Rattle.std.specs.Borrow.{sem, RestsIfErr};
ghost use Rattle.off_io.specs.contracts.feed.Feed.{the_row};
ghost use Rattle.off_io.specs.Faults.{Rose};
ghost use Rattle.off_io.specs.Told.{Told};
ghost use Rattle.pcap_io.specs.Headers.{captured_limit, is_bad_original, lacks_off_head};
ghost use Rattle.pcap_io.specs.Places.{IsReady, Counted, EntersBody, ReadsOn, first_place};
ghost use Rattle.pcap_io.specs.Reading.{GivesHead, GivesBody, GivesFile, IsFile, IsRefused};
ghost use Rattle.pcap_io.specs.Readers.{place_of, source_of, SameLoan};

use crate::heads::spelling;
use crate::judge::refuse_file;
use crate::{CapFault, CapKind, FileHead, InFault, Link, Place, RecHead};
use net_bytes::Order;
use off_io::{Failed, Feed, Source, read_full};

/// Reads the records of a capture, one after the other: `next_head`, then `read_body` until `body_left` is 0. It takes
/// no byte past the header or body bytes that it is asked for. After the end or a refusal it reads no more, and its
/// source can be used again.
#[derive(Drop)]
pub struct CaptureReader<'s, S> {
    /// The caller's. Its next bytes are those at `place`.
    source: &'s mut S,
    place: Place,
}

/// Takes the file header, 24 bytes (pcap file format, section 4).
///
/// Refused as `Cap` exactly where the bytes are no file header of this link type, version 2.4; the bytes that were
/// there, at most 24, are then gone from the source. `ReadFault` only where the source's count of faults rose; fewer
/// than 24 bytes are then gone.
pub fn take_file<S: Source>(source: &mut S, link: Link) -> Result<FileHead, InFault>
    ensures given { Told (S.left source.old) (S.left source.new) (GivesFile link result) }
    ensures later { S.faults source.old ≤ S.faults source.new }
    ensures failed { result ≡ Err InFault.ReadFault → Rose (S.faults source.old)
        (S.faults source.new) }
{
    let mut head = [0u8; 24];
    let count = match read_full(source, &mut head) {
        Ok(count) => count,
        Err(Failed) => return Err(InFault::ReadFault),
    };
    file_of(link, &head[..count])
}

// What a file header says, or why it is refused.
fn file_of(link: Link, head: &[u8]) -> Result<FileHead, InFault>
    requires short { length head.now ≤ 24 }
    ensures file { IsFile link result head.now }
{
    match refuse_file(link, head) {
        Some(kind) => Err(InFault::Cap(CapFault {
            kind,
            offset: kind.file_place(),
            number: 0,
        })),
        None => {
            let (order, nanos) = spelling(head).unwrap_or((Order::Little, false));
            Ok(FileHead {
                order,
                nanos,
                zone: order.get32(&head[8..]),
                sigfigs: order.get32(&head[12..]),
            })
        }
    }
}

impl<'s, T: Source> CaptureReader<'s, Feed<T>> {
    /// A reader that took the file header and stands before the first record.
    ///
    /// Refused as [`take_file`] refuses.
    pub fn start(source: &'s mut Feed<T>, link: Link) -> Result<CaptureReader<'s, Feed<T>>, InFault>
        ensures* rests { sem 𝓛 (RestsIfErr (the_row T.row) source.entry
            (λ it. it.source.ghost_name) result
            (λ last. IsRefused T.left T.faults link result source.entry.now.inner last.inner)) }
        ensures same_source { IfOk result (λ it. it.source.ghost_name ≡ source.entry.ghost_name) }
        ensures given { IfOk result (λ it. Told (T.left source.entry.now.inner)
            (T.left (source_of it).inner) (GivesFile link (Ok (place_of it).file))) }
        ensures place { IfOk result (λ it. place_of it ≡ first_place (place_of it).file link 0) }
        ensures later { IfOk result (λ it. T.faults source.entry.now.inner ≤ T.faults
            (source_of it).inner) }
    {
        let file = take_file(source, link)?;
        Ok(CaptureReader {
            source,
            place: Place::first(file, link, 0),
        })
    }

    /// The same, with record numbers from `first`.
    pub fn start_numbered(
        source: &'s mut Feed<T>,
        link: Link,
        first: u64,
    ) -> Result<CaptureReader<'s, Feed<T>>, InFault>
        requires few { first ≤ 2 ^ 32 }
        ensures* rests { sem 𝓛 (RestsIfErr (the_row T.row) source.entry
            (λ it. it.source.ghost_name) result
            (λ last. IsRefused T.left T.faults link result source.entry.now.inner last.inner)) }
        ensures same_source { IfOk result (λ it. it.source.ghost_name ≡ source.entry.ghost_name) }
        ensures given { IfOk result (λ it. Told (T.left source.entry.now.inner)
            (T.left (source_of it).inner) (GivesFile link (Ok (place_of it).file))) }
        ensures place { IfOk result (λ it. place_of it ≡ first_place
            (place_of it).file link first) }
        ensures later { IfOk result (λ it. T.faults source.entry.now.inner ≤ T.faults
            (source_of it).inner) }
    {
        let file = take_file(source, link)?;
        Ok(CaptureReader {
            source,
            place: Place::first(file, link, first),
        })
    }
}

impl<'s, S: Source> CaptureReader<'s, S> {
    /// A reader that stands before the first record, over a source whose file header was taken.
    pub fn after_file(source: &'s mut S, file: FileHead, link: Link) -> CaptureReader<'s, S>
        ensures same_source { result.source.ghost_name ≡ source.entry.ghost_name }
        ensures source { source_of result ≡ source.old }
        ensures place { place_of result ≡ first_place file link 0 }
    {
        CaptureReader::after_file_numbered(source, file, link, 0)
    }

    /// The same, with record numbers from `first`.
    pub fn after_file_numbered(
        source: &'s mut S,
        file: FileHead,
        link: Link,
        first: u64,
    ) -> CaptureReader<'s, S>
        requires few { first ≤ 2 ^ 32 }
        ensures same_source { result.source.ghost_name ≡ source.entry.ghost_name }
        ensures source { source_of result ≡ source.old }
        ensures place { place_of result ≡ first_place file link first }
    {
        CaptureReader {
            source,
            place: Place::first(file, link, first),
        }
    }

    /// What the file header says.
    pub fn file(&self) -> FileHead
        ensures file { result ≡ (place_of self.now).file }
    {
        self.place.file
    }

    /// How many bytes of the record's body are left to be read.
    pub fn body_left(&self) -> u32
        ensures left { result ≡ (place_of self.now).body }
    {
        self.place.body
    }

    /// Takes the header of the next record (pcap file format, section 5); `None` exactly where nothing follows the last
    /// whole record.
    ///
    /// Refused as `Cap` exactly where the next bytes are no lawful record header; the bytes that were there, at most
    /// 16, are then gone from the source. `ReadFault` only where the source's count of faults rose; fewer than 16 bytes
    /// are then gone. After the end or a refusal the reader isn't ready.
    #[inline(always)]
    pub fn next_head(&mut self) -> Result<Option<RecHead>, InFault>
        requires ready { IsReady (place_of self.old) }
        ensures same_source { SameLoan self.old self.new }
        ensures given { Told (S.left (source_of self.old)) (S.left (source_of self.new))
            (GivesHead (place_of self.old) result) }
        ensures enters { IfOk result (λ found. IfSome found
            (EntersBody (place_of self.old) (place_of self.new))) }
        ensures limit { IfOk result (λ found. IfSome found
            (λ it. it.captured ≤ captured_limit (place_of self.old).link)) }
        ensures original { IfOk result (λ found. IfSome found
            (λ it. is_bad_original (place_of self.old).link it.original ≡ false)) }
        ensures off_head { IfOk result (λ found. IfSome found
            (λ it. lacks_off_head (place_of self.old).link it.captured ≡ false)) }
        ensures counted { OnOk result (Counted (place_of self.new)) }
        ensures end { IfOk result (λ found. IfNone found ((place_of self.new).is_done ≡ true)) }
        ensures refused { OnErr result ((place_of self.new).is_done ≡ true) }
        ensures later { S.faults (source_of self.old) ≤ S.faults (source_of self.new) }
        ensures failed { result ≡ Err InFault.ReadFault → Rose (S.faults (source_of self.old))
            (S.faults (source_of self.new)) }
    {
        let mut head = [0u8; 16];
        let count = match read_full(self.source, &mut head) {
            Ok(count) => count,
            Err(Failed) => {
                self.place.is_done = true;
                return Err(InFault::ReadFault);
            }
        };
        if count == 0 {
            self.place.is_done = true;
            return Ok(None);
        }
        match self.place.enter(&head[..count]) {
            Ok(found) => Ok(Some(found)),
            Err(fault) => {
                self.place.is_done = true;
                Err(InFault::Cap(fault))
            }
        }
    }

    /// Fills `into` with the next bytes of the record's body.
    ///
    /// Refused as `Cap` exactly where the input ends before `into` is full; what was left is then gone. `ReadFault`
    /// only where the source's count of faults rose; fewer bytes than `into` has are then gone.
    #[inline(always)]
    pub fn read_body(&mut self, into: &mut [u8]) -> Result<(), InFault>
        requires room { length into.old ≤ (place_of self.old).body }
        ensures same_source { SameLoan self.old self.new }
        ensures given { Told (S.left (source_of self.old)) (S.left (source_of self.new))
            (GivesBody (place_of self.old) result into.new) }
        ensures place { OnOk result (ReadsOn (place_of self.old) (place_of self.new)
            (length into.new)) }
        ensures refused { OnErr result ((place_of self.new).is_done ≡ true) }
        ensures later { S.faults (source_of self.old) ≤ S.faults (source_of self.new) }
        ensures failed { result ≡ Err InFault.ReadFault → Rose (S.faults (source_of self.old))
            (S.faults (source_of self.new)) }
    {
        let body = self.place.body;
        let count = match read_full(self.source, into) {
            Ok(count) => count,
            Err(Failed) => {
                self.place.is_done = true;
                return Err(InFault::ReadFault);
            }
        };
        if count < into.len() {
            self.place.is_done = true;
            return Err(InFault::Cap(CapFault {
                kind: CapKind::ShortRecord,
                offset: self.place.current,
                number: self.place.number.saturating_sub(1),
            }));
        }
        self.place.body = body - into.len() as u32;
        Ok(())
    }
}
