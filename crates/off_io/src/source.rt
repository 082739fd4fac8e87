//! A source of bytes that counts its faults.
ghost use Rattle.std.specs.Prelude.{◌≤◌, length, take, IfOk, List, ℕ, Option};
ghost use Rattle.std.specs.Io.{ReadsAtMost};
ghost use Rattle.std.specs.Io.KnownBytes.{Consumes, ReadConsumes};
ghost use Rattle.off_io.specs.Faults.{HasCause};
ghost use Rattle.off_io.specs.Content.{FillsFront};

/// A call of a source or a sink failed, and did nothing.
#[derive(Clone, Copy, Debug, PartialEq, Eq)]
pub struct Failed;

/// Gives bytes, as many at a call as it likes.
pub trait Source {
    /// The bytes that are left, where the source tells.
    ghost left: { Self → Option (List ℕ) };

    /// How often a read failed.
    ghost faults: { Self → ℕ };

    /// Fills a prefix of `into` with the next bytes and answers how many these are. `Ok(0)` into a slice with room is
    /// the end. `Failed` takes no byte, and comes only where the count of faults rose.
    fn read(&mut self, into: &mut [u8]) -> Result<usize, Failed>
        ensures bound { ReadsAtMost result into.new }
        ensures bytes { ReadConsumes (left self.old) (left self.new) result into.new }
        ensures cause { HasCause (faults self.old) (faults self.new) result };
}

// Fills `into` behind its first `count` bytes, which came from the source before.
#[inline(never)]
fn read_rest<S: Source>(source: &mut S, into: &mut [u8], count: usize) -> Result<usize, Failed>
    requires inside { count ≤ length into.old }
    ensures bound { IfOk result (λ n. n ≤ length into.new) }
    ensures bytes { (before : Option (List ℕ)) → Consumes before (S.left source.old) (take count into.old)
        → FillsFront before (S.left source.new) result into.new }
    ensures cause { HasCause (S.faults source.old) (S.faults source.new) result }
{
    let mut at = count;
    while at < into.len() {
        match source.read(&mut into[at..])? {
            0 => return Ok(at),
            count => at += count,
        }
    }
    Ok(at)
}

/// Fills `into` from its front, until it is full or the source ends, and answers how many bytes were filled.
///
/// `Failed` only where the source's count of faults rose; fewer bytes than `into` has room for are then gone.
#[inline(always)]
pub fn read_full<S: Source>(source: &mut S, into: &mut [u8]) -> Result<usize, Failed>
    ensures bound { IfOk result (λ n. n ≤ length into.new) }
    ensures bytes { FillsFront (S.left source.old) (S.left source.new) result into.new }
    ensures cause { HasCause (S.faults source.old) (S.faults source.new) result }
{
    if into.is_empty() {
        return Ok(0);
    }
    // Mostly one read gives all.
    let count = source.read(into)?;
    if count == into.len() || count == 0 {
        return Ok(count);
    }
    read_rest(source, into, count)
}
