//! Readers and writers that record whether a call failed.

ghost use Rattle.std.specs.Prelude.{◌≡◌, ◌+◌, ◌-◌, ◌≤◌, ◌<◌, ◌^◌, ◌↔◌, ◌⊎◌, ℕ, List, true, false, length, IfOk, IfErr, OnOk, OnErr, IsErr};
ghost use Rattle.std.specs.Io.{ReadsAtMost, WritesAtMost};
ghost use Rattle.std.specs.Io.KnownBytes.{Appends, IsAtEnd, ReadConsumes, WriteAppends};
ghost use Rattle.watched.specs.Handing.{HandsOn, HasAtHand};
ghost use Rattle.watched.specs.Watched.{watched_inner, has_failed, calls_left, AppendsPart, Sends};

use std::io;
use std::io::{BufRead, ErrorKind, Read, Write};

/// A reader or a writer that records whether a call failed. It passes on at most 2^64 - 1 calls.
/// The flag `failed` is set for good by a call that fails, by a write of one byte or more that
/// returns 0, and by a call beyond the limit. Every later call fails at once.
#[derive(Debug, Drop)]
pub struct Watched<T> {
    inner: T,
    calls_left: u64,
    has_failed: bool,
}

impl<T> Watched<T> {
    pub fn new(inner: T) -> Self
        ensures inner { watched_inner result ≡ inner }
        ensures fresh { has_failed result ≡ false }
        ensures calls { calls_left result ≡ 2 ^ 64 - 1 }
    {
        Watched {
            inner,
            calls_left: u64::MAX,
            has_failed: false,
        }
    }

    /// The reader or writer inside.
    pub fn into_inner(self) -> T
        ensures { result ≡ watched_inner self }
    {
        self.inner
    }

    /// Whether a call failed.
    pub fn failed(&self) -> bool
        ensures { result ≡ has_failed self.now }
    {
        self.has_failed
    }

    /// Counts a call that is to be passed on. Fails after a failure, or where no call is left.
    fn count_call(&mut self) -> io::Result<()>
        ensures inner { watched_inner self.new ≡ watched_inner self.old }
        ensures counted { OnOk result
            ((calls_left self.new + 1 ≡ calls_left self.old) × (has_failed self.old ≡ false)) }
        ensures refused { OnErr result ((has_failed self.old ≡ true) ⊎ (calls_left self.old ≡ 0)) }
        ensures kept { OnErr result (calls_left self.new ≡ calls_left self.old) }
        ensures failed { IsErr result ↔ (has_failed self.new ≡ true) }
        ensures at_once { has_failed self.old ≡ true → self.new ≡ self.old }
    {
        if self.has_failed || self.calls_left == 0 {
            self.has_failed = true;
            return Err(io::Error::from(ErrorKind::Other));
        }
        self.calls_left -= 1;
        Ok(())
    }
}

// The result of a write: a write of one byte or more that returns 0 fails.
fn judged(answer: io::Result<usize>, is_asked: bool) -> io::Result<usize>
    ensures failed { IsErr result ↔ ((IsErr answer) ⊎ ((answer ≡ Ok 0) × (is_asked ≡ true))) }
    ensures kept { IfOk result (λ count. answer ≡ Ok count) }
{
    match answer {
        Ok(0) if is_asked => Err(io::Error::from(ErrorKind::WriteZero)),
        answer => answer,
    }
}

impl<R: Read> Watched<R> {
    /// Reads once: at most `buf.len()` bytes, and none at the end.
    pub fn read(&mut self, buf: &mut [u8]) -> io::Result<usize>
        ensures bound { ReadsAtMost result buf.new }
        ensures bytes { ReadConsumes (R.remaining (watched_inner self.old))
            (R.remaining (watched_inner self.new)) result buf.new }
        ensures failed { IsErr result ↔ (has_failed self.new ≡ true) }
        ensures at_once { has_failed self.old ≡ true → self.new ≡ self.old }
        ensures counted { OnOk result
            ((calls_left self.new + 1 ≡ calls_left self.old) × (has_failed self.old ≡ false)) }
        ensures passed_on { has_failed self.old ≡ false
            → 0 < calls_left self.old
            → calls_left self.new + 1 ≡ calls_left self.old }
        ensures exhausted { calls_left self.old ≡ 0
            → watched_inner self.new ≡ watched_inner self.old }
        ensures calls { calls_left self.new ≤ calls_left self.old }
    {
        self.count_call()?;
        let count = self.inner.read(buf);
        self.has_failed = count.is_err();
        count
    }
}

/// A consumer of a reader's bytes, which takes as many at a time as the reader has buffered.
pub trait TakeBytes<E> {
    // the bytes are taken
    ghost takes: { Self → List ℕ → Self → Type 0 };

    // they are refused with this error
    ghost refuses: { Self → List ℕ → E → Type 0 };

    fn take_bytes(&mut self, bytes: &[u8]) -> Result<(), E>
        ensures taken { OnOk result (takes self.old bytes.now self.new) }
        ensures refused { IfErr result (λ e. refuses self.old bytes.now e) };
}

impl<R: BufRead> Watched<R> {
    /// Passes the bytes that the reader has buffered to `taker`, and consumes them. Returns `false`
    /// at the end, where nothing is passed on. This counts as one call.
    pub fn hand_bytes<E, T: TakeBytes<E>>(&mut self, taker: &mut T) -> io::Result<Result<bool, E>>
        ensures taken { IfOk result (λ r. IfOk r (λ more.
            more ≡ true
            → HandsOn (R.remaining (watched_inner self.old)) (R.remaining (watched_inner self.new))
            (λ bytes. T.takes taker.old bytes taker.new))) }
        ensures refused { IfOk result (λ r. IfErr r (λ e.
            HasAtHand (R.remaining (watched_inner self.old)) (λ bytes.
            T.refuses taker.old bytes e))) }
        ensures end { IfOk result (λ r. IfOk r (λ more.
            more ≡ false
            → (taker.new ≡ taker.old) × IsAtEnd (R.remaining (watched_inner self.old)))) }
        ensures failed { IsErr result ↔ (has_failed self.new ≡ true) }
        ensures at_once { has_failed self.old ≡ true → self.new ≡ self.old }
        ensures counted { OnOk result
            ((calls_left self.new + 1 ≡ calls_left self.old) × (has_failed self.old ≡ false)) }
        ensures passed_on { has_failed self.old ≡ false
            → 0 < calls_left self.old
            → calls_left self.new + 1 ≡ calls_left self.old }
        ensures exhausted { calls_left self.old ≡ 0
            → watched_inner self.new ≡ watched_inner self.old }
    {
        self.count_call()?;
        let bytes = match self.inner.fill_buf() {
            Ok(bytes) => bytes,
            Err(error) => {
                self.has_failed = true;
                return Err(error);
            }
        };
        if bytes.is_empty() {
            return Ok(Ok(false));
        }
        if let Err(error) = taker.take_bytes(bytes) {
            return Ok(Err(error));
        }
        let amount = bytes.len();
        self.inner.consume(amount);
        Ok(Ok(true))
    }
}

impl<W: Write> Watched<W> {
    /// Writes once. Returns 0 only for an empty `buf`.
    pub fn write(&mut self, buf: &[u8]) -> io::Result<usize>
        ensures bound { WritesAtMost result buf.now }
        ensures bytes { WriteAppends (W.contents (watched_inner self.old))
            (W.contents (watched_inner self.new)) result buf.now }
        ensures failed { IsErr result ↔ (has_failed self.new ≡ true) }
        ensures at_once { has_failed self.old ≡ true → self.new ≡ self.old }
        ensures counted { OnOk result
            ((calls_left self.new + 1 ≡ calls_left self.old) × (has_failed self.old ≡ false)) }
        ensures passed_on { has_failed self.old ≡ false
            → 0 < calls_left self.old
            → calls_left self.new + 1 ≡ calls_left self.old }
        ensures exhausted { calls_left self.old ≡ 0
            → watched_inner self.new ≡ watched_inner self.old }
        ensures calls { calls_left self.new ≤ calls_left self.old }
        ensures moves { IfOk result (λ count. 0 < length buf.now → 0 < count) }
    {
        self.count_call()?;
        let count = judged(self.inner.write(buf), !buf.is_empty());
        self.has_failed = count.is_err();
        count
    }

    /// Writes all of the bytes, or fails after some of the first.
    pub fn write_all(&mut self, buf: &[u8]) -> io::Result<()>
        ensures ok { OnOk result
            (Appends (W.contents (watched_inner self.old)) (W.contents (watched_inner self.new))
            buf.now) }
        ensures part { OnErr result
            (AppendsPart (W.contents (watched_inner self.old)) (W.contents (watched_inner self.new))
            buf.now) }
        ensures failed { IsErr result ↔ (has_failed self.new ≡ true) }
        ensures at_once { has_failed self.old ≡ true → self.new ≡ self.old }
        ensures calls { calls_left self.new ≤ calls_left self.old }
    {
        if self.has_failed {
            return Err(io::Error::from(ErrorKind::Other));
        }
        let mut rest = buf;
        while !rest.is_empty() {
            let count = self.write(rest)?;
            rest = &rest[count..];
        }
        Ok(())
    }

    /// Writes all of the bytes, unless a call has failed or one fails now. Call `failed` when
    /// everything is sent.
    pub fn send(&mut self, bytes: &[u8])
        ensures { Sends W.contents self.old self.new bytes.now }
    {
        let _ = self.write_all(bytes);
    }
}
