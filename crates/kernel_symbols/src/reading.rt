//! The incremental reading of a text of kernel symbols.

ghost use Rattle.std.specs.Prelude.{◌≡◌, ◌≢◌, ◌+◌, ◌<◌, ◌++◌, ◌∷◌, ℕ, List, [], length, take, drop, true, false, Some, None, if◌then◌else◌, IfErr, IfOk, MatchOption, OnOk};
ghost use Rattle.std.specs.Io.KnownBytes.{IsAtEnd};
ghost use Rattle.std.specs.Str.{IsAscii};
ghost use Rattle.watched.specs.Watched.{watched_inner, has_failed, calls_left};
ghost use Rattle.kernel_symbols.specs.Reading.{AreAddresses, AreWanted, CannotFinish, Finishes, HasNoAddress, HasRead, IsUnbroken, ReaderFault, ReadsSome, ReadsWhole, Refuses, RefusesReader, Takes, entries_of};
ghost use Rattle.kernel_symbols.specs.declared.error.SymbolsError.TheVariants.{OutOfMemory};

use crate::error::SymbolsError;
use crate::line::take_line;
use crate::wanted::Addresses;
use crate::wanted_names::WantedByName;
use crate::words::after;
use memchr::memchr;
use std::alloc::{AllocError, Global};
use std::io::BufRead;
use watched::{TakeBytes, Watched};

/// The wanted symbols after a part of a text, and the beginning of a line whose end isn't read yet.
#[derive(Drop)]
pub(crate) struct Reading<'a> {
    pub(crate) by_name: WantedByName<'a>,
    pub(crate) partial: Vec<u8>,
}

/// The index of the first NL.
#[tactic(auto, using(crate::proofs::TextLemmas::first_break))]
fn line_end(bytes: &[u8]) -> Option<usize>
    ensures { MatchOption result (IsUnbroken bytes.now) (λ at.
        (at < length bytes.now)
        × IsUnbroken (take at bytes.now)
        × (bytes.now ≡ take at bytes.now ++ 10 ∷ drop (at + 1) bytes.now)) }
{
    memchr(b'\n', bytes)
}

impl<'a> Reading<'a> {
    /// The state before anything is read.
    #[tactic(auto, using(crate::proofs::WantedLemmas::begun))]
    fn new(alloc: Global, names: &[&'a str]) -> Result<Reading<'a>, AllocError>
        ensures wanted { IfOk result (λ reading. AreWanted names.now (entries_of reading)) }
        ensures begun { IfOk result (λ reading. HasRead [] reading) }
    {
        Ok(Reading {
            by_name: WantedByName::of(alloc, names)?,
            partial: Vec::new(alloc),
        })
    }

    /// Reads the end of a line. If `is_ascii` is set, it is known to be ASCII.
    fn end_line(&mut self, end: &[u8], is_ascii: bool) -> Result<(), SymbolsError<'a>>
        requires unbroken { IsUnbroken end.now }
        requires ascii { is_ascii ≡ true → IsAscii end.now }
        ensures taken { OnOk result (Takes self.old (end.now ++ 10 ∷ []) self.new) }
        ensures refused { IfErr result (Refuses self.old (end.now ++ 10 ∷ [])) }
    {
        if self.partial.is_empty() {
            return take_line(&mut self.by_name, end, is_ascii);
        }
        self.partial.extend_from_slice(end)?;
        take_line(&mut self.by_name, &self.partial, false)?;
        self.partial.clear();
        Ok(())
    }

    /// The addresses, where the whole text was read.
    #[tactic(auto, using(crate::proofs::ReaderLemmas::cannot_finish, crate::proofs::WantedLemmas::passed_on))]
    fn finish(self) -> Result<Addresses<'a>, SymbolsError<'a>>
        ensures found { IfOk result (Finishes self.entry) }
        ensures refused { IfErr result (CannotFinish self.entry) }
    {
        let Reading {
            mut by_name,
            partial,
        } = self;
        if partial.is_empty() {
            return Ok(Addresses { by_name });
        }
        take_line(&mut by_name, &partial, false)?;
        Ok(Addresses { by_name })
    }
}

impl<'a> TakeBytes<SymbolsError<'a>> for Reading<'a> {
    ghost use Rattle.kernel_symbols.specs.Reading.{Refuses, Takes};

    ghost takes = { λ old bytes new. Takes old bytes new };

    ghost refuses = { λ old bytes error. Refuses old bytes error };

    fn take_bytes(&mut self, bytes: &[u8]) -> Result<(), SymbolsError<'a>> {
        let is_ascii = bytes.is_ascii();
        let mut rest = bytes;
        while let Some(at) = line_end(rest) {
            self.end_line(&rest[..at], is_ascii)?;
            rest = after(rest, at + 1);
        }
        self.partial.extend_from_slice(rest)?;
        Ok(())
    }
}

/// Reads the bytes that a reader has buffered. Returns `false` at its end.
#[tactic(auto, using(crate::proofs::ReaderLemmas::hand_refused, crate::proofs::ReaderLemmas::reader_failed))]
fn read_on<'a, R: BufRead>(
    reading: &mut Reading<'a>,
    symbols: &mut Watched<R>,
) -> Result<bool, SymbolsError<'a>>
    ensures taken { IfOk result (λ more.
        more ≡ true
        → ReadsSome (R.remaining (watched_inner symbols.old))
        (R.remaining (watched_inner symbols.new)) reading.old reading.new) }
    ensures end { IfOk result (λ more.
        more ≡ false
        → (reading.new ≡ reading.old) × IsAtEnd (R.remaining (watched_inner symbols.old))) }
    ensures refused { IfErr result
        (RefusesReader (R.remaining (watched_inner symbols.old)) (has_failed symbols.new)
        reading.old) }
    ensures sound { OnOk result (has_failed symbols.new ≡ false) }
    ensures calls { OnOk result (calls_left symbols.new < calls_left symbols.old) }
{
    match symbols.hand_bytes(reading) {
        Ok(answer) => answer,
        Err(error) => Err(SymbolsError::Access(error)),
    }
}

/// Reads all that a reader gives.
fn read_all<'a, R: BufRead>(
    reading: &mut Reading<'a>,
    symbols: &mut Watched<R>,
) -> Result<(), SymbolsError<'a>>
    ensures taken { OnOk result
        (ReadsWhole (R.remaining (watched_inner symbols.old)) reading.old reading.new) }
    ensures refused { IfErr result
        (RefusesReader (R.remaining (watched_inner symbols.old)) (has_failed symbols.new)
        reading.old) }
    ensures sound { OnOk result (has_failed symbols.new ≡ false) }
{
    let mut is_more = true;
    while is_more {
        is_more = read_on(reading, symbols)?;
    }
    Ok(())
}

/// The addresses that a text of kernel symbols gives these names.
///
/// `Access` where the reader fails or a line isn't UTF-8, `UnreadableAddress` where the address of
/// one of the names can't be read, `Ambiguous` where one of them has two.
pub fn read_addresses<'a, R: BufRead>(
    alloc: Global,
    names: &[&'a str],
    symbols: &mut Watched<R>,
) -> Result<Addresses<'a>, SymbolsError<'a>>
    ensures found { IfOk result (AreAddresses names.now (R.remaining (watched_inner symbols.old))) }
    ensures refused { IfErr result (λ e.
        e ≢ OutOfMemory
        → ReaderFault names.now (R.remaining (watched_inner symbols.old)) (has_failed symbols.new)
        e) }
    ensures sound { OnOk result (has_failed symbols.new ≡ false) }
{
    let mut reading = Reading::new(alloc, names)?;
    read_all(&mut reading, symbols)?;
    reading.finish()
}
