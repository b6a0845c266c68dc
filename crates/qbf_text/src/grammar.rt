//! One loop that reads by the rows of a grammar.

ghost use Rattle.std.specs.Prelude.{◌≡◌, ℕ, ◌+◌, ◌<◌, ◌≤◌, length, List, Option, IfSome, IfOk, OnOk};
ghost use Rattle.qbf_tokens.specs.declared.token.Token.{Token};
ghost use Rattle.std.specs.Io.KnownBytes.{IsAtEnd};
ghost use Rattle.qbf_text.specs.Reading.{left, HasFailed, IsReady};
ghost use Rattle.qbf_text.specs.Rows.{Row, read_from, reads_from};
ghost use Rattle.qbf_text.specs.Taking.{Takes, StaysOpen, ReadsWhole, ReadsKnown, Counts, Follows};
ghost use Rattle.qbf_tokens.specs.Tokens.{tokens};
ghost use Rattle.qbf_text.specs.Ahead.{ahead};
ghost use Rattle.qbf_text.specs.TakenNumbers.{TakesOver};
ghost use Rattle.qbf_text.specs.Passing.{ReadsBuffered};
ghost use Rattle.qbf_text.specs.Stopping.{tokens_next, Stops};
ghost use Rattle.window_numbers.specs.Values.{held, numbers_of};
ghost use Rattle.window_numbers.specs.declared.numbers.TheConstants.{MOST};

use crate::scanner::{ScanFault, Scanner};
use crate::source::Source;
use qbf_tokens::{Comments, Token};
use std::alloc::AllocError;
use window_numbers::{Numbers, Values, Zeros};

/// The result of a grammar for a token that it took.
#[derive(Drop)]
pub enum Taken<T> {
    /// It went on, and wants another token.
    More,
    /// It is complete, and this is what was read.
    Done(T),
}

/// Why a grammar did not take a token. Reading stops then.
#[derive(Clone, Copy, Debug, Drop)]
pub enum Stop<F> {
    /// An allocation failed.
    Memory,
    /// The token is not accepted at its place: a fault of the text.
    Text(F),
}

impl<F> From<F> for Stop<F> {
    ghost use Rattle.std.specs.Prelude.{◌≡◌};
    ghost use Rattle.qbf_text.specs.declared.grammar.Stop.TheVariants.{Text};

    ghost from_gives = { λ fault stop. stop ≡ Text fault };

    fn from(fault: F) -> Stop<F> {
        Stop::Text(fault)
    }
}

/// Why nothing was read.
#[derive(Clone, Copy, Debug, Drop)]
pub enum ReadError<F> {
    /// The source failed.
    Device,
    /// An allocation failed.
    Memory,
    /// The first token that is not accepted at its place.
    Text {
        /// Its fault.
        fault: F,
        /// Its line, counted from 1.
        line: u64,
    },
}

impl<F> From<ScanFault> for ReadError<F> {
    ghost use Rattle.std.specs.Prelude.{◌≡◌};
    ghost use Rattle.qbf_text.specs.declared.grammar.ReadError.TheVariants.{Device};

    ghost from_gives = { λ _ e. e ≡ Device };

    fn from(_e: ScanFault) -> ReadError<F> {
        ReadError::Device
    }
}

impl<F> From<AllocError> for ReadError<F> {
    ghost use Rattle.std.specs.Prelude.{◌≡◌};
    ghost use Rattle.qbf_text.specs.declared.grammar.ReadError.TheVariants.{Memory};

    ghost from_gives = { λ _ e. e ≡ Memory };

    fn from(_e: AllocError) -> ReadError<F> {
        ReadError::Memory
    }
}

impl<F: Copy> ReadError<F> {
    ghost use Rattle.std.specs.Prelude.{◌≡◌};
    ghost use Rattle.qbf_text.specs.WholeTexts.{fault_of};

    /// The fault that it stands for, and its line: `device` if the source failed and `memory` if an
    /// allocation failed, both on line 0.
    pub fn fault(self, device: F, memory: F) -> (F, u64)
        ensures { result ≡ fault_of device memory self }
    {
        match self {
            ReadError::Device => (device, 0),
            ReadError::Memory => (memory, 0),
            ReadError::Text { fault, line } => (fault, line),
        }
    }
}

/// How many of the buffered numbers a grammar took, and what was read, if it is complete.
pub type Progress<T> = (usize, Option<T>);

/// The grammar of a text by its rows: what each state makes of each token.
///
/// It is handed one token after the other, and keeps what it makes of them.
pub trait Grammar {
    /// The value that is read.
    type Output: Drop;

    /// A fault of a text.
    type Fault: Drop;

    /// A state: where reading stands, after what the tokens so far spell.
    ghost State: { Type 0 };

    /// The state of this grammar.
    ghost state: { Self → State };

    /// The rows: what each state makes of a token.
    ghost row_of: { State → Token → Row State Self.Output Self.Fault };

    /// The part that no token changes.
    ghost Kept: { Type 0 };

    /// The part of this grammar that no token changes.
    ghost kept: { Self → Kept };

    /// Takes numbers from the first of these on, until it is complete. Returns how many it took,
    /// and what was read, if it is complete. It may take none: each number that it leaves is handed
    /// to `take`.
    ///
    /// `zeros` tells where zeros seem to stand among them: no contract says that they do.
    ///
    /// # Errors
    /// Out of memory.
    fn take_numbers(
        &mut self,
        values: Values,
        zeros: Zeros,
    ) -> Result<Progress<Self::Output>, AllocError>
        ensures takes { IfOk result (λ r. TakesOver row_of (state self.old) (state self.new)
            (numbers_of values.entry) 0 r.0 r.1) }
        ensures within { IfOk result (λ r. r.0 ≤ length (numbers_of values.entry)) }
        ensures kept { kept self.new ≡ kept self.old };

    /// Takes the next token. After the end of the text it does not go on.
    ///
    /// # Errors
    /// Out of memory, or the fault of the token at its place.
    fn take(&mut self, token: Token) -> Result<Taken<Self::Output>, Stop<Self::Fault>>
        ensures row { Takes (row_of (state self.old) token) (state self.new) result }
        ensures more { StaysOpen token result }
        ensures kept { kept self.new ≡ kept self.old };
}

/// Lets a grammar take numbers that are known. Returns how many it took, and what was read, if it
/// is complete.
#[inline(always)]
fn take_known<G: Grammar>(
    grammar: &mut G,
    numbers: &Numbers,
) -> Result<Progress<G::Output>, AllocError>
    requires some { numbers.now.first < numbers.now.known }
    requires few { numbers.now.known ≤ MOST }
    ensures takes { IfOk result (λ r. TakesOver G.row_of (G.state grammar.old) (G.state grammar.new)
        (held numbers.now) numbers.now.first (numbers.now.first + r.0) r.1) }
    ensures within { IfOk result (λ r. 0 < r.0 → numbers.now.first + r.0 ≤ numbers.now.known) }
    ensures kept { G.kept grammar.new ≡ G.kept grammar.old }
{
    let values = numbers.values();
    // The proof names the two parts.
    let (count, answer) = grammar.take_numbers(values, numbers.zeros())?;
    Ok((count, answer))
}

/// Lets a grammar take numbers from the front of the buffered bytes. Returns what was read, if it is
/// complete.
#[inline(always)]
fn take_front<G: Grammar>(
    grammar: &mut G,
    scanner: &mut Scanner,
) -> Result<Option<G::Output>, AllocError>
    ensures reads { IfOk result (λ answer. (remaining : Option (List ℕ)) → ReadsBuffered G.row_of
        (G.state grammar.old) (G.state grammar.new) scanner.old scanner.new remaining answer) }
    ensures status { scanner.new.status ≡ scanner.old.status }
    ensures no_more { length scanner.new.pending ≤ length scanner.old.pending }
    ensures kept { G.kept grammar.new ≡ G.kept grammar.old }
{
    if !scanner.is_open() {
        return Ok(None);
    }
    scanner.prepare();
    let numbers = scanner.numbers();
    if numbers.is_empty() {
        return Ok(None);
    }
    let (count, answer) = take_known(grammar, numbers)?;
    let here = numbers.cursor_after(scanner.bytes(), scanner.cursor(), count);
    scanner.go_to(here, count);
    Ok(answer)
}

/// Lets a grammar take numbers from the buffered bytes, with comment lines between them. Returns
/// what was read, if it is complete.
#[inline(always)]
fn take_buffered<G: Grammar>(
    grammar: &mut G,
    scanner: &mut Scanner,
) -> Result<Option<G::Output>, AllocError>
    ensures reads { IfOk result (λ answer. (remaining : Option (List ℕ)) → ReadsBuffered G.row_of
        (G.state grammar.old) (G.state grammar.new) scanner.old scanner.new remaining answer) }
    ensures status { scanner.new.status ≡ scanner.old.status }
    ensures no_more { length scanner.new.pending ≤ length scanner.old.pending }
    ensures kept { G.kept grammar.new ≡ G.kept grammar.old }
{
    'lines: loop {
        match take_front(grammar, scanner)? {
            Some(output) => return Ok(Some(output)),
            None => {}
        }
        if !scanner.pass_comment() {
            return Ok(None);
        }
    }
}

/// Hands on token after token until the grammar is complete.
///
/// # Errors
/// `Device` exactly if the source failed during the call, `Memory` if the grammar is out of memory,
/// else the first fault with the line of its token.
pub fn read_by<G: Grammar, S: Source>(
    grammar: &mut G,
    scanner: &mut Scanner,
    source: &mut S,
) -> Result<G::Output, ReadError<G::Fault>>
    requires ready { ¬ HasFailed scanner.old }
    ensures reads { ReadsWhole
        (reads_from G.row_of (G.state grammar.old) (left scanner.old (S.remaining source.old)))
        (G.state grammar.new) (left scanner.new (S.remaining source.new)) result }
    // The last token was taken by some row: with each token but End less can still come, and after
    // End no byte remains.
    ensures follows { Follows G.row_of (G.state grammar.new)
        (length scanner.new.pending + S.bound source.new
        < length scanner.old.pending + S.bound source.old)
        (IsReady scanner.old (S.remaining source.old) → IsAtEnd (S.remaining source.new)) result }
    // After the last token, unless that is End, no byte is taken but a separator, and at most
    // 4,096 bytes are held.
    ensures stops { Stops G.row_of (G.state grammar.old) (G.state grammar.new)
        (tokens_next scanner.old) (tokens_next scanner.new)
        (ahead scanner.old.pending (S.remaining source.old))
        (ahead scanner.new.pending (S.remaining source.new))
        (length scanner.new.pending ≤ 4096) result }
    ensures kept { G.kept grammar.new ≡ G.kept grammar.old }
    ensures counts { Counts (S.failures source.old) (S.failures source.new) result }
    ensures ready { OnOk result (¬ HasFailed scanner.new) }
    ensures bound { OnOk result (
        length scanner.new.pending + S.bound source.new
        ≤ length scanner.old.pending + S.bound source.old) }
{
    'tokens: loop {
        let handed = take_buffered(grammar, scanner)?;
        match handed {
            Some(output) => return Ok(output),
            None => {}
        }
        let (token, line) = scanner.next_token(source)?;
        match grammar.take(token) {
            Ok(Taken::More) => {}
            Ok(Taken::Done(output)) => return Ok(output),
            Err(Stop::Memory) => return Err(ReadError::Memory),
            Err(Stop::Text(fault)) => return Err(ReadError::Text { fault, line }),
        }
    }
}

/// Reads a text from the first byte of its source on, until the grammar is complete.
///
/// # Errors
/// As those of `read_by`.
pub fn read_text<G: Grammar, S: Source>(
    grammar: &mut G,
    comments: Comments,
    source: &mut S,
) -> Result<G::Output, ReadError<G::Fault>>
    ensures reads { IfSome (S.remaining source.old) (λ bytes. ReadsKnown
        (read_from G.row_of (G.state grammar.old) (tokens comments bytes))
        (G.state grammar.new) result) }
    // The last token was taken by some row; after End no byte remains.
    ensures follows { Follows G.row_of (G.state grammar.new) (S.bound source.new < S.bound source.old)
        (IsAtEnd (S.remaining source.new)) result }
    ensures kept { G.kept grammar.new ≡ G.kept grammar.old }
    ensures counts { Counts (S.failures source.old) (S.failures source.new) result }
{
    let mut scanner = Scanner::new(comments);
    read_by(grammar, &mut scanner, source)
}
