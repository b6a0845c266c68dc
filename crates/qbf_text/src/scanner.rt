//! Texts as tokens with their lines, read from a source.

ghost use Rattle.std.specs.Prelude.{Option, ◌≡◌, ℕ, ◌+◌, ◌-◌, ◌^◌, ◌<◌, ◌≤◌, Some, List, []};
ghost use Rattle.std.specs.Prelude.{length, drop, IfSome, IfNone, false, true, IsOk, IsErr, IfOk};
ghost use Rattle.std.specs.Prelude.{◌↔◌, IsTrue, OnOk, OnErr};
ghost use Rattle.std.specs.Io.KnownBytes.{Consumes};
ghost use Rattle.qbf_text.specs.Ahead.{ahead, first_of};
ghost use Rattle.qbf_text.specs.Pulling.{HasPulled, ReadsRun};
ghost use Rattle.qbf_tokens.specs.Left.{is_separator, IsWithinLine, EndsLine, is_end};
ghost use Rattle.window_numbers.specs.Numbers.{StandInFront};

use crate::lines::line_len;
use crate::source::{Source, SourceFault};
use crate::window::Window;
use qbf_tokens::{Comments, Numeral, Run, Spelling, Token, begins_number, is_separator};
use std::marker::Model;
use window_numbers::{Cursor, Numbers};

/// Goes to the end of the line.
fn skip_line<S: Source>(window: &mut Window, source: &mut S) -> Result<(), SourceFault>
    ensures skipped { OnOk result ((skipped : List ℕ) × IsWithinLine skipped
        × Consumes (ahead window.old (S.remaining source.old))
        (ahead window.new (S.remaining source.new)) skipped) }
    ensures end { OnOk result (IfSome (ahead window.new (S.remaining source.new)) EndsLine) }
    ensures pulled { HasPulled S.bound S.failures window.old window.new
        source.old source.new result }
{
    while let Some(byte) = window.peek(source)? {
        if byte == b'\n' {
            break;
        }
        window.advance();
        let rest = line_len(window.bytes());
        window.go_to(rest);
    }
    Ok(())
}

/// The kind of the run that begins with `first`, which was taken, and goes on with the next bytes.
fn read_as<R: Run, S: Source>(
    first: u8,
    window: &mut Window,
    source: &mut S,
) -> Result<Token, SourceFault>
    requires { R.begins first }
    ensures run { IfOk result (ReadsRun first (ahead window.old (S.remaining source.old))
        (ahead window.new (S.remaining source.new))) }
    ensures pulled { HasPulled S.bound S.failures window.old window.new
        source.old source.new result }
{
    let mut run = R::begin(first);
    'bytes: while let Some(byte) = window.peek(source)? {
        if is_separator(byte) {
            break;
        }
        run.push(byte);
        window.advance();
    }
    Ok(run.kind())
}

/// Reads a run that begins with this byte, which may be any byte.
fn read_run<S: Source>(first: u8, window: &mut Window, source: &mut S) -> Result<Token, SourceFault>
    ensures run { IfOk result (ReadsRun first (ahead window.old (S.remaining source.old))
        (ahead window.new (S.remaining source.new))) }
    ensures pulled { HasPulled S.bound S.failures window.old window.new
        source.old source.new result }
{
    if begins_number(first) {
        read_as::<Numeral, S>(first, window, source)
    } else {
        read_as::<Spelling, S>(first, window, source)
    }
}

/// Where the next byte stands in the text.
#[derive(Drop)]
struct Place {
    comments: Comments,
    line: u64,
    /// Whether a token stands before it on its line.
    begun: bool,
    window: Window,
}

impl Place {
    ghost use Rattle.window_numbers.specs.Cursors.{is_begun};
    ghost use Rattle.window_numbers.specs.Cursors.{one_if};
    ghost use Rattle.qbf_text.specs.Stopping.{FindsToken, FindsEnd, PlaceSkips};
    ghost use Rattle.qbf_tokens.specs.declared.token.Token.TheVariants.{End};

    /// The cursor at the first of the bytes that were pulled.
    #[inline(always)]
    fn cursor(&self) -> Cursor
        ensures { result ≡ record {
          at = 0;
          line = self.now.line;
          tokens = one_if self.now.begun;
        } }
    {
        Cursor::new(self.line, self.begun)
    }

    /// Goes to a cursor among the bytes that were pulled.
    #[inline(always)]
    fn go_to(&mut self, here: Cursor)
        requires { here.at ≤ length self.old.window }
        ensures to { self.new ≡ record self.old {
          line = here.line;
          begun = is_begun here;
          window = drop here.at self.old.window;
        } }
        ensures shorter { length self.new.window + here.at ≡ length self.old.window }
        ensures few { length self.old.window ≤ 4096 }
    {
        self.window.go_to(here.at);
        self.line = here.line;
        self.begun = here.is_begun();
    }

    /// The next token and its line, if it is a number or the letter of a set that was pulled whole
    /// with the separator after it. Both are taken then. Otherwise nothing is taken.
    #[inline(always)]
    fn pulled_token(&mut self) -> Option<(Token, u64)>
        ensures found { IfSome result (λ token. (remaining : Option (List ℕ)) →
            FindsToken self.old remaining self.new remaining token) }
        ensures rest { IfSome result (λ _. self.new.window
            ≡ drop (length self.old.window - length self.new.window) self.old.window) }
        ensures less { IfSome result (λ _. (length self.new.window < length self.old.window)
            × (length self.old.window ≤ 4096)) }
        ensures none { IfNone result (self.new ≡ self.old) }
    {
        let line = self.line;
        let Some(passed) = self.cursor().token(self.window.bytes()) else {
            return None;
        };
        self.go_to(passed.next);
        Some((passed.token, line))
    }

    /// Goes past a separator, the next byte of those that were pulled.
    #[tactic(auto, using(std::proofs::lemmas::Grind::common_steps, crate::proofs::Stops::line_ends))]
    fn pass_separator(&mut self, byte: u8)
        requires next { (Some byte ≡ first_of self.old.window) × (is_separator byte ≡ true) }
        ensures none { (remaining : Option (List ℕ))
            → PlaceSkips self.old remaining self.new remaining }
        ensures less { length self.new.window < length self.old.window }
        ensures line { self.new.line < 2 ^ 64 }
    {
        // The proof reads here that the number has 64 bits.
        let _line = self.line;
        self.window.advance();
        if byte == b'\n' {
            self.line = self.line.saturating_add(1);
            self.begun = false;
        }
    }

    /// Goes past the separators that were pulled.
    #[tactic(auto, using(crate::proofs::Stops::place_skips_more))]
    fn skip_separators(&mut self)
        ensures none { (remaining : Option (List ℕ))
            → PlaceSkips self.old remaining self.new remaining }
        ensures no_more { length self.new.window ≤ length self.old.window }
    {
        while let Some(byte) = self.window.first() {
            if !is_separator(byte) {
                break;
            }
            self.pass_separator(byte);
        }
    }

    /// Goes past the separators that were pulled. Then the next token and its line, as
    /// `pulled_token` finds them.
    fn pulled_token_after_separators(&mut self) -> Option<(Token, u64)>
        ensures found { IfSome result (λ token. (remaining : Option (List ℕ)) →
            FindsToken self.old remaining self.new remaining token) }
        ensures less { IfSome result (λ _. (length self.new.window < length self.old.window)
            × (length self.new.window ≤ 4096)) }
        ensures none { IfNone result ((remaining : Option (List ℕ))
            → PlaceSkips self.old remaining self.new remaining) }
        ensures no_more { length self.new.window ≤ length self.old.window }
        ensures line { IfNone result (self.new.line < 2 ^ 64) }
    {
        self.skip_separators();
        // The proof reads here that the number has 64 bits.
        let _line = self.line;
        let found = self.pulled_token()?;
        Some(found)
    }

    /// Goes past a comment line, if one stands next that was pulled whole. Returns whether it does.
    #[inline(never)]
    fn skip_comment_line(&mut self) -> bool
        ensures none { (remaining : Option (List ℕ))
            → PlaceSkips self.old remaining self.new remaining }
        ensures less { IsTrue result → length self.new.window < length self.old.window }
        ensures same { result ≡ false → self.new ≡ self.old }
    {
        let Some(byte) = self.window.first() else {
            return false;
        };
        if self.begun || is_separator(byte) || !self.comments.begins_with(byte) {
            return false;
        }
        let end = line_len(self.window.bytes());
        if end >= self.window.len() {
            return false;
        }
        self.window.go_to(end);
        self.pass_separator(b'\n');
        true
    }

    /// The next token and its line, or `None` at the end.
    #[cold]
    #[inline(never)]
    fn scan<S: Source>(&mut self, source: &mut S) -> Result<Option<(Token, u64)>, SourceFault>
        // The source is read no further than after the token.
        ensures found { IfOk result (λ found. IfSome found (λ token.
            FindsToken self.old (S.remaining source.old) self.new (S.remaining source.new) token)) }
        ensures less { IfOk result (λ found. IfSome found (λ _.
            length self.new.window + S.bound source.new
            < length self.old.window + S.bound source.old)) }
        ensures none { IfOk result (λ found. IfNone found
            (FindsEnd self.old (S.remaining source.old) self.new (S.remaining source.new))) }
        ensures pulled { HasPulled S.bound S.failures self.old.window self.new.window
            source.old source.new result }
    {
        if let Some(token) = self.pulled_token_after_separators() {
            return Ok(Some(token));
        }
        while let Some(byte) = self.window.peek(source)? {
            if is_separator(byte) {
                self.pass_separator(byte);
            } else if !self.begun && self.comments.begins_with(byte) {
                self.window.advance();
                skip_line(&mut self.window, source)?;
                if let Some(token) = self.pulled_token_after_separators() {
                    return Ok(Some(token));
                }
            } else {
                self.window.advance();
                let token = read_run(byte, &mut self.window, source)?;
                self.begun = true;
                return Ok(Some((token, self.line)));
            }
        }
        Ok(None)
    }
}

/// X1: the source failed. Nothing is said of the tokens after those that were given.
#[derive(Clone, Copy, Debug, PartialEq, Eq)]
pub struct ScanFault;

/// The result that was given last.
#[derive(Clone, Copy)]
enum Status {
    /// A token, or nothing yet.
    Open,
    /// End.
    Ended,
    /// A fault.
    Failed,
}

/// Reads a text of QDIMACS 1.1 or of QRP token by token, and takes no memory: a token of any length
/// fits.
///
/// It pulls up to 4,096 bytes at a time, so it is lent the same source at each call.
/// Contracts see a `Reading`.
#[derive(Drop)]
pub struct Scanner {
    place: Place,
    status: Status,
    /// Numbers that stand at the front of the buffered bytes.
    numbers: Numbers,
}

impl Model for Scanner {
    ghost use Rattle.qbf_text.specs.Reading.{Reading};
    ghost use Rattle.window_numbers.specs.Numbers.{StandInFront};

    ghost Value = { Reading };

    ghost view = { λ s. record {
      comments = s.place.comments;
      line = s.place.line;
      begun = s.place.begun;
      pending = s.place.window;
      status = s.status;
    } };

    ghost invariant = { λ s. StandInFront s.numbers s.place.window };
}

impl Scanner {
    ghost use Rattle.qbf_tokens.specs.Tokens.{tokens};
    ghost use Rattle.qbf_text.specs.Reading.{left, GivesNext, HasEnded, HasFailed, IsOpen, IsReady};
    ghost use Rattle.qbf_text.specs.Passing.{cursor, scanner_at};
    ghost use Rattle.qbf_text.specs.Stopping.{tokens_next, ScannerSkips, ScannerTakes};
    ghost use Rattle.qbf_tokens.specs.declared.token.Token.TheVariants.{End};

    /// A scanner at the beginning of a text of this format.
    #[tactic(auto, unfolding(crate::specs::Reading::left))]
    pub fn new(comments: Comments) -> Scanner
        ensures left { (bytes : List ℕ) → left result (Some bytes) ≡ Some (tokens comments bytes) }
        ensures next { (bytes : List ℕ) → tokens_next result bytes ≡ tokens comments bytes }
        ensures pending { result.pending ≡ [] }
        ensures open { ¬ HasEnded result × ¬ HasFailed result }
    {
        Scanner {
            place: Place {
                comments,
                line: 1,
                begun: false,
                window: Window::new(),
            },
            status: Status::Open,
            numbers: Numbers::new(),
        }
    }

    /// Whether neither End nor a fault was given.
    #[inline(always)]
    pub fn is_open(&self) -> bool
        ensures { IsTrue result ↔ IsOpen self.now }
    {
        match self.status {
            Status::Open => true,
            Status::Ended | Status::Failed => false,
        }
    }

    /// Makes numbers known that stand at the front of the buffered bytes, if none are.
    #[inline(always)]
    pub fn prepare(&mut self)
        ensures { self.new ≡ self.old }
    {
        self.place.window.find_numbers(&mut self.numbers);
    }

    /// The numbers that are known at the front of the buffered bytes.
    #[inline(always)]
    pub fn numbers(&self) -> &Numbers
        ensures { StandInFront result.now self.now.pending }
    {
        &self.numbers
    }

    /// The buffered bytes.
    #[inline(always)]
    pub fn bytes(&self) -> &[u8]
        ensures { result.now ≡ self.now.pending }
    {
        self.place.window.bytes()
    }

    /// Where the first of the buffered bytes stands.
    #[inline(always)]
    pub fn cursor(&self) -> Cursor
        ensures { result ≡ cursor self.now }
    {
        self.place.cursor()
    }

    /// Goes to a place among the buffered bytes, past so many of the numbers.
    #[inline(always)]
    pub fn go_to(&mut self, here: Cursor, numbers: usize)
        requires { here.at ≤ length self.old.pending }
        ensures to { self.new ≡ scanner_at self.old here }
        ensures few { length self.new.pending ≤ 4096 }
    {
        self.place.go_to(here);
        self.numbers.pass(numbers, here.at);
    }

    /// Goes past a comment line, if one stands next that was pulled whole. Returns whether it does.
    #[inline(always)]
    pub fn pass_comment(&mut self) -> bool
        ensures skips { (remaining : Option (List ℕ))
            → ScannerSkips self.old remaining self.new remaining }
        ensures status { self.new.status ≡ self.old.status }
        ensures less { IsTrue result → length self.new.pending < length self.old.pending }
        ensures open { IsTrue result → IsOpen self.old }
        ensures same { result ≡ false → self.new ≡ self.old }
    {
        let is_passed = self.is_open() && self.place.skip_comment_line();
        if is_passed {
            self.numbers.pass_comment();
        }
        is_passed
    }

    /// The next token and its line.
    ///
    /// Lines end at byte 10 and are counted from 1; the count stays at 18446744073709551615. End
    /// stands on the line after the last byte 10. After End every call returns the same End and
    /// pulls nothing.
    ///
    /// # Errors
    /// X1 if the source failed. Every later call returns X1 and pulls nothing.
    #[tactic(auto, unfolding(crate::specs::Reading::left))]
    #[inline(always)]
    pub fn next_token<S: Source>(&mut self, source: &mut S) -> Result<(Token, u64), ScanFault>
        ensures token { IfOk result (λ token.
            GivesNext (left self.old (S.remaining source.old))
            (left self.new (S.remaining source.new)) token) }
        // Nothing is taken after a token but a separator.
        ensures takes { IfOk result (λ token. is_end token.0 ≡ false →
            ScannerTakes self.old (S.remaining source.old) self.new
            (S.remaining source.new) token) }
        ensures few { IfOk result
            (λ token. is_end token.0 ≡ false → length self.new.pending ≤ 4096) }
        // With each token but End less can still come.
        ensures bound { IfOk result (λ token. is_end token.0 ≡ false →
            length self.new.pending + S.bound source.new
            < length self.old.pending + S.bound source.old) }
        ensures no_more { OnOk result (
            length self.new.pending + S.bound source.new
            ≤ length self.old.pending + S.bound source.old) }
        // End and a fault are given for good, and nothing is pulled then.
        ensures end { IfOk result (λ token. is_end token.0 ≡ true → HasEnded self.new) }
        ensures line { IfOk result (λ token. is_end token.0 ≡ true → token ≡ (End, self.new.line)) }
        // No byte remains after End.
        ensures ready { OnOk result (
            IsReady self.old (S.remaining source.old) → IsReady self.new (S.remaining source.new)) }
        ensures ended { HasEnded self.old
            → IsOk result × (self.new ≡ self.old) × (source.new ≡ source.old) }
        ensures fault { OnErr result (HasFailed self.new) }
        ensures failed { HasFailed self.old
            → IsErr result × (self.new ≡ self.old) × (source.new ≡ source.old) }
        // A fault is first given if the source failed in the call.
        ensures ok { OnOk result (S.failures source.new ≡ S.failures source.old) }
        ensures err { OnErr result (¬ HasFailed self.old →
            S.failures source.old < 2 ^ 64 - 1 → S.failures source.old < S.failures source.new) }
    {
        match self.status {
            Status::Failed => return Err(ScanFault),
            Status::Ended => return Ok((Token::End, self.place.line)),
            Status::Open => {}
        }
        let before = self.place.window.len();
        if let Some(token) = self.place.pulled_token() {
            let len = before - self.place.window.len();
            self.numbers.pass_token(token.0, len);
            return Ok(token);
        }
        self.numbers.forget();
        match self.place.scan(source) {
            Ok(Some(token)) => Ok(token),
            Ok(None) => {
                self.status = Status::Ended;
                Ok((Token::End, self.place.line))
            }
            Err(_) => {
                self.status = Status::Failed;
                Err(ScanFault)
            }
        }
    }
}
