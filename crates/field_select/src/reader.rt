//! The bytes of a selector, taken from the left.

ghost use Rattle.std.specs.Prelude.{◌≡◌, ◌==◌, ◌<◌, ◌≤◌, false, length, slice_index, MatchOption, None, Some};
ghost use Rattle.field_select.specs.Bytes.{EachBelow, Escapes, begins_with, is_escaped, is_in, left, taken, without};
ghost use Rattle.field_select.specs.Reading.{operator_at, place};

/// Bytes that follow each other in a selector.
#[derive(Clone, Copy)]
pub enum Run {
    /// Commas.
    Commas,
    /// The name of a field.
    Name,
    /// A part of a value without escapes.
    Plain,
}

fn is_escaped(b: u8) -> bool
    ensures { result ≡ is_escaped b }
{
    matches!(b, b'\\' | b',' | b'=')
}

#[tactic(auto, unfolding(crate::specs::Bytes::is_in))]
fn is_in(run: Run, b: u8) -> bool
    ensures { result ≡ is_in run b }
{
    match run {
        Run::Commas => b == b',',
        Run::Name => !(is_escaped(b) || b == b'!'),
        Run::Plain => !is_escaped(b),
    }
}

/// How many bytes at the front are part of such a run.
fn run_len(run: Run, bytes: &[u8]) -> usize
    ensures within { result ≤ length bytes.now }
    ensures each { EachBelow (is_in run) bytes.now result }
    ensures longest { result < length bytes.now → is_in run (slice_index bytes.now result) ≡ false }
{
    for (i, b) in bytes.iter().enumerate() {
        if !is_in(run, *b) {
            return i;
        }
    }
    bytes.len()
}

/// The bytes of a selector that are left to be read.
#[derive(Drop)]
pub struct Reader<'a> {
    rest: &'a str,
    end: usize,
    ghost within: { length rest.now ≤ end },
}

impl<'a> Reader<'a> {
    /// All bytes of the text.
    pub fn of(text: &'a str) -> Reader<'a>
        ensures rest { result.rest.now ≡ text.now }
        ensures end { result.end ≡ length text.now }
    {
        Reader {
            rest: text,
            end: text.len(),
        }
    }

    /// The place of the next byte, or of the end of the text.
    pub fn place(&self) -> usize
        ensures { result ≡ place self.now.end self.now.rest.now }
    {
        self.end - self.rest.len()
    }

    /// Whether no byte is left.
    pub fn is_done(&self) -> bool
        ensures { result ≡ (length self.now.rest.now == 0) }
    {
        self.rest.is_empty()
    }

    /// Steps over such a run, and gives it.
    pub fn take_run(&mut self, run: Run) -> &'a str
        ensures end { self.new.end ≡ self.old.end }
        ensures taken { result.now ≡ taken (is_in run) self.old.rest.now }
        ensures left { self.new.rest.now ≡ left (is_in run) self.old.rest.now }
    {
        let (front, rest) = self.rest.split_at(run_len(run, self.rest.as_bytes()));
        self.rest = rest;
        front
    }

    /// Steps over the next byte where it is this one, and says whether it is.
    pub fn takes(&mut self, byte: char) -> bool
        requires { byte < 128 }
        ensures end { self.new.end ≡ self.old.end }
        ensures answer { result ≡ begins_with byte self.old.rest.now }
        ensures left { self.new.rest.now ≡ without byte self.old.rest.now }
    {
        match self.rest.strip_prefix(byte) {
            Some(rest) => {
                self.rest = rest;
                true
            }
            None => false,
        }
    }

    /// Steps over the longest operator, and says whether it asks for equal values. Where there is
    /// none, nothing is said of what is left.
    #[tactic(auto, unfolding(crate::specs::Reading::operator_at))]
    pub fn operator(&mut self) -> Option<bool>
        ensures end { self.new.end ≡ self.old.end }
        ensures found { MatchOption result (operator_at self.old.rest.now ≡ None)
            (λ equal. operator_at self.old.rest.now ≡ Some (equal, self.new.rest.now)) }
    {
        if self.takes('=') {
            let _ = self.takes('=');
            return Some(true);
        }
        if !self.takes('!') {
            return None;
        }
        if self.takes('=') { Some(false) } else { None }
    }

    /// Steps over a byte that a `\` may escape, and gives it.
    pub fn escaped(&mut self) -> Option<char>
        ensures end { self.new.end ≡ self.old.end }
        ensures found { Escapes self.old.rest.now result self.new.rest.now }
    {
        if self.takes('\\') {
            return Some('\\');
        }
        if self.takes(',') {
            return Some(',');
        }
        if self.takes('=') { Some('=') } else { None }
    }
}
