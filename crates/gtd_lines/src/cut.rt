//! Where the records of a file begin, byte by byte.

ghost use Rattle.std.specs.Prelude.{◌≡◌, ◌≤◌, ◌<◌, ◌+◌, ℕ, [], drop, length};
ghost use Rattle.std.specs.List.{count_by};
ghost use Rattle.csv.specs.Machine.{next_record};
ghost use Rattle.csv.specs.Reading.{default_config, strip_bom};
ghost use Rattle.csv.specs.declared.parser.State.TheVariants.{InField, StartField};
ghost use Rattle.gtd_lines.specs.Cut.{IsPlace, IsStep, state_of};
ghost use Rattle.gtd_lines.specs.Lines.{from_record, is_line_feed, rest_of};

// Where the bytes of a record stop, before its end.
#[derive(Clone, Copy)]
pub(crate) enum Within {
    // Before the first byte of a field.
    FieldStart,
    // In a field outside quotes.
    Plain,
    // In quotes.
    Quoted,
    // After a quote in quotes: it ends them, or is the first of two that stand for one.
    Quote,
}

// Where a byte outside quotes leads to, or `None` if it ends the record.
fn outside(byte: u8) -> Option<Within>
    ensures { IsStep InField byte result }
{
    if byte == b',' {
        Some(Within::FieldStart)
    } else if byte == 10 || byte == 13 {
        None
    } else {
        Some(Within::Plain)
    }
}

// Where the next byte leads to, or `None` if it ends the record.
fn step(within: Within, byte: u8) -> Option<Within>
    ensures { IsStep (state_of within) byte result }
{
    match within {
        Within::Plain => outside(byte),
        Within::Quoted => {
            if byte == b'"' {
                Some(Within::Quote)
            } else {
                Some(Within::Quoted)
            }
        }
        Within::FieldStart => {
            if byte == b'"' {
                Some(Within::Quoted)
            } else {
                outside(byte)
            }
        }
        Within::Quote => {
            if byte == b'"' {
                Some(Within::Quoted)
            } else {
                outside(byte)
            }
        }
    }
}

// How many bytes a record takes that begins with the first of these, its line end included: of CR LF only the CR.
fn record_length(bytes: &[u8]) -> usize
    ensures within { result ≤ length bytes.now }
    ensures some { 0 < length bytes.now → 0 < result }
    ensures rest { drop result bytes.now ≡ (rest_of (next_record default_config StartField [] [] bytes.now)).1 }
{
    let mut within = Within::FieldStart;
    for (at, byte) in bytes.iter().enumerate() {
        match step(within, *byte) {
            Some(next) => within = next,
            None => return at + 1,
        }
    }
    bytes.len()
}

// How many line ends these bytes begin with.
fn line_ends(bytes: &[u8]) -> usize
    ensures within { result ≤ length bytes.now }
    ensures rest { drop result bytes.now ≡ from_record bytes.now }
{
    for (at, byte) in bytes.iter().enumerate() {
        if *byte != 10 && *byte != 13 {
            return at;
        }
    }
    bytes.len()
}

// How many line feeds there are.
fn line_feeds(bytes: &[u8]) -> u64
    ensures few { result ≤ length bytes.now }
    ensures count { result ≡ count_by is_line_feed bytes.now }
{
    let mut count = 0u64;
    for byte in bytes {
        if *byte == 10 {
            count += 1;
        }
    }
    count
}

// How many bytes of a byte order mark these bytes begin with.
fn mark_length(bytes: &[u8]) -> usize
    ensures within { result ≤ length bytes.now }
    ensures rest { drop result bytes.now ≡ strip_bom bytes.now }
{
    if bytes.len() >= 3 && bytes[0] == 0xef && bytes[1] == 0xbb && bytes[2] == 0xbf {
        return 3;
    }
    0
}

/// Where a record of a file begins.
#[derive(Clone, Copy)]
pub struct Place {
    /// How many bytes stand before it.
    pub at: usize,
    /// The line on which it begins, from 1.
    pub line: u64,
}

impl Place {
    /// The place of the first record of these bytes: the header of a file.
    pub fn first(bytes: &[u8]) -> Place
        ensures place { IsPlace bytes.now 0 result }
    {
        let mark = mark_length(bytes);
        let at = mark + line_ends(&bytes[mark..]);
        Place {
            at,
            line: line_feeds(&bytes[..at]) + 1,
        }
    }

    /// The place of the next record of the same bytes, which is their end if there is none.
    pub fn next(self, bytes: &[u8]) -> Place
        ensures place { (number : ℕ) → IsPlace bytes.now number self → IsPlace bytes.now (number + 1) result }
        ensures forward { self.at < length bytes.now → self.at < result.at }
    {
        if self.at > bytes.len() {
            return self;
        }
        let left = &bytes[self.at..];
        let taken = record_length(left);
        let length = taken + line_ends(&left[taken..]);
        Place {
            at: self.at + length,
            line: self.line.saturating_add(line_feeds(&left[..length])),
        }
    }
}
