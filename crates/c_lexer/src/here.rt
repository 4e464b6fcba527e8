//! Where a reading stands: presumed file and line, and the column.

ghost use Rattle.std.specs.Prelude.{◌≡◌, ◌+◌, ◌<◌, ◌≤◌, ◌^◌, ◌&&◌, length, ℕ, List, false};
ghost use Rattle.c_lexer.specs.CReading.Pieces.{beginning, behind_byte, behind_bytes, further};
ghost use Rattle.c_lexer.specs.Progress.{here_of, InBounds};

use crate::bytes::is_gap;

/// Where a reading stands.
#[derive(Clone, Copy)]
pub struct Here {
    /// How many bytes stand before.
    pub offset: u32,
    /// The number of the presumed file's name.
    pub source: u32,
    /// The presumed line.
    pub line: u32,
    /// The column in the line as it was handed in, from 1.
    pub column: u32,
    /// Whether only spaces and tabs stand before on this line, and the line doesn't begin inside a comment.
    pub first: bool,
}

impl Here {
    /// At the beginning of a file with this name.
    pub fn beginning(source: u32) -> Here
        ensures source { result.source ≡ source }
        ensures stands { (file : List ℕ) → here_of file result ≡ beginning file }
        ensures bounds { InBounds result }
    {
        Here {
            offset: 0,
            source,
            line: 1,
            column: 1,
            first: true,
        }
    }

    /// Behind one byte.
    pub fn behind_byte(self, byte: u8) -> Here
        requires bounds { InBounds self }
        requires room { self.offset < 16777216 }
        ensures source { result.source ≡ self.source }
        ensures offset { result.offset ≡ self.offset + 1 }
        ensures stands { (file : List ℕ) → here_of file result ≡ behind_byte (here_of file self) byte }
        ensures bounds { InBounds result }
    {
        let offset = self.offset + 1;
        let source = self.source;
        if byte == b'\n' {
            return Here {
                offset,
                source,
                line: self.line + 1,
                column: 1,
                first: true,
            };
        }
        Here {
            offset,
            source,
            line: self.line,
            column: self.column + 1,
            first: self.first && is_gap(byte),
        }
    }

    /// Behind bytes.
    pub fn behind_bytes(self, bytes: &[u8]) -> Here
        requires bounds { InBounds self }
        requires room { self.offset + length bytes.now ≤ 16777216 }
        ensures source { result.source ≡ self.source }
        ensures offset { result.offset ≡ self.offset + length bytes.now }
        ensures stands { (file : List ℕ) → here_of file result ≡ behind_bytes (here_of file self) bytes.now }
        ensures bounds { InBounds result }
    {
        let mut here = self;
        let mut rest = bytes;
        'going: while let [front, behind @ ..] = rest {
            here = here.behind_byte(*front);
            rest = behind;
        }
        here
    }

    /// Behind a comment's bytes.
    pub fn behind_comment(self, bytes: &[u8]) -> Here
        requires bounds { InBounds self }
        requires room { self.offset + length bytes.now ≤ 16777216 }
        ensures source { result.source ≡ self.source }
        ensures offset { result.offset ≡ self.offset + length bytes.now }
        ensures stands { (file : List ℕ) →
            here_of file result ≡ record (behind_bytes (here_of file self) bytes.now) { first = false } }
        ensures bounds { InBounds result }
    {
        let mut here = self.behind_bytes(bytes);
        here.first = false;
        here
    }

    /// Behind so many bytes without a line feed that aren't all spaces and tabs.
    pub fn further(self, count: usize) -> Here
        requires bounds { InBounds self }
        requires room { self.offset + count ≤ 16777216 }
        ensures source { result.source ≡ self.source }
        ensures offset { result.offset ≡ self.offset + count }
        ensures stands { (file : List ℕ) → here_of file result ≡ further (here_of file self) count }
        ensures bounds { InBounds result }
    {
        Here {
            offset: self.offset + count as u32,
            source: self.source,
            line: self.line,
            column: self.column + count as u32,
            first: false,
        }
    }
}
