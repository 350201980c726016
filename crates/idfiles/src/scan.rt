// A file read from its front, line by line.
ghost use Rattle.std.specs.Prelude.{◌≡◌, ◌+◌, ◌-◌, ◌^◌, ◌<◌, ◌≤◌, length, IfOk};
ghost use mathlib.Core.List.{IsPrefix};
ghost use Rattle.idfiles.specs.Scan.{Gives, GivesFront, ended, ended_as, next_line, scanned, scanned_within, start};

use crate::front::{ByteKind, leading};
use crate::line::{Line, LineState};
use crate::{IdFault, IdRecord};

/// How far a file was read: how many more records may come, and the line that has begun.
#[derive(Clone, Copy)]
pub struct Scan {
    /// The number of the file, from 1.
    pub file: u32,
    /// How many more records there is room for.
    pub room: u64,
    /// The number of the line, from 1.
    pub line: u64,
    /// What the bytes of the line so far are.
    pub state: LineState,
}

/// A scan, and how many bytes at the front of some led to it.
#[derive(Clone, Copy)]
pub struct Fed {
    /// How far the file was read then.
    pub scan: Scan,
    /// How many the bytes are.
    pub taken: usize,
}

impl Scan {
    /// Nothing is read yet of this file, which may have so many records.
    pub fn new(file: u32, room: u64) -> Scan
        ensures { result ≡ start file room }
    {
        Scan {
            file,
            room,
            line: 1,
            state: LineState::Blank,
        }
    }

    // The next line begins, with so much room.
    fn next_line(self, room: u64) -> Scan
        requires { self.line + 1 < 2 ^ 64 }
        ensures { result ≡ next_line self room }
    {
        Scan {
            file: self.file,
            room,
            line: self.line + 1,
            state: LineState::Blank,
        }
    }

    /// Ends the line as this id, whose record comes behind the others.
    pub fn end_id(self, records: &mut Vec<IdRecord>, id: u64) -> Result<Scan, IdFault>
        requires { self.line + 1 < 2 ^ 64 }
        ensures read { Gives result records.new.items
            (ended_as (Line.Id id) self records.old.items) }
        ensures front { IsPrefix records.old.items records.new.items }
        ensures line { IfOk result (λ scan. scan.line ≡ self.line + 1) }
    {
        if self.room == 0 {
            return Err(IdFault::TooMany);
        }
        records.push(IdRecord {
            file: self.file,
            line: self.line,
            id,
        })?;
        Ok(self.next_line(self.room - 1))
    }

    /// Ends the line, whose record comes behind the others.
    pub fn end_line(self, records: &mut Vec<IdRecord>) -> Result<Scan, IdFault>
        requires { self.line + 1 < 2 ^ 64 }
        ensures read { Gives result records.new.items (ended self records.old.items) }
        ensures front { IsPrefix records.old.items records.new.items }
        ensures line { IfOk result (λ scan. scan.line ≡ self.line + 1) }
    {
        match self.state.line() {
            Line::Blank => Ok(self.next_line(self.room)),
            Line::Id(id) => self.end_id(records, id),
            Line::Bad => Err(IdFault::BadLine {
                file: self.file,
                line: self.line,
            }),
        }
    }

    /// Takes the bytes, and ends each line at its LF. After an `Err` the records of the lines that
    /// ended before it may stand behind the others.
    pub fn feed(self, records: &mut Vec<IdRecord>, bytes: &[u8]) -> Result<Scan, IdFault>
        requires { self.line + length bytes.now + 1 < 2 ^ 64 }
        ensures read { Gives result records.new.items (scanned self records.old.items bytes.now) }
        ensures front { IsPrefix records.old.items records.new.items }
        ensures line { IfOk result (λ scan. scan.line ≤ self.line + length bytes.now) }
    {
        let mut scan = self;
        let mut at = 0;
        while at < bytes.len() {
            let fed = scan.turn(records, &bytes[at..])?;
            scan = fed.scan;
            at += fed.taken;
        }
        Ok(scan)
    }

    // Takes the plain lines at the front where a line begins with a digit; else, or where nothing
    // was taken, what `careful_turn` takes. Both are inlined, since a turn may be short.
    #[inline(always)]
    fn turn(self, records: &mut Vec<IdRecord>, bytes: &[u8]) -> Result<Fed, IdFault>
        requires some { 0 < length bytes.now }
        requires fits { self.line + length bytes.now + 1 < 2 ^ 64 }
        ensures read { GivesFront result records.new.items bytes.now
            (scanned self records.old.items bytes.now) }
        ensures taken { IfOk result (λ fed. (0 < fed.taken) × (fed.taken ≤ length bytes.now)) }
        ensures front { IsPrefix records.old.items records.new.items }
        ensures line { IfOk result (λ fed. fed.scan.line ≤ self.line + fed.taken) }
    {
        if !self.state.is_blank() || !bytes[0].is_ascii_digit() {
            return self.careful_turn(records, bytes);
        }
        let fed = self.plain_lines(records, bytes)?;
        if fed.taken > 0 {
            return Ok(fed);
        }
        fed.scan.careful_turn(records, bytes)
    }

    // Takes an LF, or bytes that stand together before the next.
    #[inline(always)]
    fn careful_turn(self, records: &mut Vec<IdRecord>, bytes: &[u8]) -> Result<Fed, IdFault>
        requires some { 0 < length bytes.now }
        requires fits { self.line + length bytes.now + 1 < 2 ^ 64 }
        ensures read { GivesFront result records.new.items bytes.now
            (scanned self records.old.items bytes.now) }
        ensures taken { IfOk result (λ fed. (0 < fed.taken) × (fed.taken ≤ length bytes.now)) }
        ensures front { IsPrefix records.old.items records.new.items }
        ensures line { IfOk result (λ fed. fed.scan.line ≤ self.line + fed.taken) }
    {
        let mut scan = self;
        if bytes[0] != b'\n' {
            let run = self.state.run(bytes);
            scan.state = run.state;
            return Ok(Fed {
                scan,
                taken: run.taken,
            });
        }
        if self.state.is_blank() {
            // A blank line ends, and the empty lines behind it.
            let lines = leading(bytes, ByteKind::Lf);
            scan.line += lines as u64;
            return Ok(Fed { scan, taken: lines });
        }
        scan = self.end_line(records)?;
        Ok(Fed { scan, taken: 1 })
    }

    /// Takes at most `left` of the bytes; one more is a fault.
    pub fn feed_within(
        self,
        records: &mut Vec<IdRecord>,
        bytes: &[u8],
        left: usize,
    ) -> Result<Scan, IdFault>
        requires { self.line + length bytes.now + 1 < 2 ^ 64 }
        ensures read { Gives result records.new.items
            (scanned_within left self records.old.items bytes.now) }
        ensures front { IsPrefix records.old.items records.new.items }
        ensures line { IfOk result (λ scan. scan.line ≤ self.line + length bytes.now) }
        ensures within { IfOk result (λ scan. length bytes.now ≤ left) }
    {
        if bytes.len() <= left {
            return self.feed(records, bytes);
        }
        let scan = self.feed(records, &bytes[..left])?;
        Err(IdFault::TooLong { file: scan.file })
    }
}
