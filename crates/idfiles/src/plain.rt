// Plain lines: digits alone, and an LF.
ghost use Rattle.std.specs.Prelude.{◌≡◌, ◌+◌, ◌^◌, ◌<◌, ◌≤◌, length, IfOk};
ghost use mathlib.Core.List.{IsPrefix};
ghost use Rattle.idfiles.specs.Scan.{GivesFront, scanned};

use crate::digits::leading_digits;
use crate::line::{LineState, MAX_DIGITS};
use crate::scan::{Fed, Scan};
use crate::{IdFault, IdRecord};

// The most bytes of a plain line, its LF with them.
const PLAIN_BYTES: usize = MAX_DIGITS as usize + 1;

impl Scan {
    /// Takes the plain lines at the front, one after the other, while as many bytes are left as
    /// such a line may have, and the digits at the front of the line behind them. After an `Err`
    /// the records of the lines before it may stand behind the others.
    ///
    /// Not inlined, so that its loop has the registers for itself.
    #[inline(never)]
    pub fn plain_lines(self, records: &mut Vec<IdRecord>, bytes: &[u8]) -> Result<Fed, IdFault>
        requires blank { self.state ≡ LineState.Blank }
        requires fits { self.line + length bytes.now + 1 < 2 ^ 64 }
        ensures read { GivesFront result records.new.items bytes.now
            (scanned self records.old.items bytes.now) }
        ensures taken { IfOk result (λ fed. fed.taken ≤ length bytes.now) }
        ensures front { IsPrefix records.old.items records.new.items }
        ensures line { IfOk result (λ fed. fed.scan.line ≤ self.line + fed.taken) }
    {
        let mut scan = self;
        let mut at = 0;
        while bytes.len() - at >= PLAIN_BYTES {
            let front = &bytes[at..at + PLAIN_BYTES];
            let digits = leading_digits(front);
            if digits.count == 0 {
                break;
            }
            if front[digits.count] != b'\n' {
                // The line goes on behind them.
                scan.state = LineState::of_digits(digits);
                return Ok(Fed {
                    scan,
                    taken: at + digits.count,
                });
            }
            scan = scan.end_id(records, digits.value)?;
            at += digits.count + 1;
        }
        Ok(Fed { scan, taken: at })
    }
}
