ghost use Rattle.hare.specs.Ends.{IsOffered};

use crate::status::Status;
use hr_shelf::{Failed, Sink};

/// Writes the report in one piece. The status stands, unless it was not written.
pub fn tell<K: Sink>(out: &mut K, report: &[u8], status: Status) -> Status
    ensures { IsOffered report.now status (K.output out.old) (K.output out.new) result }
{
    match out.write(report) {
        Ok(()) => status,
        Err(Failed) => Status::ReportFault,
    }
}
