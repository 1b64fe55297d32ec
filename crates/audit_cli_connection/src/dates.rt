//! Dates of reports.
ghost use Rattle.std.specs.Prelude.{◌≡◌, ◌++◌, OnOk};
ghost use Rattle.audit_cli_connection.specs.Dates.{date_or_dash};

use httpdate::HttpDate;
use std::alloc::AllocError;
use std::time::Clock;

/// The date of now, to a second; none if there is no clock, or it is past the year 9999.
pub fn date_of_now<C: Clock>(clock: &C) -> Option<HttpDate> {
    let now = clock.since_1970().ok()?;
    HttpDate::from_unix_secs(now.as_secs()).ok()
}

/// Appends a date, or a dash for none.
pub fn push_date(line: &mut Vec<u8>, date: Option<HttpDate>) -> Result<(), AllocError>
    ensures { OnOk result (line.new.items ≡ line.old.items ++ date_or_dash date) }
{
    match date {
        Some(date) => line.extend_from_slice(&date.to_bytes()),
        None => line.extend_from_slice(b"-"),
    }
}
