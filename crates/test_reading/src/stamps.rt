//! Stamps and their times, whose seconds are those of `date -u +%s`.

use crate::headers::is_told;
use stamp::{Stamp, read_stamp};
use std::alloc::{AllocError, Global};

/// A stamp, and behind `=` what it says.
const STAMPS: &str = "1970-01-01 00:00:00 +0000=0
1969-12-31 23:59:59 -0000=-1
2002-02-21 23:30:39.942229878 -0800=1014363039 and 942229878
2024-02-29 12:34:56.0 +0530=1709190296
1970-01-01 00:00:00.5 +0000=0 and 500000000
1970-01-01 00:00:00.000000001 +0000=0 and 1
1969-12-31 23:59:59.999999999999 +0000=-1 and 999999999
1970-01-01 00:00:00.0000000009 +0000=0
9999-12-31 23:59:59 -2359=253402387139
0001-01-01 00:00:00 +2359=-62135683140
1900-03-01 00:00:00 +0000=-2203891200
Thu Feb 21 23:30:39 2002=1014334239 local
Mon Mar  1 00:00:00 2019=1551398400 local
Fri Mar 01 00:00:00 2019=1551398400 local
Thu Jan  1 00:00:00 1970=0 local
1970-01-01 00:00:00=0 local
2002-02-21 23:30:39.942229878=1014334239 and 942229878 local
1900-02-29 00:00:00 +0000=Unknown
0000-01-01 00:00:00 +0000=Unknown
1970-01-01 24:00:00 +0000=Unknown
1970-01-01 00:00:00. +0000=Unknown
1970-01-01 00:00:00 +2400=Unknown
1970-01-01 00:00:00 +0060=Unknown
1970-01-01 00:00:00.=Unknown
1970-01-01 00:00:00 +=Unknown
1970-01-01 00:00:00 +00000=Unknown
1970-1-01 00:00:00 +0000=Unknown
thu Feb 21 23:30:39 2002=Unknown
Thu Feb 21 23:30:39.5 2002=Unknown
Thu Feb 30 23:30:39 2002=Unknown
=Unknown";

/// What a stamp says, as rows tell it: seconds, nanoseconds where there are any, and `local` where no zone is known.
pub fn words(alloc: Global, stamp: Stamp) -> Result<String, AllocError> {
    match stamp {
        Stamp::Known(time) => {
            let (seconds, nanoseconds) = (time.seconds, time.nanoseconds);
            let zone = if time.is_local { " local" } else { "" };
            if nanoseconds == 0 {
                format!(in alloc; "{seconds}{zone}")
            } else {
                format!(in alloc; "{seconds} and {nanoseconds}{zone}")
            }
        }
        Stamp::Unknown => String::from_str(alloc, "Unknown"),
    }
}

/// Whether the stamp of a row says what stands behind it.
fn is_so(alloc: Global, row: &str) -> bool {
    match row.split_once('=') {
        Some((text, wanted)) => is_told(words(alloc, read_stamp(text.as_bytes())), wanted),
        None => false,
    }
}

#[test]
fn stamps_are_read(rt: HostRuntime) {
    for row in STAMPS.split('\n') {
        assert!(rt; is_so(rt.alloc(), row), "{row}");
    }
}
