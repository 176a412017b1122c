//! A row: the plan, what is wrong, the lines of the file, what they are when it is read a second time, and behind `=` what comes of it.

use crate::changing::ChangingFile;
use crate::spoiling::{SpoilingScratch, Wrong};
use crate::taking::{by_packed, by_padded};
use mem_world::MemScratch;
use std::alloc::{AllocError, Global};

/// Lines are told by how many there are of how many bytes, the line feed counted. In front stand files that are others when their lines
/// are copied, and the two numbers that differ then; where none do, the file is taken as it was then. Behind them stands what comes back
/// wrong: a record is for a line of two bytes, a page has room for 508 bytes behind the length of its first line, and behind a line of
/// 506 bytes it has two left and not four for another length. Last stand the bytes that are left in the scratch: four lines of 100 bytes
/// are on a page, and one of 508 bytes fills it.
const ROWS: &str = "b nothing 1*4 1*2 / 3*2 = Disagree { want: 2, got: 3 }
packed nothing 1*4 1*2 / 3*2 = Disagree { want: 2, got: 3 }
b nothing 2*255 1*90 / 1*510 1*90 = Disagree { want: 255, got: 510 }
packed nothing 2*255 1*90 / 1*510 1*90 = Disagree { want: 508, got: 510 }
b nothing 6*100 / 1*600 = Disagree { want: 100, got: 512 }
packed nothing 6*100 / 1*600 = Disagree { want: 508, got: 512 }
b nothing 1*300 1*250 1*300 / 2*250 1*350 = Disagree { want: 300, got: 350 }
packed nothing 1*300 1*250 1*300 / 2*250 1*350 = Disagree { want: 3, got: 2 }
b nothing 2*250 1*350 / 1*300 1*250 1*300 = Ok((0, None))
packed nothing 2*250 1*350 / 1*300 1*250 1*300 = Disagree { want: 2, got: 3 }
b page 300*2 / 300*2 = Err(Disagree { want: 512, got: 511 })
packed page 300*2 / 300*2 = Err(Disagree { want: 512, got: 511 })
packed number 300*2 / 300*2 = Err(Disagree { want: 8, got: 7 })
b 65538 300*2 / 300*2 = Err(Disagree { want: 2, got: 65538 })
packed 65538 300*2 / 300*2 = Err(Disagree { want: 508, got: 65538 })
packed 506 300*2 / 300*2 = Err(Disagree { want: 512, got: 514 })
b turned 3*2 / 3*2 = Ok((1, Some(1)))
packed turned 3*2 / 3*2 = Ok((1, Some(1)))
b nothing 100*100 / 100*100 = Ok((0, None)) 12800
packed nothing 100*100 / 100*100 = Ok((0, None)) 13000
b nothing 100*100 1*508 / 100*100 1*508 = Ok((0, None)) 51712
packed nothing 100*100 1*508 / 100*100 1*508 = Ok((0, None)) 13520";

/// A line of so many bytes, the line feed counted, so many times.
fn add_lines(bytes: &mut Vec<u8>, count: u32, length: u32) -> Result<(), AllocError> {
    for _ in 0..count {
        for _ in 1..length {
            bytes.push(b'x')?;
        }
        bytes.push(b'\n')?;
    }
    Ok(())
}

/// Lines, by how many there are of how many bytes.
fn lines_of(alloc: Global, lines: &str) -> Result<Vec<u8>, AllocError> {
    let mut bytes = Vec::new(alloc);
    for group in lines.split(' ') {
        let (count, length) = group.split_once('*').unwrap_or(("", ""));
        let (count, length) = (count.parse().unwrap_or(0), length.parse().unwrap_or(0));
        add_lines(&mut bytes, count, length)?;
    }
    Ok(bytes)
}

fn wrong_of(text: &str) -> Wrong {
    match text {
        "nothing" => Wrong::Nothing,
        "turned" => Wrong::Turned,
        "page" => Wrong::ShortPage,
        "number" => Wrong::ShortNumber,
        stated => Wrong::Stated(stated.parse().unwrap_or(0)),
    }
}

/// A file with these lines, and with others when it is read a second time.
fn file_of(alloc: Global, lines: &str) -> Result<ChangingFile, AllocError> {
    let (first, others) = lines.split_once(" / ").unwrap_or((lines, ""));
    Ok(ChangingFile {
        first: lines_of(alloc, first)?,
        others: lines_of(alloc, others)?,
        begun: 0,
        faults: 0,
    })
}

/// What comes of it, where so many reads of the scratch come right, and how many bytes the scratch has then.
fn answered(
    alloc: Global,
    plan: &str,
    wrong: Wrong,
    lines: &str,
    right: u64,
) -> Result<(String, usize), AllocError> {
    let mut file = file_of(alloc, lines)?;
    let scratch = SpoilingScratch {
        inner: MemScratch::new(alloc, Vec::new(alloc)),
        wrong,
        right,
        faults: 0,
        reads: 0,
    };
    if plan == "b" {
        by_padded(alloc, &mut file, scratch)
    } else {
        by_packed(alloc, &mut file, scratch)
    }
}

/// Whether a row is so by what came with so many right reads; `None` where more are to come right. What comes back wrong is found at
/// each read that it comes at, until as many come right as are made. A row can say how many bytes are left in the scratch.
fn judged(answer: &str, right: u64, text: &str, kept: usize) -> Option<bool> {
    let is_found = answer.starts_with("Err");
    if is_found && text == "Ok((0, None))" {
        return Some(right > 1);
    }
    match answer.strip_prefix(text) {
        Some("") if is_found => None,
        Some("") => Some(true),
        Some(rest) => Some(rest.trim().parse().unwrap_or(0) == kept),
        None => Some(false),
    }
}

/// Whether a row is so.
fn is_so(alloc: Global, row: &str) -> Result<bool, AllocError> {
    let (front, answer) = row.split_once(" = ").unwrap_or((row, ""));
    let (plan, front) = front.split_once(' ').unwrap_or(("", ""));
    let (wrong, lines) = front.split_once(' ').unwrap_or(("", ""));
    for right in 0..64 {
        let (text, kept) = answered(alloc, plan, wrong_of(wrong), lines, right)?;
        if let Some(is_so) = judged(answer, right, text.as_str(), kept) {
            return Ok(is_so);
        }
    }
    Ok(false)
}

#[test]
fn files_are_taken_as_the_rows_say(rt: HostRuntime) {
    for row in ROWS.split('\n') {
        assert!(rt; is_so(rt.alloc(), row).unwrap_or(false), "{row}");
    }
}
