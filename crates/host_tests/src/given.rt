//! What a run is given.
ghost use Rattle.std.specs.Prelude.{◌≡◌, IfOk};
ghost use Rattle.std.specs.List.{All};

use do_disk::{Fails, MemDepot, MemDisk, MemSink, MemSource};
use serde_json::Value as Json;
use std::alloc::Global;
use std::test::Fail;
use test_rows::{PUT_AND_READ, Telling, named};

// The number of a call that doesn't come.
const NEVER: u64 = 0xffff_ffff_ffff_ffff;

/// The number of this name, where there is one.
pub(crate) fn number_of(given: &Json, name: &str) -> Option<u64> {
    given.get(name).and_then(Json::as_u64)
}

/// The calls of this name that fail: from the given one on, counted from 1, or none.
pub(crate) fn fails_of(given: &Json, name: &str) -> Fails {
    Fails::From(number_of(given, name).unwrap_or(NEVER))
}

// The calls of slot 0 that fail: the one of the number `once`, or as `disk` says.
fn disk_fails(alloc: Global, given: &Json) -> Result<Fails, Fail> {
    match number_of(given, "once") {
        Some(number) => Ok(Fails::Listed(vec![in alloc; number]?)),
        None => Ok(fails_of(given, "disk")),
    }
}

// The script's text as it is given, or else the sample of that name, or else the one that puts and reads.
fn script_of(given: &Json) -> &str {
    match given.get("script").and_then(Json::as_str) {
        Some(script) => script,
        None => given
            .get("sample")
            .and_then(Json::as_str)
            .and_then(named)
            .unwrap_or(PUT_AND_READ),
    }
}

// The script's bytes, where it is given in pieces.
fn text_of(alloc: Global, given: &Json) -> Result<Vec<u8>, Fail> {
    match given.get("text").and_then(Json::as_array) {
        Some(pieces) => bytes_of(alloc, pieces.as_slice()),
        None => Ok(script_of(given).as_bytes().to_vec(alloc)?),
    }
}

/// The script at the path s, and a disk for each file, or for the first so many of them.
pub(crate) fn depot_of(alloc: Global, given: &Json, files: &[Vec<u8>]) -> Result<MemDepot, Fail> {
    let path = String::from_str(alloc, "s")?;
    let text = text_of(alloc, given)?;
    let disks = disks_for(alloc, given, files)?;
    Ok(MemDepot::new(vec![in alloc; (path, text)]?, disks))
}

fn disks_for(alloc: Global, given: &Json, files: &[Vec<u8>]) -> Result<Vec<MemDisk>, Fail>
    ensures { IfOk result (λ disks. All (λ disk. disk.moment ≡ 0) disks.items) }
{
    let most = number_of(given, "disks").unwrap_or(NEVER);
    let mut disks = Vec::new(alloc);
    for slot in 0..files.len() {
        if (slot as u64) < most {
            disks.push(disk_of(alloc, given, slot, &files[slot])?)?;
        }
    }
    Ok(disks)
}

// The disk of a slot with this file. Calls of slot 0 alone fail.
fn disk_of(alloc: Global, given: &Json, slot: usize, file: &[u8]) -> Result<MemDisk, Fail>
    ensures { IfOk result (λ disk. disk.moment ≡ 0) }
{
    let fails = if slot == 0 {
        disk_fails(alloc, given)?
    } else {
        Fails::From(NEVER)
    };
    Ok(MemDisk::new(file.to_vec(alloc)?, fails))
}

/// The source that gives the lines, in pieces of so many bytes, 7 where none are said.
pub(crate) fn source_of(alloc: Global, given: &Json) -> Result<MemSource, Fail> {
    let piece = number_of(given, "piece").unwrap_or(7).clamp(1, 4096) as usize;
    let bytes = input_of(alloc, given)?;
    Ok(MemSource::new(bytes, piece, fails_of(given, "read")))
}

/// The sink, which takes five bytes at a time.
pub(crate) fn sink_of(alloc: Global, given: &Json) -> MemSink {
    MemSink::new(alloc, 5, fails_of(given, "write"))
}

// The lines, each with its LF.
fn input_of(alloc: Global, given: &Json) -> Result<Vec<u8>, Fail> {
    let mut input = Vec::new(alloc);
    let lines = given.get("lines").and_then(Json::as_array);
    for line in lines.map_or(&[][..], |lines| lines.as_slice()) {
        add_lines(alloc, &mut input, line)?;
    }
    Ok(input)
}

// A record `{"times": n, "line": LINE}` is that line so many times, anything else one line.
fn add_lines(alloc: Global, input: &mut Vec<u8>, line: &Json) -> Result<(), Fail> {
    let times = number_of(line, "times").unwrap_or(1);
    let one = line.get("line").unwrap_or(line);
    for _ in 0..times {
        add_line(alloc, input, one)?;
    }
    Ok(())
}

// A record of pieces is written as they stand, any other JSON compactly and with LF.
fn add_line(alloc: Global, input: &mut Vec<u8>, line: &Json) -> Result<(), Fail> {
    match line.get("raw").and_then(Json::as_array) {
        Some(pieces) => {
            let bytes = bytes_of(alloc, pieces.as_slice())?;
            input.extend_from_slice(&bytes)?;
        }
        None => {
            let text = line.to_string(alloc)?;
            input.extend_from_slice(text.as_bytes())?;
            input.push(b'\n')?;
        }
    }
    Ok(())
}

// The bytes of pieces.
fn bytes_of(alloc: Global, pieces: &[Json]) -> Result<Vec<u8>, Fail> {
    let mut bytes = Vec::new(alloc);
    for piece in pieces {
        let times = number_of(piece, "times").unwrap_or(1);
        let one = piece.get("piece").unwrap_or(piece);
        for _ in 0..times {
            add_piece(alloc, &mut bytes, one)?;
        }
    }
    Ok(bytes)
}

// A text as it stands, so many letters, or the bytes of a record `{"hex": ..}`. A record `{"times": n, "piece": PIECE}` is that piece so many times.
fn add_piece(alloc: Global, input: &mut Vec<u8>, piece: &Json) -> Result<(), Fail> {
    match (piece.as_str(), piece.get("hex").and_then(Json::as_str)) {
        (Some(text), _) => input.extend_from_slice(text.as_bytes())?,
        (None, Some(text)) => {
            let bytes = hex::decode(alloc, text.as_bytes())?;
            input.extend_from_slice(&bytes)?;
        }
        (None, None) => {
            for _ in 0..piece.as_u64().unwrap_or(0) {
                input.push(b'x')?;
            }
        }
    }
    Ok(())
}

// More bytes are told by their number, and by the last of them.
const MOST: usize = 1024;

// How many are the last ones.
const LAST: usize = 64;

/// Adds the bytes of a text to the line, each LF as a mark.
pub(crate) fn tell_bytes(line: &mut Telling, bytes: &[u8]) {
    if bytes.len() > MOST {
        let (_, last) = bytes.split_at(bytes.len().saturating_sub(LAST));
        line.tell(format!(in line.alloc(); "({} bytes) ..", bytes.len()));
        return tell_all(line, last);
    }
    tell_all(line, bytes);
}

// Adds all of these bytes.
fn tell_all(line: &mut Telling, bytes: &[u8]) {
    for byte in bytes {
        line.letter(if *byte == b'\n' { '⏎' } else { *byte as char });
    }
}

/// Adds the lines of a text to the line, sorted, each with a mark behind it.
pub(crate) fn tell_sorted(alloc: Global, line: &mut Telling, bytes: &[u8]) -> Result<(), Fail> {
    let text = String::from_utf8(bytes.to_vec(alloc)?).unwrap_or(String::new(alloc));
    let mut lines = Vec::new(alloc);
    for each in text.lines() {
        lines.push(each)?;
    }
    lines.sort()?;
    for each in lines {
        line.say(each);
        line.letter('⏎');
    }
    Ok(())
}
